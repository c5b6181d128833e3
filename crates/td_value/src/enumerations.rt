//! The enumerations of the trading service (OMG's Trading Object Service, modules CosTrading and
//! CosTradingRepos): each value is spelled by its number.

ghost use Rattle.std.specs.Prelude.{◌≡◌};
ghost use Rattle.td_value.specs.Enumerations.{follow_option, follow_option_number, how_many_props};
ghost use Rattle.td_value.specs.Enumerations.{how_many_props_number, property_mode, property_mode_number, list_option};
ghost use Rattle.td_value.specs.Enumerations.{list_option_number};

use std::alloc::Global;
use td_cdr::{Memory, Reader, Spelled, Twin, ValueFault, Writer};

/// How far a query follows a link. A later one permits more.
#[derive(Clone, Copy, Debug, PartialEq, Eq)]
pub enum FollowOption {
    LocalOnly,
    IfNoLocal,
    Always,
}

impl FollowOption {
    /// The number that spells it.
    pub fn number(self) -> u32
        ensures { result ≡ follow_option_number self }
    {
        match self {
            FollowOption::LocalOnly => 0,
            FollowOption::IfNoLocal => 1,
            FollowOption::Always => 2,
        }
    }
}

impl Spelled for FollowOption {
    ghost format = { follow_option.format };

    ghost faults = { follow_option.faults };

    fn read(_alloc: Global, r: &mut Reader) -> Result<FollowOption, ValueFault> {
        let place = r.aligned();
        match r.u32()? {
            0 => Ok(FollowOption::LocalOnly),
            1 => Ok(FollowOption::IfNoLocal),
            2 => Ok(FollowOption::Always),
            _ => Err(ValueFault::BadValue(place)),
        }
    }

    fn write(&self, _alloc: Global, w: &mut Writer) -> Result<(), Memory> {
        w.u32(self.number())
    }

    ghost lawful = { follow_option.lawful };

    ghost refuses = { follow_option.refuses };
}

/// Which properties an importer asks for.
#[derive(Clone, Copy, Debug, PartialEq, Eq)]
pub enum HowManyProps {
    None,
    Some,
    All,
}

impl HowManyProps {
    /// The number that spells it.
    pub fn number(self) -> u32
        ensures { result ≡ how_many_props_number self }
    {
        match self {
            HowManyProps::None => 0,
            HowManyProps::Some => 1,
            HowManyProps::All => 2,
        }
    }
}

impl Spelled for HowManyProps {
    ghost format = { how_many_props.format };

    ghost faults = { how_many_props.faults };

    fn read(_alloc: Global, r: &mut Reader) -> Result<HowManyProps, ValueFault> {
        let place = r.aligned();
        match r.u32()? {
            0 => Ok(HowManyProps::None),
            1 => Ok(HowManyProps::Some),
            2 => Ok(HowManyProps::All),
            _ => Err(ValueFault::BadValue(place)),
        }
    }

    fn write(&self, _alloc: Global, w: &mut Writer) -> Result<(), Memory> {
        w.u32(self.number())
    }

    ghost lawful = { how_many_props.lawful };

    ghost refuses = { how_many_props.refuses };
}

/// What an exporter owes of a property.
#[derive(Clone, Copy, Debug, PartialEq, Eq)]
pub enum PropertyMode {
    Normal,
    Readonly,
    Mandatory,
    MandatoryReadonly,
}

impl Twin for PropertyMode {
    fn copy(&self, _alloc: Global) -> Result<PropertyMode, Memory> {
        Ok(*self)
    }
}

impl PropertyMode {
    /// The number that spells it.
    pub fn number(self) -> u32
        ensures { result ≡ property_mode_number self }
    {
        match self {
            PropertyMode::Normal => 0,
            PropertyMode::Readonly => 1,
            PropertyMode::Mandatory => 2,
            PropertyMode::MandatoryReadonly => 3,
        }
    }
}

impl Spelled for PropertyMode {
    ghost format = { property_mode.format };

    ghost faults = { property_mode.faults };

    fn read(_alloc: Global, r: &mut Reader) -> Result<PropertyMode, ValueFault> {
        let place = r.aligned();
        match r.u32()? {
            0 => Ok(PropertyMode::Normal),
            1 => Ok(PropertyMode::Readonly),
            2 => Ok(PropertyMode::Mandatory),
            3 => Ok(PropertyMode::MandatoryReadonly),
            _ => Err(ValueFault::BadValue(place)),
        }
    }

    fn write(&self, _alloc: Global, w: &mut Writer) -> Result<(), Memory> {
        w.u32(self.number())
    }

    ghost lawful = { property_mode.lawful };

    ghost refuses = { property_mode.refuses };
}

/// Which service types are listed.
#[derive(Clone, Copy, Debug, PartialEq, Eq)]
pub enum ListOption {
    All,
    Since,
}

impl ListOption {
    /// The number that spells it.
    pub fn number(self) -> u32
        ensures { result ≡ list_option_number self }
    {
        match self {
            ListOption::All => 0,
            ListOption::Since => 1,
        }
    }
}

impl Spelled for ListOption {
    ghost format = { list_option.format };

    ghost faults = { list_option.faults };

    fn read(_alloc: Global, r: &mut Reader) -> Result<ListOption, ValueFault> {
        let place = r.aligned();
        match r.u32()? {
            0 => Ok(ListOption::All),
            1 => Ok(ListOption::Since),
            _ => Err(ValueFault::BadValue(place)),
        }
    }

    fn write(&self, _alloc: Global, w: &mut Writer) -> Result<(), Memory> {
        w.u32(self.number())
    }

    ghost lawful = { list_option.lawful };

    ghost refuses = { list_option.refuses };
}
