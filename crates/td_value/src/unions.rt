//! The unions of the trading service (OMG's Trading Object Service, modules CosTrading and
//! CosTradingRepos): each is spelled by a discriminator and the member that it chooses.

ghost use Rattle.std.specs.Prelude.{◌≡◌};
ghost use Rattle.td_value.specs.Unions.{specified_props, specified_types};

use crate::enumerations::{HowManyProps, ListOption};
use crate::structures::IncarnationNumber;
use std::alloc::Global;
use td_cdr::{List, Memory, Reader, Spelled, Text, Twin, ValueFault, Writer, put_two};

/// The properties that an importer asks for.
pub enum SpecifiedProps {
    None,
    Some(List<Text>),
    All,
}

// By hand, since a derived drop is written out at each exit, and proved again in each crate above.
impl Drop for SpecifiedProps {
    fn drop(self) {
        match self {
            SpecifiedProps::None => (),
            SpecifiedProps::Some(_inner) => (),
            SpecifiedProps::All => (),
        }
    }
}

impl Twin for SpecifiedProps {
    fn copy(&self, alloc: Global) -> Result<SpecifiedProps, Memory> {
        match self {
            SpecifiedProps::None => Ok(SpecifiedProps::None),
            SpecifiedProps::Some(names) => Ok(SpecifiedProps::Some(names.copy(alloc)?)),
            SpecifiedProps::All => Ok(SpecifiedProps::All),
        }
    }
}

impl Spelled for SpecifiedProps {
    ghost format = { specified_props.format };

    ghost faults = { specified_props.faults };

    fn read(alloc: Global, r: &mut Reader) -> Result<SpecifiedProps, ValueFault> {
        match HowManyProps::read(alloc, r)? {
            HowManyProps::None => Ok(SpecifiedProps::None),
            HowManyProps::Some => Ok(SpecifiedProps::Some(List::read(alloc, r)?)),
            HowManyProps::All => Ok(SpecifiedProps::All),
        }
    }

    fn write(&self, alloc: Global, w: &mut Writer) -> Result<(), Memory> {
        match self {
            SpecifiedProps::None => HowManyProps::None.write(alloc, w),
            SpecifiedProps::Some(names) => put_two(alloc, w, &HowManyProps::Some, names),
            SpecifiedProps::All => HowManyProps::All.write(alloc, w),
        }
    }

    ghost lawful = { specified_props.lawful };

    ghost refuses = { specified_props.refuses };
}

/// The service types that are listed.
pub enum SpecifiedServiceTypes {
    All,
    /// Those of this incarnation or a later one.
    Since(IncarnationNumber),
}

impl Drop for SpecifiedServiceTypes {
    fn drop(self) {
        match self {
            SpecifiedServiceTypes::All => (),
            SpecifiedServiceTypes::Since(_inner) => (),
        }
    }
}

impl Twin for SpecifiedServiceTypes {
    fn copy(&self, alloc: Global) -> Result<SpecifiedServiceTypes, Memory> {
        match self {
            SpecifiedServiceTypes::All => Ok(SpecifiedServiceTypes::All),
            SpecifiedServiceTypes::Since(incarnation) => {
                Ok(SpecifiedServiceTypes::Since(incarnation.copy(alloc)?))
            }
        }
    }
}

impl Spelled for SpecifiedServiceTypes {
    ghost format = { specified_types.format };

    ghost faults = { specified_types.faults };

    fn read(alloc: Global, r: &mut Reader) -> Result<SpecifiedServiceTypes, ValueFault> {
        match ListOption::read(alloc, r)? {
            ListOption::All => Ok(SpecifiedServiceTypes::All),
            ListOption::Since => {
                Ok(SpecifiedServiceTypes::Since(IncarnationNumber::read(alloc, r)?))
            }
        }
    }

    fn write(&self, alloc: Global, w: &mut Writer) -> Result<(), Memory> {
        match self {
            SpecifiedServiceTypes::All => ListOption::All.write(alloc, w),
            SpecifiedServiceTypes::Since(incarnation) => {
                put_two(alloc, w, &ListOption::Since, incarnation)
            }
        }
    }

    ghost lawful = { specified_types.lawful };

    ghost refuses = { specified_types.refuses };
}
