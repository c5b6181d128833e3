//! The structures of the trading service (OMG's Trading Object Service, modules CosTrading,
//! CosTradingDynamic and CosTradingRepos): each is spelled by its members in order.

ghost use Rattle.std.specs.Prelude.{◌≡◌};
ghost use Rattle.td_value.specs.Structures.{property, policy, incarnation_number, prop_struct, offer, offer_info};
ghost use Rattle.td_value.specs.Structures.{link_info, proxy_info, type_struct, dynamic_prop};

use crate::enumerations::{FollowOption, PropertyMode};
use std::alloc::Global;
use td_cdr::{
    List, Memory, Reader, Shared, Spelled, Text, Twin, ValueFault, Writer, put_five, put_four,
    put_six, put_three, put_two,
};
use td_typecode::{Any, Ior, TypeCode};

/// A property of an offer.
pub struct Property {
    /// The property's name.
    pub name: Text,
    pub value: Any,
}

// By hand, since a derived drop is written out at each exit, and proved again in each crate above.
impl Drop for Property {
    fn drop(self) {
        let Property {
            name: _name,
            value: _value,
        } = self;
    }
}

impl Twin for Property {
    fn copy(&self, alloc: Global) -> Result<Property, Memory> {
        Ok(Property {
            name: self.name.copy(alloc)?,
            value: self.value.copy(alloc)?,
        })
    }
}

impl Spelled for Property {
    ghost format = { property.format };

    ghost faults = { property.faults };

    fn read(alloc: Global, r: &mut Reader) -> Result<Property, ValueFault> {
        Ok(Property {
            name: Text::read(alloc, r)?,
            value: Any::read(alloc, r)?,
        })
    }

    fn write(&self, alloc: Global, w: &mut Writer) -> Result<(), Memory> {
        put_two(alloc, w, &self.name, &self.value)
    }

    ghost lawful = { property.lawful };

    ghost refuses = { property.refuses };
}

/// A policy of an importer.
pub struct Policy {
    /// The policy's name.
    pub name: Text,
    pub value: Any,
}

impl Drop for Policy {
    fn drop(self) {
        let Policy {
            name: _name,
            value: _value,
        } = self;
    }
}

impl Twin for Policy {
    fn copy(&self, alloc: Global) -> Result<Policy, Memory> {
        Ok(Policy {
            name: self.name.copy(alloc)?,
            value: self.value.copy(alloc)?,
        })
    }
}

impl Spelled for Policy {
    ghost format = { policy.format };

    ghost faults = { policy.faults };

    fn read(alloc: Global, r: &mut Reader) -> Result<Policy, ValueFault> {
        Ok(Policy {
            name: Text::read(alloc, r)?,
            value: Any::read(alloc, r)?,
        })
    }

    fn write(&self, alloc: Global, w: &mut Writer) -> Result<(), Memory> {
        put_two(alloc, w, &self.name, &self.value)
    }

    ghost lawful = { policy.lawful };

    ghost refuses = { policy.refuses };
}

/// The number that a type gets when it is added, in two halves.
pub struct IncarnationNumber {
    pub high: u32,
    pub low: u32,
}

impl Drop for IncarnationNumber {
    fn drop(self) {
        let IncarnationNumber {
            high: _high,
            low: _low,
        } = self;
    }
}

impl Twin for IncarnationNumber {
    fn copy(&self, _alloc: Global) -> Result<IncarnationNumber, Memory> {
        Ok(IncarnationNumber {
            high: self.high,
            low: self.low,
        })
    }
}

impl Spelled for IncarnationNumber {
    ghost format = { incarnation_number.format };

    ghost faults = { incarnation_number.faults };

    fn read(alloc: Global, r: &mut Reader) -> Result<IncarnationNumber, ValueFault> {
        Ok(IncarnationNumber {
            high: u32::read(alloc, r)?,
            low: u32::read(alloc, r)?,
        })
    }

    fn write(&self, alloc: Global, w: &mut Writer) -> Result<(), Memory> {
        put_two(alloc, w, &self.high, &self.low)
    }

    ghost lawful = { incarnation_number.lawful };

    ghost refuses = { incarnation_number.refuses };
}

/// A property as a service type declares it.
pub struct PropStruct {
    /// The property's name.
    pub name: Text,
    pub value_type: TypeCode,
    pub mode: PropertyMode,
}

impl Drop for PropStruct {
    fn drop(self) {
        let PropStruct {
            name: _name,
            value_type: _value_type,
            mode: _mode,
        } = self;
    }
}

impl Twin for PropStruct {
    fn copy(&self, alloc: Global) -> Result<PropStruct, Memory> {
        Ok(PropStruct {
            name: self.name.copy(alloc)?,
            value_type: self.value_type.copy(alloc)?,
            mode: self.mode,
        })
    }
}

impl Spelled for PropStruct {
    ghost format = { prop_struct.format };

    ghost faults = { prop_struct.faults };

    fn read(alloc: Global, r: &mut Reader) -> Result<PropStruct, ValueFault> {
        Ok(PropStruct {
            name: Text::read(alloc, r)?,
            value_type: TypeCode::read(alloc, r)?,
            mode: PropertyMode::read(alloc, r)?,
        })
    }

    fn write(&self, alloc: Global, w: &mut Writer) -> Result<(), Memory> {
        put_three(alloc, w, &self.name, &self.value_type, &self.mode)
    }

    ghost lawful = { prop_struct.lawful };

    ghost refuses = { prop_struct.refuses };
}

/// An offer as an importer sees it. Its parts are shared, so that an answer has those of the trader that keeps it.
pub struct Offer {
    pub reference: Shared<Ior>,
    pub properties: Shared<List<Property>>,
}

impl Drop for Offer {
    fn drop(self) {
        let Offer {
            reference: _reference,
            properties: _properties,
        } = self;
    }
}

impl Twin for Offer {
    fn copy(&self, alloc: Global) -> Result<Offer, Memory> {
        Ok(Offer {
            reference: self.reference.copy(alloc)?,
            properties: self.properties.copy(alloc)?,
        })
    }
}

impl Spelled for Offer {
    ghost format = { offer.format };

    ghost faults = { offer.faults };

    fn read(alloc: Global, r: &mut Reader) -> Result<Offer, ValueFault> {
        Ok(Offer {
            reference: Shared::read(alloc, r)?,
            properties: Shared::read(alloc, r)?,
        })
    }

    fn write(&self, alloc: Global, w: &mut Writer) -> Result<(), Memory> {
        put_two(alloc, w, &self.reference, &self.properties)
    }

    ghost lawful = { offer.lawful };

    ghost refuses = { offer.refuses };
}

/// An offer as its exporter sees it.
pub struct OfferInfo {
    pub reference: Ior,
    /// The name of the service type.
    pub service_type: Text,
    pub properties: List<Property>,
}

impl Drop for OfferInfo {
    fn drop(self) {
        let OfferInfo {
            reference: _reference,
            service_type: _service_type,
            properties: _properties,
        } = self;
    }
}

impl Spelled for OfferInfo {
    ghost format = { offer_info.format };

    ghost faults = { offer_info.faults };

    fn read(alloc: Global, r: &mut Reader) -> Result<OfferInfo, ValueFault> {
        Ok(OfferInfo {
            reference: Ior::read(alloc, r)?,
            service_type: Text::read(alloc, r)?,
            properties: List::read(alloc, r)?,
        })
    }

    fn write(&self, alloc: Global, w: &mut Writer) -> Result<(), Memory> {
        put_three(
            alloc,
            w,
            &self.reference,
            &self.service_type,
            &self.properties,
        )
    }

    ghost lawful = { offer_info.lawful };

    ghost refuses = { offer_info.refuses };
}

/// A link to another trader.
#[derive(Drop)]
pub struct LinkInfo {
    /// The Lookup of the other trader.
    pub target: Ior,
    /// Its Register, or nil.
    pub target_reg: Ior,
    pub def_pass_on_follow_rule: FollowOption,
    pub limiting_follow_rule: FollowOption,
}

impl Spelled for LinkInfo {
    ghost format = { link_info.format };

    ghost faults = { link_info.faults };

    fn read(alloc: Global, r: &mut Reader) -> Result<LinkInfo, ValueFault> {
        Ok(LinkInfo {
            target: Ior::read(alloc, r)?,
            target_reg: Ior::read(alloc, r)?,
            def_pass_on_follow_rule: FollowOption::read(alloc, r)?,
            limiting_follow_rule: FollowOption::read(alloc, r)?,
        })
    }

    fn write(&self, alloc: Global, w: &mut Writer) -> Result<(), Memory> {
        put_four(
            alloc,
            w,
            &self.target,
            &self.target_reg,
            &self.def_pass_on_follow_rule,
            &self.limiting_follow_rule,
        )
    }

    ghost lawful = { link_info.lawful };

    ghost refuses = { link_info.refuses };
}

/// A proxy offer.
pub struct ProxyInfo {
    /// The name of the service type.
    pub service_type: Text,
    /// The Lookup that is asked.
    pub target: Ior,
    pub properties: List<Property>,
    pub if_match_all: bool,
    pub recipe: Text,
    pub policies_to_pass_on: List<Policy>,
}

impl Drop for ProxyInfo {
    fn drop(self) {
        let ProxyInfo {
            service_type: _service_type,
            target: _target,
            properties: _properties,
            if_match_all: _if_match_all,
            recipe: _recipe,
            policies_to_pass_on: _policies_to_pass_on,
        } = self;
    }
}

impl Spelled for ProxyInfo {
    ghost format = { proxy_info.format };

    ghost faults = { proxy_info.faults };

    fn read(alloc: Global, r: &mut Reader) -> Result<ProxyInfo, ValueFault> {
        Ok(ProxyInfo {
            service_type: Text::read(alloc, r)?,
            target: Ior::read(alloc, r)?,
            properties: List::read(alloc, r)?,
            if_match_all: bool::read(alloc, r)?,
            recipe: Text::read(alloc, r)?,
            policies_to_pass_on: List::read(alloc, r)?,
        })
    }

    fn write(&self, alloc: Global, w: &mut Writer) -> Result<(), Memory> {
        put_six(
            alloc,
            w,
            &self.service_type,
            &self.target,
            &self.properties,
            &self.if_match_all,
            &self.recipe,
            &self.policies_to_pass_on,
        )
    }

    ghost lawful = { proxy_info.lawful };

    ghost refuses = { proxy_info.refuses };
}

/// A service type.
#[derive(Drop)]
pub struct TypeStruct {
    /// The repository id of the interface.
    pub if_name: Text,
    pub props: List<PropStruct>,
    pub super_types: List<Text>,
    pub masked: bool,
    pub incarnation: IncarnationNumber,
}

impl Spelled for TypeStruct {
    ghost format = { type_struct.format };

    ghost faults = { type_struct.faults };

    fn read(alloc: Global, r: &mut Reader) -> Result<TypeStruct, ValueFault> {
        Ok(TypeStruct {
            if_name: Text::read(alloc, r)?,
            props: List::read(alloc, r)?,
            super_types: List::read(alloc, r)?,
            masked: bool::read(alloc, r)?,
            incarnation: IncarnationNumber::read(alloc, r)?,
        })
    }

    fn write(&self, alloc: Global, w: &mut Writer) -> Result<(), Memory> {
        put_five(
            alloc,
            w,
            &self.if_name,
            &self.props,
            &self.super_types,
            &self.masked,
            &self.incarnation,
        )
    }

    ghost lawful = { type_struct.lawful };

    ghost refuses = { type_struct.refuses };
}

/// A property that is evaluated when it is asked for.
pub struct DynamicProp {
    /// The object that evaluates the property.
    pub eval_if: Ior,
    pub returned_type: TypeCode,
    pub extra_info: Any,
}

impl Drop for DynamicProp {
    fn drop(self) {
        let DynamicProp {
            eval_if: _eval_if,
            returned_type: _returned_type,
            extra_info: _extra_info,
        } = self;
    }
}

impl Spelled for DynamicProp {
    ghost format = { dynamic_prop.format };

    ghost faults = { dynamic_prop.faults };

    fn read(alloc: Global, r: &mut Reader) -> Result<DynamicProp, ValueFault> {
        Ok(DynamicProp {
            eval_if: Ior::read(alloc, r)?,
            returned_type: TypeCode::read(alloc, r)?,
            extra_info: Any::read(alloc, r)?,
        })
    }

    fn write(&self, alloc: Global, w: &mut Writer) -> Result<(), Memory> {
        put_three(
            alloc,
            w,
            &self.eval_if,
            &self.returned_type,
            &self.extra_info,
        )
    }

    ghost lawful = { dynamic_prop.lawful };

    ghost refuses = { dynamic_prop.refuses };
}
