//! Calls of a trader's objects, by the names of their operations and parameters (OMG's Trading Object
//! Service, modules CosTrading and CosTradingRepos).

ghost use Rattle.std.specs.Prelude.{◌≡◌};
ghost use Rattle.td_ops.specs.Parameters.{add_link, query};

use crate::attribute::{Attribute, FollowAttribute, NumberAttribute, TruthAttribute};
use std::alloc::Global;
use td_cdr::{
    Boxed, List, Memory, Octets, Reader, Shared, Spelled, Text, ValueFault, Writer, put_four,
    put_six,
};
use td_value::{
    FollowOption, Ior, Policy, PropStruct, Property, SpecifiedProps, SpecifiedServiceTypes,
};

/// A call of an operation, with its parameters.
#[derive(Drop)]
pub enum Call {
    Change(Change),
    Look(Look),
    Query(Shared<Query>),
    AddLink(AddLink),
    /// What the links of these names lead to, one after the other.
    Resolve(List<Text>),
    Iter(IterCall),
    /// Whether the object has the interface of this repository id.
    IsA(Text),
    /// Whether the object is gone.
    NonExistent,
}

/// A call that changes what a trader or its type repository keeps. `AddLink` is the change that a call of
/// `add_link` comes to, once the register of its target is known; no request carries it.
#[derive(Drop)]
pub enum Change {
    Export {
        reference: Shared<Ior>,
        service_type: Shared<Text>,
        properties: Shared<List<Property>>,
    },
    Withdraw {
        id: Text,
    },
    Modify {
        id: Text,
        deleted: List<Text>,
        changed: List<Property>,
    },
    WithdrawUsingConstraint {
        service_type: Text,
        constraint: Text,
    },
    AddLink {
        name: Text,
        target: Boxed<Ior>,
        def_pass_on: FollowOption,
        limiting: FollowOption,
        register: Option<Ior>,
    },
    RemoveLink {
        name: Text,
    },
    ModifyLink {
        name: Text,
        def_pass_on: FollowOption,
        limiting: FollowOption,
    },
    ExportProxy {
        target: Shared<Ior>,
        service_type: Shared<Text>,
        properties: Shared<List<Property>>,
        if_match_all: bool,
        recipe: Text,
        policies: List<Policy>,
    },
    WithdrawProxy {
        id: Text,
    },
    /// Sets an attribute of Admin.
    SetTruth {
        attribute: TruthAttribute,
        value: bool,
    },
    SetNumber {
        attribute: NumberAttribute,
        value: u32,
    },
    SetFollow {
        attribute: FollowAttribute,
        value: FollowOption,
    },
    SetRequestIdStem {
        value: Octets,
    },
    AddType {
        name: Text,
        if_name: Text,
        props: List<PropStruct>,
        super_types: List<Text>,
    },
    RemoveType {
        name: Text,
    },
    MaskType {
        name: Text,
    },
    UnmaskType {
        name: Text,
    },
}

/// A call that changes nothing.
#[derive(Drop)]
pub enum Look {
    Describe { id: Text },
    DescribeLink { name: Text },
    ListLinks,
    DescribeProxy { id: Text },
    ListOffers { how_many: u32 },
    ListProxies { how_many: u32 },
    ListTypes { which: SpecifiedServiceTypes },
    DescribeType { name: Text },
    FullyDescribeType { name: Text },
    /// An attribute is read.
    Get(Attribute),
}

/// A call of an iterator.
#[derive(Drop)]
pub enum IterCall {
    MaxLeft,
    /// At most this many items.
    NextN { n: u32 },
    Destroy,
}

/// The parameters of `query`.
pub struct Query {
    pub service_type: Text,
    pub constraint: Text,
    pub preference: Text,
    pub policies: List<Policy>,
    /// The properties that each offer is answered with.
    pub desired: SpecifiedProps,
    /// The number of offers that the answer itself may have; the others come by the iterator.
    pub how_many: u32,
}

// By hand, since a derived drop is written out at each exit, and proved again in each crate above.
impl Drop for Query {
    fn drop(self) {
        let Query {
            service_type: _service_type,
            constraint: _constraint,
            preference: _preference,
            policies: _policies,
            desired: _desired,
            how_many: _how_many,
        } = self;
    }
}

/// The parameters of `add_link`.
#[derive(Drop)]
pub struct AddLink {
    pub name: Text,
    pub target: Boxed<Ior>,
    pub def_pass_on: FollowOption,
    pub limiting: FollowOption,
}

impl Spelled for Query {
    ghost format = { query.format };

    ghost faults = { query.faults };

    fn read(alloc: Global, r: &mut Reader) -> Result<Query, ValueFault> {
        let (service_type, (constraint, (preference, (policies, (desired, how_many))))) = <(
            Text,
            (Text, (Text, (List<Policy>, (SpecifiedProps, u32)))),
        )>::read(alloc, r)?;
        Ok(Query {
            service_type,
            constraint,
            preference,
            policies,
            desired,
            how_many,
        })
    }

    fn write(&self, alloc: Global, w: &mut Writer) -> Result<(), Memory> {
        put_six(
            alloc,
            w,
            &self.service_type,
            &self.constraint,
            &self.preference,
            &self.policies,
            &self.desired,
            &self.how_many,
        )
    }

    ghost lawful = { query.lawful };

    ghost refuses = { query.refuses };
}

impl Spelled for AddLink {
    ghost format = { add_link.format };

    ghost faults = { add_link.faults };

    fn read(alloc: Global, r: &mut Reader) -> Result<AddLink, ValueFault> {
        let (name, (target, (def_pass_on, limiting))) = <(
            Text,
            (Boxed<Ior>, (FollowOption, FollowOption)),
        )>::read(alloc, r)?;
        Ok(AddLink {
            name,
            target,
            def_pass_on,
            limiting,
        })
    }

    fn write(&self, alloc: Global, w: &mut Writer) -> Result<(), Memory> {
        put_four(
            alloc,
            w,
            &self.name,
            &self.target,
            &self.def_pass_on,
            &self.limiting,
        )
    }

    ghost lawful = { add_link.lawful };

    ghost refuses = { add_link.refuses };
}
