//! The operation of an object that has a name.

ghost use Rattle.std.specs.Prelude.{◌≡◌, [], ◌∷◌, ◌++◌};
ghost use Rattle.td_cdr.specs.Format.{value_named};
ghost use Rattle.td_value.specs.declared.key.Kind.TheVariants as kind;
ghost use Rattle.td_ops.specs.declared.operation.Operation.TheVariants.{Get};
ghost use Rattle.td_ops.specs.declared.attribute.Attribute.TheVariants.{Incarnation, RequestIdStem};
ghost use Rattle.td_ops.specs.Iterators.{iterator_operations};
ghost use Rattle.td_ops.specs.Operations.{name_of, operations, object_operations, trader_operations, first_name};
ghost use Rattle.td_ops.specs.Operations.{component_readings, support_readings, import_readings, link_readings};
ghost use Rattle.td_ops.specs.Operations.{admin_readings};
ghost use Rattle.td_ops.specs.Operations.{setting_operations, operation_named};

use crate::attribute::{
    Attribute, FollowAttribute, NumberAttribute, ReferenceAttribute, TruthAttribute,
};
use crate::operation::{
    AdminOperation, IteratorOperation, LinkOperation, Operation, ProxyOperation, RegisterOperation,
    TypesOperation,
};
use td_cdr::find_named;
use td_value::Kind;

/// The operation of an object that has this name in a request. What is asked of every object is found
/// without a look into the table of its kind.
#[tactic(auto, using(crate::proofs::Named::every_object))]
pub fn operation_named(kind: &Kind, name: &[u8]) -> Option<Operation>
    ensures { result ≡ operation_named kind.now name.now }
{
    let name = first_name(name);
    if !name.starts_with(b"_") {
        return of_kind(kind, name);
    }
    match of_object(name) {
        Some(operation) => Some(operation),
        None => of_kind(kind, name),
    }
}

/// The operation of this name in the table of a kind.
fn of_kind(kind: &Kind, name: &[u8]) -> Option<Operation>
    ensures { result ≡ value_named name_of (operations kind.now) name.now }
{
    match kind {
        Kind::Lookup => of_lookup(name),
        Kind::Register => of_register(name),
        Kind::Link => of_link(name),
        Kind::Proxy => of_proxy(name),
        Kind::Admin => of_admin(name),
        Kind::Types => of_types(name),
        Kind::Iterator(_) => of_iterator(name),
    }
}

/// The first name of an operation, by which the tables have it. `_not_existent` is a second one.
fn first_name(name: &[u8]) -> &[u8]
    ensures { result.now ≡ first_name name.now }
{
    if name == b"_not_existent".as_slice() {
        b"_non_existent"
    } else {
        name
    }
}

/// An operation of the Lookup.
#[tactic(auto, using(crate::proofs::Named::value_named_append))]
fn of_lookup(name: &[u8]) -> Option<Operation>
    ensures { result ≡ value_named name_of (operations kind.Lookup) name.now }
{
    match find_named(&[Operation::Query], name) {
        Some(operation) => Some(operation),
        None => import_or_common(name),
    }
}

/// An attribute of ImportAttributes, or what all objects of a trader have.
#[tactic(auto, using(crate::proofs::Named::value_named_append))]
fn import_or_common(name: &[u8]) -> Option<Operation>
    ensures { result ≡ value_named name_of (import_readings ++ trader_operations) name.now }
{
    match import_named(name) {
        Some(operation) => Some(operation),
        None => of_trader(name),
    }
}

/// An operation of the Register.
#[tactic(auto, using(crate::proofs::Named::value_named_append))]
fn of_register(name: &[u8]) -> Option<Operation>
    ensures { result ≡ value_named name_of (operations kind.Register) name.now }
{
    match find_named(
        &[
            Operation::Register(RegisterOperation::Export),
            Operation::Register(RegisterOperation::Withdraw),
            Operation::Register(RegisterOperation::Describe),
            Operation::Register(RegisterOperation::Modify),
            Operation::Register(RegisterOperation::WithdrawUsingConstraint),
            Operation::Register(RegisterOperation::Resolve),
        ],
        name,
    ) {
        Some(operation) => Some(operation),
        None => of_trader(name),
    }
}

/// An operation of the Link.
#[tactic(auto, using(crate::proofs::Named::value_named_append))]
fn of_link(name: &[u8]) -> Option<Operation>
    ensures { result ≡ value_named name_of (operations kind.Link) name.now }
{
    match find_named(
        &[
            Operation::Link(LinkOperation::AddLink),
            Operation::Link(LinkOperation::RemoveLink),
            Operation::Link(LinkOperation::DescribeLink),
            Operation::Link(LinkOperation::ListLinks),
            Operation::Link(LinkOperation::ModifyLink),
        ],
        name,
    ) {
        Some(operation) => Some(operation),
        None => link_or_common(name),
    }
}

/// The attribute of LinkAttributes, or what all objects of a trader have.
#[tactic(auto, using(crate::proofs::Named::value_named_append))]
fn link_or_common(name: &[u8]) -> Option<Operation>
    ensures { result ≡ value_named name_of (link_readings ++ trader_operations) name.now }
{
    match find_named(
        &[Operation::Get(Attribute::Follow(FollowAttribute::MaxLinkFollowPolicy))],
        name,
    ) {
        Some(operation) => Some(operation),
        None => of_trader(name),
    }
}

/// An operation of the Proxy.
#[tactic(auto, using(crate::proofs::Named::value_named_append))]
fn of_proxy(name: &[u8]) -> Option<Operation>
    ensures { result ≡ value_named name_of (operations kind.Proxy) name.now }
{
    match find_named(
        &[
            Operation::Proxy(ProxyOperation::ExportProxy),
            Operation::Proxy(ProxyOperation::WithdrawProxy),
            Operation::Proxy(ProxyOperation::DescribeProxy),
        ],
        name,
    ) {
        Some(operation) => Some(operation),
        None => of_trader(name),
    }
}

/// An operation of the Admin.
#[tactic(auto, using(crate::proofs::Named::value_named_append))]
fn of_admin(name: &[u8]) -> Option<Operation>
    ensures { result ≡ value_named name_of (operations kind.Admin) name.now }
{
    match find_named(
        &[
            Operation::Admin(AdminOperation::ListOffers),
            Operation::Admin(AdminOperation::ListProxies),
            Operation::Admin(AdminOperation::SetTypeRepos),
        ],
        name,
    ) {
        Some(operation) => Some(operation),
        None => setting_or_reading(name),
    }
}

/// A setting of an attribute, or an attribute that Admin has, or what all objects of a trader have.
#[tactic(auto, using(crate::proofs::Named::value_named_append))]
fn setting_or_reading(name: &[u8]) -> Option<Operation>
    ensures { result ≡ value_named name_of (setting_operations ++ admin_readings) name.now }
{
    match setting_named(name) {
        Some(operation) => Some(operation),
        None => admin_reading(name),
    }
}

/// An attribute that Admin has, or what all objects of a trader have.
#[tactic(auto, using(crate::proofs::Named::value_named_append))]
fn admin_reading(name: &[u8]) -> Option<Operation>
    ensures { result ≡ value_named name_of admin_readings name.now }
{
    match import_named(name) {
        Some(operation) => Some(operation),
        None => admin_reading_of_links(name),
    }
}

/// An attribute that Admin has beside ImportAttributes, or what all objects of a trader have.
#[tactic(auto, using(crate::proofs::Named::value_named_append))]
fn admin_reading_of_links(name: &[u8]) -> Option<Operation>
    ensures { result ≡ value_named name_of (link_readings ++ (Get RequestIdStem ∷ [])
        ++ trader_operations) name.now }
{
    match find_named(
        &[Operation::Get(Attribute::Follow(FollowAttribute::MaxLinkFollowPolicy))],
        name,
    ) {
        Some(operation) => Some(operation),
        None => stem_or_common(name),
    }
}

/// The stem, or what all objects of a trader have.
#[tactic(auto, using(crate::proofs::Named::value_named_append))]
fn stem_or_common(name: &[u8]) -> Option<Operation>
    ensures { result ≡ value_named name_of ((Get RequestIdStem ∷ []) ++ trader_operations)
        name.now }
{
    match find_named(&[Operation::Get(Attribute::RequestIdStem)], name) {
        Some(operation) => Some(operation),
        None => of_trader(name),
    }
}

/// An operation of the type repository.
#[tactic(auto, using(crate::proofs::Named::value_named_append))]
fn of_types(name: &[u8]) -> Option<Operation>
    ensures { result ≡ value_named name_of (operations kind.Types) name.now }
{
    match find_named(
        &[
            Operation::Types(TypesOperation::AddType),
            Operation::Types(TypesOperation::RemoveType),
            Operation::Types(TypesOperation::ListTypes),
            Operation::Types(TypesOperation::DescribeType),
            Operation::Types(TypesOperation::FullyDescribeType),
            Operation::Types(TypesOperation::MaskType),
            Operation::Types(TypesOperation::UnmaskType),
        ],
        name,
    ) {
        Some(operation) => Some(operation),
        None => incarnation_or_object(name),
    }
}

/// The attribute of the type repository, or what every object has.
#[tactic(auto, using(crate::proofs::Named::value_named_append))]
fn incarnation_or_object(name: &[u8]) -> Option<Operation>
    ensures { result ≡ value_named name_of ((Get Incarnation ∷ []) ++ object_operations) name.now }
{
    match find_named(&[Operation::Get(Attribute::Incarnation)], name) {
        Some(operation) => Some(operation),
        None => of_object(name),
    }
}

/// An operation of an iterator.
#[tactic(auto, using(crate::proofs::Named::value_named_append))]
fn of_iterator(name: &[u8]) -> Option<Operation>
    ensures { result ≡ value_named name_of (iterator_operations ++ object_operations) name.now }
{
    match find_named(
        &[
            Operation::Iterator(IteratorOperation::MaxLeft),
            Operation::Iterator(IteratorOperation::NextN),
            Operation::Iterator(IteratorOperation::Destroy),
        ],
        name,
    ) {
        Some(operation) => Some(operation),
        None => of_object(name),
    }
}

/// An operation of every object.
fn of_object(name: &[u8]) -> Option<Operation>
    ensures { result ≡ value_named name_of object_operations name.now }
{
    find_named(&[Operation::IsA, Operation::NonExistent], name)
}

/// What all objects of a trader have.
#[tactic(auto, using(crate::proofs::Named::value_named_append))]
fn of_trader(name: &[u8]) -> Option<Operation>
    ensures { result ≡ value_named name_of trader_operations name.now }
{
    match component_named(name) {
        Some(operation) => Some(operation),
        None => support_or_object(name),
    }
}

/// An attribute of SupportAttributes, or what every object has.
#[tactic(auto, using(crate::proofs::Named::value_named_append))]
fn support_or_object(name: &[u8]) -> Option<Operation>
    ensures { result ≡ value_named name_of (support_readings ++ object_operations) name.now }
{
    match support_named(name) {
        Some(operation) => Some(operation),
        None => of_object(name),
    }
}

/// An attribute of the interface TraderComponents that is read.
fn component_named(name: &[u8]) -> Option<Operation>
    ensures { result ≡ value_named name_of component_readings name.now }
{
    find_named(
        &[
            Operation::Get(Attribute::Reference(ReferenceAttribute::LookupIf)),
            Operation::Get(Attribute::Reference(ReferenceAttribute::RegisterIf)),
            Operation::Get(Attribute::Reference(ReferenceAttribute::LinkIf)),
            Operation::Get(Attribute::Reference(ReferenceAttribute::ProxyIf)),
            Operation::Get(Attribute::Reference(ReferenceAttribute::AdminIf)),
        ],
        name,
    )
}

/// An attribute of the interface SupportAttributes that is read.
fn support_named(name: &[u8]) -> Option<Operation>
    ensures { result ≡ value_named name_of support_readings name.now }
{
    find_named(
        &[
            Operation::Get(Attribute::Truth(TruthAttribute::SupportsModifiableProperties)),
            Operation::Get(Attribute::Truth(TruthAttribute::SupportsDynamicProperties)),
            Operation::Get(Attribute::Truth(TruthAttribute::SupportsProxyOffers)),
            Operation::Get(Attribute::Reference(ReferenceAttribute::TypeRepos)),
        ],
        name,
    )
}

/// An attribute of the interface ImportAttributes that is read.
fn import_named(name: &[u8]) -> Option<Operation>
    ensures { result ≡ value_named name_of import_readings name.now }
{
    find_named(
        &[
            Operation::Get(Attribute::Number(NumberAttribute::DefSearchCard)),
            Operation::Get(Attribute::Number(NumberAttribute::MaxSearchCard)),
            Operation::Get(Attribute::Number(NumberAttribute::DefMatchCard)),
            Operation::Get(Attribute::Number(NumberAttribute::MaxMatchCard)),
            Operation::Get(Attribute::Number(NumberAttribute::DefReturnCard)),
            Operation::Get(Attribute::Number(NumberAttribute::MaxReturnCard)),
            Operation::Get(Attribute::Number(NumberAttribute::MaxList)),
            Operation::Get(Attribute::Number(NumberAttribute::DefHopCount)),
            Operation::Get(Attribute::Number(NumberAttribute::MaxHopCount)),
            Operation::Get(Attribute::Follow(FollowAttribute::DefFollowPolicy)),
            Operation::Get(Attribute::Follow(FollowAttribute::MaxFollowPolicy)),
        ],
        name,
    )
}

/// A setting of an attribute.
fn setting_named(name: &[u8]) -> Option<Operation>
    ensures { result ≡ value_named name_of setting_operations name.now }
{
    find_named(
        &[
            Operation::SetTruth(TruthAttribute::SupportsModifiableProperties),
            Operation::SetTruth(TruthAttribute::SupportsDynamicProperties),
            Operation::SetTruth(TruthAttribute::SupportsProxyOffers),
            Operation::SetNumber(NumberAttribute::DefSearchCard),
            Operation::SetNumber(NumberAttribute::MaxSearchCard),
            Operation::SetNumber(NumberAttribute::DefMatchCard),
            Operation::SetNumber(NumberAttribute::MaxMatchCard),
            Operation::SetNumber(NumberAttribute::DefReturnCard),
            Operation::SetNumber(NumberAttribute::MaxReturnCard),
            Operation::SetNumber(NumberAttribute::MaxList),
            Operation::SetNumber(NumberAttribute::DefHopCount),
            Operation::SetNumber(NumberAttribute::MaxHopCount),
            Operation::SetFollow(FollowAttribute::DefFollowPolicy),
            Operation::SetFollow(FollowAttribute::MaxFollowPolicy),
            Operation::SetFollow(FollowAttribute::MaxLinkFollowPolicy),
            Operation::SetRequestIdStem,
        ],
        name,
    )
}
