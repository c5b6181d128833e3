//! The operations of each object, by their names.

ghost use Rattle.std.specs.Prelude.{◌≡◌};
ghost use Rattle.td_ops.specs.Operations.{attribute_shape, name_of, row};
ghost use Rattle.td_ops.specs.Registers.{register_row};
ghost use Rattle.td_ops.specs.Links.{link_row};
ghost use Rattle.td_ops.specs.Proxies.{proxy_row};
ghost use Rattle.td_ops.specs.Administration.{admin_row};
ghost use Rattle.td_ops.specs.Iterators.{iterator_row};
ghost use Rattle.td_ops.specs.Types.{types_row};

use crate::attribute::{
    Attribute, FollowAttribute, NumberAttribute, TruthAttribute, follow_setting_name,
    number_setting_name, reading_name, truth_setting_name,
};
use crate::shape::Shape;
use std::alloc::Global;
use td_cdr::{Memory, Named, Twin};

/// An operation of an object, by the interface that declares it.
#[derive(Clone, Copy, PartialEq, Eq)]
pub enum Operation {
    Query,
    Register(RegisterOperation),
    Link(LinkOperation),
    Proxy(ProxyOperation),
    Admin(AdminOperation),
    Iterator(IteratorOperation),
    Types(TypesOperation),
    /// An attribute is read.
    Get(Attribute),
    /// An attribute of Admin is set.
    SetTruth(TruthAttribute),
    SetNumber(NumberAttribute),
    SetFollow(FollowAttribute),
    SetRequestIdStem,
    IsA,
    NonExistent,
}

/// The operations of the interface Register.
#[derive(Clone, Copy, PartialEq, Eq)]
pub enum RegisterOperation {
    Export,
    Withdraw,
    Describe,
    Modify,
    WithdrawUsingConstraint,
    Resolve,
}

/// The operations of the interface Link.
#[derive(Clone, Copy, PartialEq, Eq)]
pub enum LinkOperation {
    AddLink,
    RemoveLink,
    DescribeLink,
    ListLinks,
    ModifyLink,
}

/// The operations of the interface Proxy.
#[derive(Clone, Copy, PartialEq, Eq)]
pub enum ProxyOperation {
    ExportProxy,
    WithdrawProxy,
    DescribeProxy,
}

/// The operations of the interface Admin, but for its attributes.
#[derive(Clone, Copy, PartialEq, Eq)]
pub enum AdminOperation {
    ListOffers,
    ListProxies,
    SetTypeRepos,
}

/// The operations of the interface OfferIterator and OfferIdIterator.
#[derive(Clone, Copy, PartialEq, Eq)]
pub enum IteratorOperation {
    MaxLeft,
    NextN,
    Destroy,
}

/// The operations of the interface ServiceTypeRepository, but for its attribute.
#[derive(Clone, Copy, PartialEq, Eq)]
pub enum TypesOperation {
    AddType,
    RemoveType,
    ListTypes,
    DescribeType,
    FullyDescribeType,
    MaskType,
    UnmaskType,
}

/// How an operation is declared: the name that a request has, and the shape of the result.
#[derive(Clone, Copy)]
pub(crate) struct Declaration {
    pub name: &'static str,
    pub shape: Shape,
}

/// The declaration of an operation. Takes no memory.
fn declaration_of(operation: Operation) -> Declaration
    ensures name { result.name.now ≡ name_of operation }
    ensures shape { result.shape ≡ (row operation).result }
{
    match operation {
        Operation::Query => Declaration {
            name: "query",
            shape: Shape::Found,
        },
        Operation::Register(register) => register_declaration(register),
        Operation::Link(link) => link_declaration(link),
        Operation::Proxy(proxy) => proxy_declaration(proxy),
        Operation::Admin(admin) => admin_declaration(admin),
        Operation::Iterator(iterator) => iterator_declaration(iterator),
        Operation::Types(types) => types_declaration(types),
        Operation::Get(attribute) => Declaration {
            name: reading_name(attribute),
            shape: attribute_shape(attribute),
        },
        Operation::SetTruth(attribute) => Declaration {
            name: truth_setting_name(attribute),
            shape: Shape::Truth,
        },
        Operation::SetNumber(attribute) => Declaration {
            name: number_setting_name(attribute),
            shape: Shape::Number,
        },
        Operation::SetFollow(attribute) => Declaration {
            name: follow_setting_name(attribute),
            shape: Shape::Follow,
        },
        Operation::SetRequestIdStem => Declaration {
            name: "set_request_id_stem",
            shape: Shape::Stem,
        },
        Operation::IsA => Declaration {
            name: "_is_a",
            shape: Shape::Truth,
        },
        Operation::NonExistent => Declaration {
            name: "_non_existent",
            shape: Shape::Truth,
        },
    }
}

/// The name of an operation, as a client writes it. Takes no memory.
pub(crate) fn operation_name(operation: Operation) -> &'static str
    ensures { result.now ≡ name_of operation }
{
    declaration_of(operation).name
}

/// The shape of an operation's result.
pub(crate) fn result_shape(operation: Operation) -> Shape
    ensures { result ≡ (row operation).result }
{
    declaration_of(operation).shape
}

/// The shape of an attribute's value.
fn attribute_shape(attribute: Attribute) -> Shape
    ensures { result ≡ attribute_shape attribute }
{
    match attribute {
        Attribute::Reference(_) => Shape::Reference,
        Attribute::Truth(_) => Shape::Truth,
        Attribute::Number(_) => Shape::Number,
        Attribute::Follow(_) => Shape::Follow,
        Attribute::RequestIdStem => Shape::Stem,
        Attribute::Incarnation => Shape::Incarnation,
    }
}

fn register_declaration(operation: RegisterOperation) -> Declaration
    ensures name { result.name.now ≡ (register_row operation).name }
    ensures shape { result.shape ≡ (register_row operation).result }
{
    match operation {
        RegisterOperation::Export => Declaration {
            name: "export",
            shape: Shape::Id,
        },
        RegisterOperation::Withdraw => Declaration {
            name: "withdraw",
            shape: Shape::Nothing,
        },
        RegisterOperation::Describe => Declaration {
            name: "describe",
            shape: Shape::Offer,
        },
        RegisterOperation::Modify => Declaration {
            name: "modify",
            shape: Shape::Nothing,
        },
        RegisterOperation::WithdrawUsingConstraint => Declaration {
            name: "withdraw_using_constraint",
            shape: Shape::Nothing,
        },
        RegisterOperation::Resolve => Declaration {
            name: "resolve",
            shape: Shape::Reference,
        },
    }
}

fn link_declaration(operation: LinkOperation) -> Declaration
    ensures name { result.name.now ≡ (link_row operation).name }
    ensures shape { result.shape ≡ (link_row operation).result }
{
    match operation {
        LinkOperation::AddLink => Declaration {
            name: "add_link",
            shape: Shape::Nothing,
        },
        LinkOperation::RemoveLink => Declaration {
            name: "remove_link",
            shape: Shape::Nothing,
        },
        LinkOperation::DescribeLink => Declaration {
            name: "describe_link",
            shape: Shape::Link,
        },
        LinkOperation::ListLinks => Declaration {
            name: "list_links",
            shape: Shape::Names,
        },
        LinkOperation::ModifyLink => Declaration {
            name: "modify_link",
            shape: Shape::Nothing,
        },
    }
}

fn proxy_declaration(operation: ProxyOperation) -> Declaration
    ensures name { result.name.now ≡ (proxy_row operation).name }
    ensures shape { result.shape ≡ (proxy_row operation).result }
{
    match operation {
        ProxyOperation::ExportProxy => Declaration {
            name: "export_proxy",
            shape: Shape::Id,
        },
        ProxyOperation::WithdrawProxy => Declaration {
            name: "withdraw_proxy",
            shape: Shape::Nothing,
        },
        ProxyOperation::DescribeProxy => Declaration {
            name: "describe_proxy",
            shape: Shape::Proxy,
        },
    }
}

fn admin_declaration(operation: AdminOperation) -> Declaration
    ensures name { result.name.now ≡ (admin_row operation).name }
    ensures shape { result.shape ≡ (admin_row operation).result }
{
    match operation {
        AdminOperation::ListOffers => Declaration {
            name: "list_offers",
            shape: Shape::Ids,
        },
        AdminOperation::ListProxies => Declaration {
            name: "list_proxies",
            shape: Shape::Ids,
        },
        AdminOperation::SetTypeRepos => Declaration {
            name: "set_type_repos",
            shape: Shape::Reference,
        },
    }
}

fn iterator_declaration(operation: IteratorOperation) -> Declaration
    ensures name { result.name.now ≡ (iterator_row operation).name }
    ensures shape { result.shape ≡ (iterator_row operation).result }
{
    match operation {
        IteratorOperation::MaxLeft => Declaration {
            name: "max_left",
            shape: Shape::Number,
        },
        IteratorOperation::NextN => Declaration {
            name: "next_n",
            shape: Shape::Batch,
        },
        IteratorOperation::Destroy => Declaration {
            name: "destroy",
            shape: Shape::Nothing,
        },
    }
}

fn types_declaration(operation: TypesOperation) -> Declaration
    ensures name { result.name.now ≡ (types_row operation).name }
    ensures shape { result.shape ≡ (types_row operation).result }
{
    match operation {
        TypesOperation::AddType => Declaration {
            name: "add_type",
            shape: Shape::Incarnation,
        },
        TypesOperation::RemoveType => Declaration {
            name: "remove_type",
            shape: Shape::Nothing,
        },
        TypesOperation::ListTypes => Declaration {
            name: "list_types",
            shape: Shape::Names,
        },
        TypesOperation::DescribeType => Declaration {
            name: "describe_type",
            shape: Shape::Typed,
        },
        TypesOperation::FullyDescribeType => Declaration {
            name: "fully_describe_type",
            shape: Shape::Typed,
        },
        TypesOperation::MaskType => Declaration {
            name: "mask_type",
            shape: Shape::Nothing,
        },
        TypesOperation::UnmaskType => Declaration {
            name: "unmask_type",
            shape: Shape::Nothing,
        },
    }
}

impl Named for Operation {
    ghost name_of = { name_of };

    fn name(self) -> &'static [u8] {
        operation_name(self).as_bytes()
    }
}
