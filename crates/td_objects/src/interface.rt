//! The interfaces of a trader's objects, by their repository ids (CORBA, chapter "ORB Interface", is_a; OMG's
//! Trading Object Service, modules CosTrading and CosTradingRepos).

ghost use Rattle.std.specs.Prelude.{◌≡◌, [], ◌∷◌};
ghost use Rattle.td_cdr.specs.Format.{value_named};
ghost use Rattle.td_objects.specs.Interfaces.{interface_id, interfaces_of, is_a};

use td_cdr::{Named, find_named};

/// An interface.
#[derive(Clone, Copy, Debug, PartialEq, Eq)]
pub enum Interface {
    /// That of every object.
    Object,
    /// The attributes that lead from each of a trader's objects to the others.
    TraderComponents,
    SupportAttributes,
    ImportAttributes,
    LinkAttributes,
    Lookup,
    Register,
    Link,
    Proxy,
    Admin,
    ServiceTypeRepository,
    OfferIterator,
    OfferIdIterator,
}

impl Named for Interface {
    ghost name_of = { interface_id };

    fn name(self) -> &'static [u8] {
        match self {
            Interface::Object => b"IDL:omg.org/CORBA/Object:1.0",
            Interface::TraderComponents => b"IDL:omg.org/CosTrading/TraderComponents:1.0",
            Interface::SupportAttributes => b"IDL:omg.org/CosTrading/SupportAttributes:1.0",
            Interface::ImportAttributes => b"IDL:omg.org/CosTrading/ImportAttributes:1.0",
            Interface::LinkAttributes => b"IDL:omg.org/CosTrading/LinkAttributes:1.0",
            Interface::Lookup => b"IDL:omg.org/CosTrading/Lookup:1.0",
            Interface::Register => b"IDL:omg.org/CosTrading/Register:1.0",
            Interface::Link => b"IDL:omg.org/CosTrading/Link:1.0",
            Interface::Proxy => b"IDL:omg.org/CosTrading/Proxy:1.0",
            Interface::Admin => b"IDL:omg.org/CosTrading/Admin:1.0",
            Interface::ServiceTypeRepository => {
                b"IDL:omg.org/CosTradingRepos/ServiceTypeRepository:1.0"
            }
            Interface::OfferIterator => b"IDL:omg.org/CosTrading/OfferIterator:1.0",
            Interface::OfferIdIterator => b"IDL:omg.org/CosTrading/OfferIdIterator:1.0",
        }
    }
}

/// Whether an object of this interface has the one of a repository id: it is its own, one that its own
/// inherits, or that of every object.
pub fn is_a(interface: Interface, id: &[u8]) -> bool
    ensures { result ≡ is_a interface id.now }
{
    among(interface, id).is_some()
}

/// The one of the interface itself, those that it inherits and that of every object that has this id.
fn among(interface: Interface, id: &[u8]) -> Option<Interface>
    ensures { result ≡ value_named interface_id (interfaces_of interface) id.now }
{
    match interface {
        Interface::Lookup => find_named(
            &[
                Interface::Lookup,
                Interface::TraderComponents,
                Interface::SupportAttributes,
                Interface::ImportAttributes,
                Interface::Object,
            ],
            id,
        ),
        Interface::Register => find_named(
            &[
                Interface::Register,
                Interface::TraderComponents,
                Interface::SupportAttributes,
                Interface::Object,
            ],
            id,
        ),
        Interface::Link => find_named(
            &[
                Interface::Link,
                Interface::TraderComponents,
                Interface::SupportAttributes,
                Interface::LinkAttributes,
                Interface::Object,
            ],
            id,
        ),
        Interface::Proxy => find_named(
            &[
                Interface::Proxy,
                Interface::TraderComponents,
                Interface::SupportAttributes,
                Interface::Object,
            ],
            id,
        ),
        Interface::Admin => find_named(
            &[
                Interface::Admin,
                Interface::TraderComponents,
                Interface::SupportAttributes,
                Interface::ImportAttributes,
                Interface::LinkAttributes,
                Interface::Object,
            ],
            id,
        ),
        Interface::Object => alone(Interface::Object, id),
        Interface::TraderComponents => alone(Interface::TraderComponents, id),
        Interface::SupportAttributes => alone(Interface::SupportAttributes, id),
        Interface::ImportAttributes => alone(Interface::ImportAttributes, id),
        Interface::LinkAttributes => alone(Interface::LinkAttributes, id),
        Interface::ServiceTypeRepository => alone(Interface::ServiceTypeRepository, id),
        Interface::OfferIterator => alone(Interface::OfferIterator, id),
        Interface::OfferIdIterator => alone(Interface::OfferIdIterator, id),
    }
}

/// This one and that of every object.
fn alone(interface: Interface, id: &[u8]) -> Option<Interface>
    ensures { result ≡ value_named interface_id (interface ∷ Interface.Object ∷ []) id.now }
{
    find_named(&[interface, Interface::Object], id)
}
