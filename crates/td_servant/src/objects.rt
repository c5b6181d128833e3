//! The objects that a connection reaches.

ghost use Rattle.std.specs.Prelude.{◌≡◌, ◌<◌, length, IfSome, option_map};
ghost use Rattle.td_iter.specs.Desks.{item_of};
ghost use Rattle.td_servant.specs.Objects.{IsNamed, interface_of, iterator_interface, object_at, object_keyed};
ghost use Rattle.td_servant.specs.Objects.{key_with, object_of};

use td_cdr::Text;
use td_ior::{Kind, key_parts};
use td_iter::{Desk, Item};
use td_objects::Interface;
use td_targets::place_of;
use td_trader::Traders;

/// An object: which one of the trader of this number, and its own interface.
#[derive(Clone, Copy)]
pub struct Object {
    pub trader: usize,
    pub kind: Kind,
    pub interface: Interface,
}

/// The live object that these octets are the key of. The desk stays as it is. Takes no memory.
pub fn find_object<T: Traders>(traders: &T, desk: &mut Desk, key: &[u8]) -> Option<Object>
    ensures found { result ≡ object_at (T.world traders.now) desk.old key.now }
    ensures named { IfSome result (λ x. IsNamed (T.world traders.now) x.trader) }
    ensures same { desk.new ≡ desk.old }
{
    match key_parts(key) {
        Some((name, kind)) => object_keyed(traders, desk, name, kind),
        None => None,
    }
}

/// The object of a kind that the trader of a name has.
fn object_keyed<T: Traders>(traders: &T, desk: &mut Desk, name: &[u8], kind: Kind) -> Option<Object>
    ensures found { result ≡ object_keyed (T.world traders.now) desk.old (key_with name.now kind) }
    ensures same { desk.new ≡ desk.old }
{
    match place_of(traders, name) {
        Some(trader) => object_of(traders, desk, trader, kind),
        None => None,
    }
}

/// The object of a kind that a trader has.
fn object_of<T: Traders>(traders: &T, desk: &mut Desk, trader: usize, kind: Kind) -> Option<Object>
    requires { trader < length (T.world traders.now) }
    ensures found { result ≡ object_of (T.world traders.now) desk.old trader kind }
    ensures same { desk.new ≡ desk.old }
{
    match interface_of(traders.name(trader), desk, kind) {
        Some(interface) => Some(Object {
            trader,
            kind,
            interface,
        }),
        None => None,
    }
}

/// The interface of the object of a kind that the trader of a name has.
fn interface_of(name: &Text, desk: &mut Desk, kind: Kind) -> Option<Interface>
    ensures found { result ≡ interface_of name.now desk.old kind }
    ensures same { desk.new ≡ desk.old }
{
    match kind {
        Kind::Lookup => Some(Interface::Lookup),
        Kind::Register => Some(Interface::Register),
        Kind::Link => Some(Interface::Link),
        Kind::Proxy => Some(Interface::Proxy),
        Kind::Admin => Some(Interface::Admin),
        Kind::Types => Some(Interface::ServiceTypeRepository),
        Kind::Iterator(number) => iterator_interface(name, desk, number),
    }
}

/// The interface of the iterator of this trader and number, where the connection keeps it.
#[tactic(auto, using(crate::proofs::Keeping::item_kept))]
fn iterator_interface(name: &Text, desk: &mut Desk, number: u64) -> Option<Interface>
    ensures found { result ≡ option_map iterator_interface (item_of name.now number desk.old) }
    ensures same { desk.new ≡ desk.old }
{
    match desk.get_mut(name, number) {
        Some(item) => Some(interface_over(item)),
        None => None,
    }
}

fn interface_over(item: &Item) -> Interface
    ensures { result ≡ iterator_interface item.now }
{
    match item {
        Item::Offers(_) => Interface::OfferIterator,
        Item::Ids(_) => Interface::OfferIdIterator,
    }
}
