//! Spellings that were worked out from the rules of CORBA's chapters by another program.

use crate::forms::spelled::{are_copied, are_refused, are_spelled, line_of, whole};
use std::alloc::Global;
use td_cdr::{Boxed, List, Memory, Order, Reader, Text, ValueFault, Writer};
use td_value::*;

/// Values of each type: the order and the bytes.
const FOLLOW_OPTION: &str = "big 00000000
little 00000000
big 00000001
little 01000000
big 00000002
little 02000000";

const HOW_MANY_PROPS: &str = "big 00000000
little 00000000
big 00000001
little 01000000
big 00000002
little 02000000";

const PROPERTY_MODE: &str = "big 00000000
little 00000000
big 00000001
little 01000000
big 00000002
little 02000000
big 00000003
little 03000000";

const LIST_OPTION: &str = "big 00000000
little 00000000
big 00000001
little 01000000";

const INCARNATION_NUMBER: &str = "big 00000001fffffffe
little 01000000feffffff";

const PROPERTY: &str = "big 00000005436f7374000000000000000300000005
little 05000000436f7374000000000300000005000000
big 0000000100000000000000120000000000000003616200
little 0100000000000000120000000000000003000000616200";

const POLICY: &str = "big 0000000a686f705f636f756e740000000000000500000003
little 0a000000686f705f636f756e740000000500000003000000";

const PROP_STRUCT: &str = "big 00000005436f7374000000000000000300000002
little 05000000436f7374000000000300000002000000
big 000000054c69737400000000000000130000000c00000000000000180000000700000000
little 050000004c69737400000000130000000c00000001000000180000000700000000000000";

const OFFER: &str = "big 00000001000000000000000000000000
little 01000000000000000000000000000000
big 0000000a49444c3a503a312e3000000000000001000000000000000500010203040000000000000200000005436f73740000000000000003000000050000000100000000000000120000000000000003616200
little 0a00000049444c3a503a312e3000000001000000000000000500000000010203040000000200000005000000436f73740000000003000000050000000100000000000000120000000000000003000000616200
big 0000000100000000000000000000000100000005436f737400000000000000130000000c0000000000000005000000000000000100000007";

const OFFER_INFO: &str =
    "big 0000000a49444c3a503a312e300000000000000100000000000000050001020304000000000000085072696e746572000000000200000005436f73740000000000000003000000050000000100000000000000120000000000000003616200
little 0a00000049444c3a503a312e300000000100000000000000050000000001020304000000080000005072696e746572000200000005000000436f73740000000003000000050000000100000000000000120000000000000003000000616200";

const LINK_INFO: &str =
    "big 0000000a49444c3a503a312e3000000000000001000000000000000500010203040000000000000100000000000000000000000000000002
little 0a00000049444c3a503a312e3000000001000000000000000500000000010203040000000100000000000000000000000000000002000000
big 0000000100000000000000000000000a49444c3a503a312e3000000000000001000000000000000500010203040000000000000100000001
little 0100000000000000000000000a00000049444c3a503a312e3000000001000000000000000500000000010203040000000100000001000000";

const PROXY_INFO: &str =
    "big 000000085072696e746572000000000a49444c3a503a312e3000000000000001000000000000000500010203040000000000000100000005436f73740000000000000003000000050100000000000003242a0000000000010000000a686f705f636f756e740000000000000500000003
little 080000005072696e746572000a00000049444c3a503a312e3000000001000000000000000500000000010203040000000100000005000000436f73740000000003000000050000000100000003000000242a0000010000000a000000686f705f636f756e740000000500000003000000
big 00000001000000000000000100000000000000000000000000000000000000010000000000000000
little 01000000000000000100000000000000000000000000000000000000010000000000000000000000";

const TYPE_STRUCT: &str =
    "big 0000000a49444c3a503a312e300000000000000200000005436f7374000000000000000300000002000000054c69737400000000000000130000000c0000000000000018000000070000000000000002000000074465766963650000000000054974656d000100000000000000000009
little 0a00000049444c3a503a312e300000000200000005000000436f7374000000000300000002000000050000004c69737400000000130000000c0000000100000018000000070000000000000002000000070000004465766963650000050000004974656d000100000000000009000000";

const DYNAMIC_PROP: &str =
    "big 0000000a49444c3a503a312e3000000000000001000000000000000500010203040000000000000300000001
little 0a00000049444c3a503a312e3000000001000000000000000500000000010203040000000300000001000000
big 000000010000000000000000000000130000000c0000000000000018000000070000001200000000000000027800
little 010000000000000000000000130000000c0000000100000018000000070000001200000000000000020000007800";

const SPECIFIED_PROPS: &str = "big 00000000
little 00000000
big 0000000100000002000000026100000000000003626300
little 0100000002000000020000006100000003000000626300
big 0000000100000000
little 0100000000000000
big 00000002
little 02000000";

const SPECIFIED_SERVICE_TYPES: &str = "big 00000000
little 00000000
big 000000010000000300000004
little 010000000300000004000000";

fn are_enumerations(alloc: Global) -> bool {
    are_spelled::<FollowOption>(alloc, FOLLOW_OPTION)
        && are_spelled::<HowManyProps>(alloc, HOW_MANY_PROPS)
        && are_copied::<PropertyMode>(alloc, PROPERTY_MODE)
        && are_spelled::<ListOption>(alloc, LIST_OPTION)
        && are_copied::<SpecifiedProps>(alloc, SPECIFIED_PROPS)
        && are_copied::<SpecifiedServiceTypes>(alloc, SPECIFIED_SERVICE_TYPES)
}

fn are_structures(alloc: Global) -> bool {
    are_copied::<IncarnationNumber>(alloc, INCARNATION_NUMBER)
        && are_copied::<Property>(alloc, PROPERTY)
        && are_copied::<Policy>(alloc, POLICY)
        && are_copied::<PropStruct>(alloc, PROP_STRUCT)
        && are_copied::<Offer>(alloc, OFFER)
        && are_spelled::<OfferInfo>(alloc, OFFER_INFO)
        && are_spelled::<LinkInfo>(alloc, LINK_INFO)
        && are_spelled::<ProxyInfo>(alloc, PROXY_INFO)
        && are_spelled::<TypeStruct>(alloc, TYPE_STRUCT)
        && are_spelled::<DynamicProp>(alloc, DYNAMIC_PROP)
}

fn are_faults(alloc: Global) -> bool {
    are_refused::<FollowOption>(alloc, "BadValue 0 00000003")
        && are_refused::<HowManyProps>(alloc, "BadValue 0 00000003")
        && are_refused::<PropertyMode>(alloc, "BadValue 0 00000004")
        && are_refused::<ListOption>(alloc, "BadValue 0 00000002")
        && are_refused::<SpecifiedProps>(alloc, "BadValue 0 00000007")
        && are_refused::<IncarnationNumber>(alloc, "Short 4 000000010000")
        && are_refused::<SpecifiedServiceTypes>(alloc, "Short 4 00000001000000")
}

#[test]
fn values_of_each_type(rt: HostRuntime) {
    let alloc = rt.alloc();
    assert!(rt; are_enumerations(alloc));
    assert!(rt; are_structures(alloc));
    assert!(rt; are_faults(alloc));
}

/// A reference with neither a type nor a profile.
fn nil(alloc: Global) -> Ior {
    Ior {
        id: Text::new(alloc),
        profiles: List::new(alloc),
    }
}

/// The size of an offer of nothing.
fn size_of_none(alloc: Global) -> Result<usize, Memory> {
    let none = List::<Property>::new(alloc);
    offer_size(alloc, &nil(alloc), &none)
}

fn size_of(alloc: Global, offer: &Offer) -> Result<usize, Memory> {
    offer_size(alloc, &offer.reference, &offer.properties)
}

/// Whether the offer that fills the bytes has as many as its size tells.
fn is_sized(alloc: Global, bytes: &[u8], order: Order) -> Result<bool, ValueFault> {
    match whole::<Offer>(alloc, bytes, order)? {
        Some(offer) => Ok(size_of(alloc, offer.get())? == bytes.len()),
        None => Ok(false),
    }
}

fn is_line_sized(alloc: Global, line: &str) -> Option<bool> {
    let (order, bytes) = line_of(alloc, line)?;
    is_sized(alloc, bytes.as_slice(), order).ok()
}

/// The size of the type that fills the bytes.
fn size_of_type(alloc: Global, bytes: &[u8], order: Order) -> Result<Option<usize>, ValueFault> {
    match whole::<TypeStruct>(alloc, bytes, order)? {
        Some(described) => Ok(Some(type_struct_size(alloc, described.get())?)),
        None => Ok(None),
    }
}

/// The size of the type of the first line.
fn size_of_first_type(alloc: Global) -> Option<usize> {
    let (order, bytes) = line_of(alloc, TYPE_STRUCT.lines().next()?)?;
    size_of_type(alloc, bytes.as_slice(), order).ok()?
}

/// An any that holds a long.
const LONG: [u8; 8] = [0, 0, 0, 3, 0, 0, 0, 7];

/// Whether the any is written as the bytes of a long, and its size is told.
fn is_long(alloc: Global, any: &Any) -> Result<bool, ValueFault> {
    let mut writer = Writer::new(alloc, Order::Big);
    write_any(alloc, &mut writer, any)?;
    Ok(writer.bytes() == LONG.as_slice() && any_size(alloc, any)? == 8)
}

fn is_long_read(alloc: Global) -> Result<bool, ValueFault> {
    let mut reader = Reader::new(&LONG, 0, Order::Big);
    let any = Boxed::new(alloc, read_any(alloc, &mut reader)?)?;
    is_long(alloc, any.get())
}

#[test]
fn sizes(rt: HostRuntime) {
    let alloc = rt.alloc();
    assert!(rt; size_of_none(alloc) == Ok(16));
    assert!(rt; size_of_first_type(alloc) == Some(112));
    assert!(rt; is_long_read(alloc) == Ok(true));
    for line in OFFER.lines() {
        assert!(rt; is_line_sized(alloc, line) == Some(true), "{line}");
    }
}
