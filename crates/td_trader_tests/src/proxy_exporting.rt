//! Proxy offers that are exported: each refusal once, in the order in which they are tried.

use crate::exporting::TYPED;
use crate::lines::{NEW, Start, follows};
use std::test::Fail;

/// What is refused has besides something that is refused later, and exports nothing.
const CALLS: &str = "export_proxy IDL:Lookup:1.0;;;TRUE;$(;a a => /IllegalServiceType:1.0
describe_proxy 1 => /UnknownOfferId:1.0
export_proxy IDL:Lookup:1.0;Masked;;TRUE;$(;a a => /UnknownServiceType:1.0
describe_proxy 1 => /UnknownOfferId:1.0
export_proxy IDL:Lookup:1.0;Printer;;TRUE;$(;a a => /InvalidLookupRef:1.0
describe_proxy 1 => /UnknownOfferId:1.0
export_proxy @IDL:Lookup:1.0;Printer;;TRUE;$(;a a => /MissingMandatoryProperty:1.0
describe_proxy 1 => /UnknownOfferId:1.0
export_proxy @IDL:Lookup:1.0;Printer;Cost Serial;TRUE;$(;a a => /Proxy/IllegalRecipe:1.0
describe_proxy 1 => /UnknownOfferId:1.0
export_proxy @IDL:Lookup:1.0;Printer;Cost Serial;TRUE;$*;a a => /DuplicatePolicyName:1.0
describe_proxy 1 => /UnknownOfferId:1.0
export_proxy @IDL:Lookup:1.0;Printer;Cost Serial;TRUE;$*;a b => id 1
describe_proxy 1 => proxy Printer;$*";

#[test]
fn causes_are_tried_in_order(rt: HostRuntime) -> Result<(), Fail> {
    let start = Start {
        lines: TYPED,
        ..NEW
    };
    follows(&rt, rt.alloc(), start, CALLS)
}

/// A trader without proxy offers, which refuses all.
const WITHOUT: &str = "set_supports_proxy_offers FALSE => TRUE
export_proxy IDL:Lookup:1.0;;;TRUE;$(;a a => NO_IMPLEMENT
set_supports_proxy_offers TRUE => FALSE
describe_proxy 1 => /UnknownOfferId:1.0";

/// A trader that gave its last number.
const LAST: Start = Start {
    last_offer: u32::MAX,
    lines: TYPED,
    ..NEW
};

const LAST_CALL: &str = "export_proxy @IDL:Lookup:1.0;Printer;Cost Serial;TRUE;$*;a b => IMP_LIMIT
describe_proxy 1 => /UnknownOfferId:1.0";

#[test]
fn first_and_last_causes(rt: HostRuntime) -> Result<(), Fail> {
    let alloc = rt.alloc();
    follows(&rt, alloc, NEW, WITHOUT)?;
    follows(&rt, alloc, LAST, LAST_CALL)
}
