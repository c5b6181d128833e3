//! Offers that are modified: each refusal once, in the order in which they are tried.

use crate::lines::{NEW, Start, follows};
use std::test::Fail;

/// The offer 1 has Cost, Serial and Note; the offer 2 is a proxy offer.
const OFFERED: Start = Start {
    lines: "add_type Printer;IDL:Printer:1.0;Cost Serial Note => incarnation 1
export IDL:Printer:1.0;Printer;Cost Serial Note => id 1
export_proxy @IDL:Printer:1.0;Printer;Cost Serial Note;TRUE;$*; => id 2",
    ..NEW
};

/// What is refused has besides something that is refused later, and changes nothing.
const CALLS: &str = "modify 01;1; => /IllegalOfferId:1.0
describe 1 => offer Printer;Cost Serial Note
modify 3;1; => /UnknownOfferId:1.0
describe 1 => offer Printer;Cost Serial Note
modify 2;1; => /Register/ProxyOfferId:1.0
describe 1 => offer Printer;Cost Serial Note
modify 1;1 Room; => /IllegalPropertyName:1.0
describe 1 => offer Printer;Cost Serial Note
modify 1;Note Note Room; => /DuplicatePropertyName:1.0
describe 1 => offer Printer;Cost Serial Note
modify 1;Room Cost; => /Register/UnknownPropertyName:1.0
describe 1 => offer Printer;Cost Serial Note
modify 1;Cost Serial;1 => /Register/MandatoryProperty:1.0
describe 1 => offer Printer;Cost Serial Note
modify 1;Serial;1 => /Register/ReadonlyProperty:1.0
describe 1 => offer Printer;Cost Serial Note
modify 1;Note;1 Note => /IllegalPropertyName:1.0
describe 1 => offer Printer;Cost Serial Note
modify 1;Note;Cost Note 1 => /DuplicatePropertyName:1.0
describe 1 => offer Printer;Cost Serial Note
modify 1;;text-Cost dynamic-Serial => /PropertyTypeMismatch:1.0
describe 1 => offer Printer;Cost Serial Note
modify 1;;dynamic-Serial Serial => /ReadonlyDynamicProperty:1.0
describe 1 => offer Printer;Cost Serial Note
modify 1;;Cost Room Serial => /Register/ReadonlyProperty:1.0
describe 1 => offer Printer;Cost Serial Note
modify 1;Note;Cost Room => done
describe 1 => offer Printer;Cost Serial Room";

#[test]
fn causes_are_tried_in_order(rt: HostRuntime) -> Result<(), Fail> {
    follows(&rt, rt.alloc(), OFFERED, CALLS)
}

const FIXED: &str = "set_supports_modifiable_properties FALSE => TRUE
modify 01;; => /NotImplemented:1.0
describe 1 => offer Printer;Cost Serial Note";

#[test]
fn a_trader_without_modify(rt: HostRuntime) -> Result<(), Fail> {
    follows(&rt, rt.alloc(), OFFERED, FIXED)
}

/// With 254 more there are 257.
const MANY: &str = "modify 1;;P*254 => IMP_LIMIT
describe 1 => offer Printer;Cost Serial Note";

#[test]
fn more_than_256_properties(rt: HostRuntime) -> Result<(), Fail> {
    follows(&rt, rt.alloc(), OFFERED, MANY)
}
