//! Offers that are exported: each refusal once, in the order in which they are tried.

use crate::lines::{NEW, Start, follows};
use std::test::Fail;

/// The types Printer and Masked, which is masked.
pub const TYPED: &str = "add_type Printer;IDL:Printer:1.0;Cost Serial Note => incarnation 1
add_type Masked;IDL:Printer:1.0;Cost Serial Note => incarnation 2
mask_type Masked => done";

/// What is refused has besides something that is refused later.
const CALLS: &str = "export ;; => /Register/InvalidObjectRef:1.0
export IDL:Printer:1.0;; => /IllegalServiceType:1.0
export IDL:Other:1.0;Nothing; => /UnknownServiceType:1.0
export IDL:Other:1.0;Masked; => /UnknownServiceType:1.0
export IDL:Other:1.0;Printer;1 => /Register/InterfaceTypeMismatch:1.0
export IDL:Printer:1.0;Printer;1 1 => /IllegalPropertyName:1.0
export IDL:Printer:1.0;Printer;Note Note text-Cost => /DuplicatePropertyName:1.0
export IDL:Printer:1.0;Printer;text-Serial dynamic-Serial => /PropertyTypeMismatch:1.0
export IDL:Printer:1.0;Printer;dynamic-Serial => /ReadonlyDynamicProperty:1.0
export IDL:Printer:1.0;Printer;Cost dynamic-Note Other => id 1";

#[test]
fn causes_are_tried_in_order(rt: HostRuntime) -> Result<(), Fail> {
    let start = Start {
        lines: TYPED,
        ..NEW
    };
    follows(&rt, rt.alloc(), start, CALLS)
}

/// A trader that gave its last number; it has no dynamic properties.
const LAST: Start = Start {
    last_offer: u32::MAX,
    lines: "add_type Printer;IDL:Printer:1.0;Cost Serial Note => incarnation 1
set_supports_dynamic_properties FALSE => TRUE",
    ..NEW
};

const LAST_CALLS: &str = "export IDL:Printer:1.0;Printer;dynamic-Other => /PropertyTypeMismatch:1.0
export IDL:Printer:1.0;Printer;Serial => /MissingMandatoryProperty:1.0
export IDL:Printer:1.0;Printer;Cost => IMP_LIMIT";

#[test]
fn limits_are_tried_last(rt: HostRuntime) -> Result<(), Fail> {
    follows(&rt, rt.alloc(), LAST, LAST_CALLS)
}
