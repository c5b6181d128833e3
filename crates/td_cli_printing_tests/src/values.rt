//! What is read in the forms of a server's file is printed in the same form.

use std::alloc::Global;
use std::slice;
use td_cdr::{List, Memory, Shared, Text};
use td_cli_printing::put_found;
use td_forms::{ValueType, code_of, value_of, value_type_of};
use td_value::{Any, Ior, Offer, Property};

/// Types, and texts that spell a value of the type.
const SPELLED: &str = "short -32768
short 32767
long -2147483648
ushort 65535
ulong 4294967295
longlong -9223372036854775808
longlong 0
ulonglong 18446744073709551615
octet 255
char x
boolean TRUE
boolean FALSE
string 
string a b,c
seq:short 1,-2,3
seq:long 
seq:string ,
seq:boolean TRUE,FALSE
seq:char a,b
seq:ulonglong 7";

/// The front of what is printed of an offer whose reference is nil, with the property X.
const FRONT: &str = "offer IOR:00000000000000010000000000000000\n  X ";

/// The end: no limits, and one offer.
const END: &str = "\nlimits\ntotal 1\n";

/// The property X with the value that a text spells.
fn property(alloc: Global, value_type: ValueType, text: &[u8]) -> Result<Option<Property>, Memory> {
    let name = Text::from_slice(alloc, b"X")?;
    let code = code_of(alloc, value_type)?;
    match value_of(alloc, value_type, text) {
        Ok(Some(value)) => Ok(Some(Property {
            name,
            value: Any { code, value },
        })),
        Ok(None) => Ok(None),
        Err(memory) => Err(memory),
    }
}

/// An offer with this property; its reference is nil.
fn offer(alloc: Global, property: Property) -> Result<Offer, Memory> {
    let mut properties = List::new(alloc);
    properties.push(property)?;
    let reference = Ior {
        id: Text::new(alloc),
        profiles: List::new(alloc),
    };
    let reference = Shared::new(alloc, reference)?;
    let properties = Shared::new(alloc, properties)?;
    Ok(Offer {
        reference,
        properties,
    })
}

/// What stands between the front and the end.
fn inside(printed: &[u8]) -> Option<&[u8]> {
    printed
        .strip_prefix(FRONT.as_bytes())?
        .strip_suffix(END.as_bytes())
}

/// Whether this is printed of the property of an offer.
fn shows(alloc: Global, offer: &Offer, line: &str) -> bool {
    let mut out = Vec::new(alloc);
    match put_found(alloc, &mut out, slice::from_ref(offer), &[]) {
        Ok(()) => inside(out.as_slice()) == Some(line.as_bytes()),
        Err(_) => false,
    }
}

/// Whether this is printed of an offer with the property.
fn is_line_of(alloc: Global, property: Property, line: &str) -> bool {
    match offer(alloc, property) {
        Ok(offer) => {
            let passed = shows(alloc, &offer, line);
            drop(offer);
            passed
        }
        Err(_) => false,
    }
}

/// Whether the type and the text are printed as they stand.
fn is_printed(alloc: Global, line: &str) -> bool {
    let Some((word, text)) = line.split_once(" ") else {
        return false;
    };
    let Some(value_type) = value_type_of(word.as_bytes()) else {
        return false;
    };
    match property(alloc, value_type, text.as_bytes()) {
        Ok(Some(property)) => is_line_of(alloc, property, line),
        _ => false,
    }
}

#[test]
fn values_are_printed_as_they_are_written(rt: HostRuntime) {
    let alloc = rt.alloc();
    for line in SPELLED.lines() {
        assert!(rt; is_printed(alloc, line), "{line}");
    }
}
