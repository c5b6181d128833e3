//! Keys by the table of the server's objects, and references that were put together by another program
//! from the layouts of CORBA's chapters.

ghost use Rattle.std.specs.Prelude.{◌≤◌};

use std::alloc::Global;
use td_ior::{
    IorFault, Kind, ObjectKey, has_iiop, iiop_of, make_ior, print_text, read_key, read_text,
    write_key,
};
use td_value::{Ior, Profile};

/// The object of the trader `A-1`, or the number of an iterator, and the octets of its key; of `none` they are no key.
const KEYS: &str = "Lookup A-1/L
Register A-1/R
Link A-1/K
Proxy A-1/P
Admin A-1/A
Types A-1/T
1 A-1/I/1
10 A-1/I/10
18446744073709551615 A-1/I/18446744073709551615
none A-1/I/18446744073709551616
none A-1/I/0
none A-1/I/01
none A-1/I/+1
none A-1/I/
none A-1/I
none A-1/l
none A-1/LL
none A-1/
none A-1
none /L
none A 1/L
none A-1//L
none A12345678901234567890123456789012/L
none ";

/// The object that a word names, or an iterator by its number.
fn kind_of(word: &str) -> Option<Kind> {
    match word {
        "Lookup" => Some(Kind::Lookup),
        "Register" => Some(Kind::Register),
        "Link" => Some(Kind::Link),
        "Proxy" => Some(Kind::Proxy),
        "Admin" => Some(Kind::Admin),
        "Types" => Some(Kind::Types),
        _ => match word.parse::<u64>() {
            Ok(number) => Some(Kind::Iterator(number)),
            Err(_) => None,
        },
    }
}

/// Whether the key is written with these octets.
fn writes_key(alloc: Global, key: &ObjectKey, octets: &[u8]) -> bool {
    match write_key(alloc, key) {
        Ok(written) => written.as_slice() == octets,
        Err(_) => false,
    }
}

/// Whether the key is that of an object of this kind of the trader, and is written with these octets.
fn is_key(alloc: Global, key: &ObjectKey, kind: Option<Kind>, octets: &[u8]) -> bool {
    key.trader.as_slice() == b"A-1".as_slice()
        && kind == Some(key.kind)
        && writes_key(alloc, key, octets)
}

/// Whether the octets are the key of such an object, or of none.
fn reads_key(alloc: Global, octets: &[u8], kind: Option<Kind>) -> bool {
    match read_key(alloc, octets) {
        Ok(key) => {
            let good = is_key(alloc, &key, kind, octets);
            drop(key);
            good
        }
        Err(fault) => kind.is_none() && fault == IorFault::BadKey,
    }
}

fn is_line_key(alloc: Global, line: &str) -> Option<bool> {
    let (word, octets) = line.split_once(' ')?;
    Some(reads_key(alloc, octets.as_bytes(), kind_of(word)))
}

/// The reference of the worked queries.
const WORKED: &[u8] =
    b"IOR:000000000000001049444c3a5072696e7465723a312e3000000000010000000000000012000100000000000268000009000000027031";

/// The same of IIOP 1.1, which has a count of components behind the key.
const NEWER: &[u8] =
    b"IOR:000000000000001049444c3a5072696e7465723a312e3000000000010000000000000018000101000000000268000009000000027031000000000000";

/// One of IIOP 1.1 with two components: of tag 0 with four octets, and of tag 1 with none.
const TWO: &[u8] =
    b"IOR:000000000000001049444c3a5072696e7465723a312e300000000001000000000000002c000101000000000268000009000000027031000000000002000000000000000454414f000000000100000000";

/// A text, and the first IIOP profile of the reference that it spells: its components are told by their number.
struct Profiled {
    text: &'static [u8],
    host: &'static [u8],
    port: u16,
    key: &'static [u8],
    minor: u8,
    components: usize,
}

/// Texts in both forms. The last six are profiles of IIOP 1.1 and 1.2 with components, with bytes that are none, and
/// with nothing behind the key, and one of IIOP 1.0, whose bytes behind the key are no components.
const PROFILED: [Profiled; 15] = [
    Profiled {
        text: WORKED,
        host: b"h",
        port: 9,
        key: b"p1",
        minor: 0,
        components: 0,
    },
    Profiled {
        text: b"IOR:000000000000001049444C3A5072696E7465723A312E3000000000010000000000000012000100000000000268000009000000027031FF",
        host: b"h",
        port: 9,
        key: b"p1",
        minor: 0,
        components: 0,
    },
    Profiled {
        text: b"IOR:010000000a00000049444c3a413a312e30000000030000000100000002000000000100000000000034000000010102000a0000003132372e302e302e3100259706000000412f492f313200000100000000000000080000000100000054414f000000000012000000000100000000000268000009000000027031",
        host: b"127.0.0.1",
        port: 38693,
        key: b"A/I/12",
        minor: 2,
        components: 1,
    },
    Profiled {
        text: b"IOR:000000000000000a49444c3a413a312e300000000000000249534f00000000000000000000000030000101000000000d686f73742e6578616d706c650000ffff000000000000000100000001000000080000000000010001",
        host: b"host.example",
        port: 65535,
        key: b"",
        minor: 1,
        components: 1,
    },
    Profiled {
        text: b"IOR:000000000000000a49444c3a413a312e30000000000000020000000000000011000200000000000268000009000000016b0000000000000000000012000100000000000268000009000000027031",
        host: b"h",
        port: 9,
        key: b"p1",
        minor: 0,
        components: 0,
    },
    Profiled {
        text: b"ref:IDL:Printer:1.0,h,9,p1",
        host: b"h",
        port: 9,
        key: b"p1",
        minor: 0,
        components: 0,
    },
    Profiled {
        text: b"ref:a,b,h,0,\x00",
        host: b"h",
        port: 0,
        key: b"\x00",
        minor: 0,
        components: 0,
    },
    Profiled {
        text: b"ref:,,65535,",
        host: b"",
        port: 65535,
        key: b"",
        minor: 0,
        components: 0,
    },
    Profiled {
        text: b"ref:IOR:,h,1,k",
        host: b"h",
        port: 1,
        key: b"k",
        minor: 0,
        components: 0,
    },
    Profiled {
        text: NEWER,
        host: b"h",
        port: 9,
        key: b"p1",
        minor: 1,
        components: 0,
    },
    Profiled {
        text: TWO,
        host: b"h",
        port: 9,
        key: b"p1",
        minor: 1,
        components: 2,
    },
    Profiled {
        text: b"IOR:000000000000001049444c3a5072696e7465723a312e30000000000100000000000000220001010000000002680000090000000270310000000000010000000500000000ffff",
        host: b"h",
        port: 9,
        key: b"p1",
        minor: 1,
        components: 1,
    },
    Profiled {
        text: b"IOR:000000000000001049444c3a5072696e7465723a312e300000000001000000000000001c000102000000000268000009000000027031000000000003ffffffff",
        host: b"h",
        port: 9,
        key: b"p1",
        minor: 2,
        components: 0,
    },
    Profiled {
        text: b"IOR:000000000000001049444c3a5072696e7465723a312e3000000000010000000000000012000101000000000268000009000000027031",
        host: b"h",
        port: 9,
        key: b"p1",
        minor: 1,
        components: 0,
    },
    Profiled {
        text: b"IOR:000000000000001049444c3a5072696e7465723a312e30000000000100000000000000200001000000000002680000090000000270310000000000010000000000000000",
        host: b"h",
        port: 9,
        key: b"p1",
        minor: 0,
        components: 0,
    },
];

/// Texts of references without an IIOP profile: nil, one of another major version, one that is cut, and
/// two without a body.
const WITHOUT: &str = "IOR:00000000000000010000000000000000
IOR:000000000000000a49444c3a413a312e30000000000000010000000000000011000200000000000268000009000000016b
IOR:000000000000000a49444c3a413a312e300000000000000100000000000000110001000000000002680000090000000270
IOR:000000000000000a49444c3a413a312e300000000000000200000000000000000000000000000003020100";

/// Texts in neither form, the first of them empty.
const NEITHER: &str = "
IOR:
IOR:0
IOR:00
IOR:02000000000000010000000000000000
IOR:000000000000000100000000000000
IOR:0000000000000001000000000000000g
ior:00000000000000010000000000000000
 IOR:00000000000000010000000000000000
ref:a,h,9
ref:a,h,09,k
ref:a,h,65536,k
ref:a,h,,k
ref:a,h\0,9,k
ref:a\0,h,9,k
REF:a,h,9,k";

/// Whether the first IIOP profile of the reference is the row's.
fn is_at(alloc: Global, reference: &Ior, row: &Profiled) -> bool {
    match iiop_of(alloc, reference) {
        Ok(iiop) => {
            iiop.host.as_slice() == row.host
                && iiop.port == row.port
                && iiop.key.as_slice() == row.key
                && iiop.minor == row.minor
                && iiop.components.len() == row.components
        }
        Err(_) => false,
    }
}

/// Whether the row's text spells a reference with its profile.
fn spells(alloc: Global, row: &Profiled) -> bool {
    match read_text(alloc, row.text) {
        Ok(reference) => has_iiop(&reference) && is_at(alloc, &reference, row),
        Err(_) => false,
    }
}

/// Whether the reference is printed so.
fn prints(alloc: Global, reference: &Ior, text: &[u8]) -> bool {
    match print_text(alloc, reference) {
        Ok(printed) => printed.as_slice() == text,
        Err(_) => false,
    }
}

/// Whether the text spells a reference without an IIOP profile, which is printed as it is.
fn has_no_profile(alloc: Global, text: &[u8]) -> bool {
    match read_text(alloc, text) {
        Ok(reference) => {
            !has_iiop(&reference)
                && iiop_of(alloc, &reference).err() == Some(IorFault::NoIiop)
                && prints(alloc, &reference, text)
        }
        Err(_) => false,
    }
}

/// Whether the reference that is made with this minor version is printed so.
fn is_made(alloc: Global, minor: u8, text: &[u8]) -> Result<bool, IorFault>
    requires { minor ≤ 1 }
{
    let made = make_ior(alloc, b"IDL:Printer:1.0", b"h", 9, b"p1", minor)?;
    let printed = prints(alloc, &made, text);
    drop(made);
    Ok(printed)
}

/// Whether the components of the reference's profile are those of the row with two.
fn has_both(components: &[Profile]) -> bool {
    match components {
        [first, second] => {
            first.tag == 0
                && first.octets.as_slice() == b"TAO\0".as_slice()
                && second.tag == 1
                && second.octets.as_slice().is_empty()
        }
        _ => false,
    }
}

fn tells_components(alloc: Global) -> Result<bool, IorFault> {
    let reference = read_text(alloc, TWO)?;
    let found = iiop_of(alloc, &reference);
    drop(reference);
    let iiop = found?;
    Ok(has_both(iiop.components.as_slice()))
}

/// Whether made references are those of the layouts, and the one that is read has its id and one profile.
fn is_worked(alloc: Global) -> Result<bool, IorFault> {
    let printed = is_made(alloc, 0, WORKED)? && is_made(alloc, 1, NEWER)?;
    let read = read_text(alloc, WORKED)?;
    Ok(printed && read.id.as_slice() == b"IDL:Printer:1.0".as_slice() && read.profiles.len() == 1)
}

fn is_neither(alloc: Global, text: &[u8]) -> bool {
    read_text(alloc, text).err() == Some(IorFault::NotIor)
}

#[test]
fn keys_are_read_and_written(rt: HostRuntime) {
    let alloc = rt.alloc();
    for line in KEYS.lines() {
        assert!(rt; is_line_key(alloc, line) == Some(true), "{line}");
    }
}

#[test]
fn texts_are_read(rt: HostRuntime) {
    let alloc = rt.alloc();
    for row in &PROFILED {
        assert!(rt; spells(alloc, row));
    }
}

/// Texts in neither form are no references; those without an IIOP profile are kept as they came; and a made reference
/// is that of the layouts.
#[test]
fn other_texts_and_a_made_reference(rt: HostRuntime) {
    let alloc = rt.alloc();
    for text in NEITHER.lines() {
        assert!(rt; is_neither(alloc, text.as_bytes()), "{text}");
    }
    for text in WITHOUT.lines() {
        assert!(rt; has_no_profile(alloc, text.as_bytes()), "{text}");
    }
    assert!(rt; is_worked(alloc) == Ok(true));
    assert!(rt; tells_components(alloc) == Ok(true));
}
