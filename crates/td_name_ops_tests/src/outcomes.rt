//! Outcomes to bytes.

use crate::lines::{body_in, bytes_of, cut};
use crate::vectors::OUTCOMES;
use std::alloc::Global;
use std::process::Abort;
use std::test::Fail;
use td_cdr::{Boxed, List, Memory, Octets, Order, Text, Writer};
use td_name_ops::{NameOutcome, NameResult, name_status, write_name_outcome};
use td_names::{MISSING_NODE, NOT_CONTEXT, NOT_OBJECT, NameBinding, NameComponent, NameException};
use td_ops::{COMPLETED_NO, SystemKind};
use td_typecode::{Ior, Profile};

fn component(alloc: Global, id: &[u8], kind: &[u8]) -> Result<NameComponent, Memory> {
    let id = Text::from_slice(alloc, id)?;
    let kind = Text::from_slice(alloc, kind)?;
    Ok(NameComponent { id, kind })
}

/// The component y, which is bound as an object.
fn object_y(alloc: Global) -> Result<NameBinding, Memory> {
    let name = component(alloc, b"y", b"")?;
    Ok(NameBinding {
        name,
        context: false,
    })
}

/// The component z.kk, which is bound as a context.
fn context_z(alloc: Global) -> Result<NameBinding, Memory> {
    let name = component(alloc, b"z", b"kk")?;
    Ok(NameBinding {
        name,
        context: true,
    })
}

fn bindings(alloc: Global) -> Result<List<NameBinding>, Memory> {
    let mut bindings = List::new(alloc);
    bindings.push(object_y(alloc)?)?;
    bindings.push(context_z(alloc)?)?;
    Ok(bindings)
}

/// The name of the components y and z.kk, or of the last or the first alone.
fn name(alloc: Global, first: bool, last: bool) -> Result<List<NameComponent>, Memory> {
    let mut name = List::new(alloc);
    if first {
        name.push(component(alloc, b"y", b"")?)?;
    }
    if last {
        name.push(component(alloc, b"z", b"kk")?)?;
    }
    Ok(name)
}

fn profile(alloc: Global, tag: u32, octets: &[u8]) -> Result<Profile, Memory> {
    let octets = Octets::from_slice(alloc, octets)?;
    Ok(Profile { tag, octets })
}

/// A reference of one profile or of two, or the nil one.
fn reference(alloc: Global, word: &str) -> Result<Ior, Memory> {
    let mut profiles = List::new(alloc);
    match word {
        "one" => profiles.push(profile(alloc, 0, &[1, 2, 3])?)?,
        "two" => {
            profiles.push(profile(alloc, 7, &[])?)?;
            profiles.push(profile(alloc, 0, &[5])?)?;
        }
        _ => (),
    }
    let id: &[u8] = if profiles.is_empty() {
        b""
    } else {
        b"IDL:X:1.0"
    };
    let id = Text::from_slice(alloc, id)?;
    Ok(Ior { id, profiles })
}

fn listed(alloc: Global) -> Result<NameResult, Memory> {
    let bindings = bindings(alloc)?;
    let iterator = reference(alloc, "one")?;
    Ok(NameResult::List { bindings, iterator })
}

fn listed_none(alloc: Global) -> Result<NameResult, Memory> {
    Ok(NameResult::List {
        bindings: List::new(alloc),
        iterator: reference(alloc, "nil")?,
    })
}

fn not_found(
    alloc: Global,
    why: u32,
    first: bool,
    last: bool,
) -> Result<Boxed<NameOutcome>, Memory> {
    let rest = name(alloc, first, last)?;
    Boxed::new(
        alloc,
        NameOutcome::User(NameException::NotFound { why, rest }),
    )
}

fn cannot_proceed(alloc: Global) -> Result<Boxed<NameOutcome>, Memory> {
    let rest = name(alloc, true, true)?;
    let context = reference(alloc, "two")?;
    Boxed::new(
        alloc,
        NameOutcome::User(NameException::CannotProceed { context, rest }),
    )
}

fn exception(alloc: Global, word: &str) -> Result<Boxed<NameOutcome>, Memory> {
    match word {
        "missing_node" => not_found(alloc, MISSING_NODE, true, false),
        "not_context" => not_found(alloc, NOT_CONTEXT, true, true),
        "not_object" => not_found(alloc, NOT_OBJECT, false, true),
        "cannot_proceed" => cannot_proceed(alloc),
        "InvalidName" => Boxed::new(alloc, NameOutcome::User(NameException::InvalidName)),
        "AlreadyBound" => Boxed::new(alloc, NameOutcome::User(NameException::AlreadyBound)),
        _ => Boxed::new(alloc, NameOutcome::User(NameException::NotEmpty)),
    }
}

fn system(alloc: Global, kind: SystemKind) -> Result<Boxed<NameOutcome>, Memory> {
    Boxed::new(
        alloc,
        NameOutcome::System {
            kind,
            minor: 0,
            completion: COMPLETED_NO,
        },
    )
}

fn result(alloc: Global, word: &str) -> Result<NameResult, Memory> {
    match word {
        "nothing" => Ok(NameResult::Nothing),
        "true" => Ok(NameResult::Truth(true)),
        "false" => Ok(NameResult::Truth(false)),
        "listed" => listed(alloc),
        "listed_none" => listed_none(alloc),
        "next_object" => Ok(NameResult::NextOne(Some(object_y(alloc)?))),
        "next_context" => Ok(NameResult::NextOne(Some(context_z(alloc)?))),
        "past_the_end" => Ok(NameResult::NextOne(None)),
        "batch" => Ok(NameResult::NextN(bindings(alloc)?)),
        "no_batch" => Ok(NameResult::NextN(List::new(alloc))),
        _ => Ok(NameResult::Object(reference(alloc, word)?)),
    }
}

/// The outcome of a word whose reply has this status.
fn outcome(alloc: Global, word: &str, status: &str) -> Result<Boxed<NameOutcome>, Memory> {
    match (status, word) {
        ("0", _) => Boxed::new(alloc, NameOutcome::Done(result(alloc, word)?)),
        ("1", _) => exception(alloc, word),
        (_, "IMP_LIMIT") => system(alloc, SystemKind::ImpLimit),
        _ => system(alloc, SystemKind::NoImplement),
    }
}

/// Whether the outcome of a line has its status and is written so.
fn is_written(alloc: Global, line: &str, order: Order) -> Result<bool, Fail> {
    let (word, rest) = cut(line);
    let (status, bodies) = cut(rest);
    let body = bytes_of(alloc, body_in(bodies, order), "")?;
    let outcome = outcome(alloc, word, status)?;
    let mut writer = Writer::new(alloc, order);
    write_name_outcome(alloc, &mut writer, outcome.get())?;
    let digits = name_status(outcome.get()).to_string(alloc)?;
    Ok(writer.bytes() == body.as_slice() && digits.as_str() == status)
}

#[test]
fn outcomes(rt: HostRuntime) -> Result<(), Fail> {
    let alloc = rt.alloc();
    for line in OUTCOMES.lines() {
        assert!(rt; is_written(alloc, line, Order::Big)?, "at {line}");
        assert!(rt; is_written(alloc, line, Order::Little)?, "at {line}");
    }
    Ok(())
}
