//! Calls from lines, and what they come to.

use std::alloc::Global;
use td_cdr::{List, Memory, Text};
use td_ior::nil;
use td_names::{NameAct, NameAnswer, NameComponent, NameException, NameReply, context_reference};
use td_naming::{Names, Naming};
use td_typecode::Ior;

/// Naming contexts at `here`, port 1: the root alone.
pub(crate) fn root_alone(alloc: Global) -> Result<Naming, Memory> {
    let host = Text::from_slice(alloc, b"here")?;
    Naming::new(alloc, host, 1)
}

/// Whether contexts answer as a line says: a context's number, a call, the letters of a name's ids or `-`, ` = `, and
/// the words of the answers that may come, with `|` between them.
pub(crate) fn is_so<N: Names>(alloc: Global, names: &mut N, line: &str) -> bool
    ensures { N.same names.old names.new }
{
    let (asked, expected) = line.split_once(" = ").unwrap_or((line, ""));
    match call_of(alloc, asked) {
        Ok((context, act)) => is_expected(names.act(alloc, context, act), expected),
        Err(_) => {
            let _ = names.live(1);
            false
        }
    }
}

/// Whether the word of an answer is one of these.
fn is_expected(answer: Result<NameAnswer, Memory>, expected: &str) -> bool {
    let word = match &answer {
        Ok(answer) => word_of(answer),
        Err(_) => "memory",
    };
    drop(answer);
    expected.split('|').any(|other| other == word)
}

/// `object` is a reference without profiles, and `context` one that has some.
fn word_of(answer: &NameAnswer) -> &'static str {
    match answer {
        NameAnswer::Done(NameReply::Nothing) => "done",
        NameAnswer::Done(NameReply::Object(object)) => object_word(object),
        NameAnswer::Done(NameReply::Bindings(_)) => "bindings",
        NameAnswer::User(exception) => exception_word(exception),
        NameAnswer::System(_) => "system",
    }
}

fn object_word(object: &Ior) -> &'static str {
    if object.profiles.is_empty() {
        "object"
    } else {
        "context"
    }
}

/// NotFound has its reason, and how many components are left.
fn exception_word(exception: &NameException) -> &'static str {
    match exception {
        NameException::NotFound { why, rest } => not_found_word(*why, rest.len()),
        NameException::CannotProceed { .. } => "cannot proceed",
        NameException::InvalidName => "invalid",
        NameException::AlreadyBound => "already",
        NameException::NotEmpty => "not empty",
    }
}

fn not_found_word(why: u32, rest: usize) -> &'static str {
    match (why, rest) {
        (0, 1) => "missing node, 1 left",
        (1, 2) => "not context, 2 left",
        _ => "not found",
    }
}

/// The context that is called, and the call.
fn call_of(alloc: Global, asked: &str) -> Result<(u32, NameAct), Memory> {
    let (number, words) = asked.split_once(' ').unwrap_or((asked, ""));
    let (word, letters) = words.split_once(' ').unwrap_or((words, ""));
    let context = number.parse::<u32>().unwrap_or(0);
    match word {
        "new_context" => Ok((context, NameAct::NewContext)),
        "destroy" => Ok((context, NameAct::Destroy)),
        _ => Ok((context, named_act(alloc, word, letters)?)),
    }
}

/// `bind_root` binds the root at `here`, port 1, as a context, and `bind` binds nil.
fn named_act(alloc: Global, word: &str, letters: &str) -> Result<NameAct, Memory> {
    let name = name(alloc, letters)?;
    match word {
        "bind" => Ok(NameAct::Bind {
            name,
            object: nil(alloc),
        }),
        "bind_root" => bind_root(alloc, name),
        "resolve" => Ok(NameAct::Resolve { name }),
        "unbind" => Ok(NameAct::Unbind { name }),
        _ => Ok(NameAct::BindNewContext { name }),
    }
}

fn bind_root(alloc: Global, name: List<NameComponent>) -> Result<NameAct, Memory> {
    match root(alloc) {
        Ok(object) => Ok(NameAct::BindContext { name, object }),
        Err(memory) => {
            drop(name);
            Err(memory)
        }
    }
}

/// The root's reference.
fn root(alloc: Global) -> Result<Ior, Memory> {
    let contexts = root_alone(alloc)?;
    let home = contexts.home();
    context_reference(alloc, home, 1)
}

/// The name whose components have these ids of one letter, and no kinds.
fn name(alloc: Global, letters: &str) -> Result<List<NameComponent>, Memory> {
    let mut name = List::new(alloc);
    for letter in letters.as_bytes() {
        let id = Text::from_slice(alloc, &[*letter])?;
        let kind = Text::new(alloc);
        name.push(NameComponent { id, kind })?;
    }
    Ok(name)
}
