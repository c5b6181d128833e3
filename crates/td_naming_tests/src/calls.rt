//! Calls from lines, and what they come to as a word.

use std::alloc::Global;
use td_cdr::{List, Memory, Text};
use td_ior::nil;
use td_names::{NameAct, NameAnswer, NameComponent, NameReply};
use td_naming::Names;

/// Whether contexts answer as a line says: a context's number, a call, the id that it names or `-`, ` = `, the answer,
/// how many changes are seen then, and whether the context is live.
pub(crate) fn is_so<N: Names>(alloc: Global, names: &mut N, line: &str) -> bool {
    let (asked, expected) = line.split_once(" = ").unwrap_or((line, ""));
    match call(alloc, names, asked) {
        Ok(content) => content.as_slice() == expected.as_bytes(),
        Err(_) => false,
    }
}

fn call<N: Names>(alloc: Global, names: &mut N, asked: &str) -> Result<Vec<u8>, Memory> {
    let (number, words) = asked.split_once(' ').unwrap_or((asked, ""));
    let (word, id) = words.split_once(' ').unwrap_or((words, ""));
    let context = number.parse::<u32>().unwrap_or(0);
    let act = act(alloc, word, id)?;
    let answer = names.act(alloc, context, act)?;
    let word = word_of(&answer);
    drop(answer);
    let live: &[u8] = if names.live(context) {
        b" live"
    } else {
        b" dead"
    };
    let point = names.point().to_string(alloc)?;
    let mut content = Vec::from_slice(alloc, word.as_bytes())?;
    content.push(b' ')?;
    content.extend_from_slice(point.as_bytes())?;
    content.extend_from_slice(live)?;
    Ok(content)
}

fn act(alloc: Global, word: &str, id: &str) -> Result<NameAct, Memory> {
    match word {
        "new_context" => Ok(NameAct::NewContext),
        "destroy" => Ok(NameAct::Destroy),
        "list" => Ok(NameAct::List),
        _ => named_act(alloc, word, id),
    }
}

fn named_act(alloc: Global, word: &str, id: &str) -> Result<NameAct, Memory> {
    let name = name(alloc, id)?;
    match word {
        "bind" => Ok(NameAct::Bind {
            name,
            object: nil(alloc),
        }),
        "bind_context" => Ok(NameAct::BindContext {
            name,
            object: nil(alloc),
        }),
        "rebind" => Ok(NameAct::Rebind {
            name,
            object: nil(alloc),
        }),
        "resolve" => Ok(NameAct::Resolve { name }),
        "unbind" => Ok(NameAct::Unbind { name }),
        _ => Ok(NameAct::BindNewContext { name }),
    }
}

/// The name of one component with this id.
fn name(alloc: Global, id: &str) -> Result<List<NameComponent>, Memory> {
    let mut name = List::new(alloc);
    let id = Text::from_slice(alloc, id.as_bytes())?;
    let kind = Text::new(alloc);
    name.push(NameComponent { id, kind })?;
    Ok(name)
}

fn word_of(answer: &NameAnswer) -> &'static str {
    match answer {
        NameAnswer::Done(NameReply::Nothing) => "done",
        NameAnswer::Done(NameReply::Object(_)) => "object",
        NameAnswer::Done(NameReply::Bindings(_)) => "bindings",
        NameAnswer::User(_) => "user",
        NameAnswer::System(_) => "system",
    }
}
