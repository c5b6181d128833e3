//! What is remembered.

use crate::calls::is_so;
use std::alloc::Global;
use std::test::Fail;
use td_cdr::{Memory, Text};
use td_names::NameAct;
use td_naming::{NameChange, Names, Naming};

/// Each call that is a change, one that isn't, and refused ones.
const CALLS: &str = "1 bind_new_context a = object 1 live
1 bind x = done 2 live
1 bind x = user 2 live
1 rebind x = done 3 live
1 resolve x = object 3 live
1 bind_context c = done 4 live
1 new_context = object 5 live
3 list = bindings 5 live
2 bind y = done 6 live
2 destroy = user 6 live
2 unbind y = done 7 live
2 unbind y = user 7 live
2 destroy = done 8 dead
2 list = system 8 dead
1 destroy = system 8 live
9 new_context = system 8 dead";

/// The accepted ones: the context, the call, and the number of the context that it made.
const HISTORY: &str = "1 bind_new_context 2
1 bind
1 rebind
1 bind_context
1 new_context 3
2 bind
2 unbind
2 destroy";

#[test]
fn changes_are_remembered(rt: HostRuntime) -> Result<(), Fail> {
    let alloc = rt.alloc();
    let host = Text::from_slice(alloc, b"here")?;
    let mut naming = Naming::new(alloc, host, 1)?;
    let wrong = first_wrong(alloc, &mut naming);
    let remembers = history_is_so(alloc, naming.history());
    let at_home = is_home(&naming);
    drop(naming);
    assert!(rt; wrong.is_empty(), "at {wrong}");
    assert!(rt; remembers == Ok(true) && at_home);
    Ok(())
}

fn first_wrong<N: Names>(alloc: Global, names: &mut N) -> &'static str {
    for line in CALLS.lines() {
        if !is_so(alloc, names, line) {
            return line;
        }
    }
    ""
}

fn is_home<N: Names>(names: &N) -> bool {
    let home = names.home();
    home.host.as_slice() == b"here".as_slice() && home.port == 1
}

fn history_is_so(alloc: Global, history: &[NameChange]) -> Result<bool, Memory> {
    let mut content = Vec::new(alloc);
    for change in history {
        put_change(alloc, &mut content, change)?;
    }
    Ok(content.as_slice() == HISTORY.as_bytes())
}

/// A line of the history, behind those before it.
fn put_change(alloc: Global, content: &mut Vec<u8>, change: &NameChange) -> Result<(), Memory> {
    if !content.is_empty() {
        content.push(b'\n')?;
    }
    put_number(alloc, content, change.context)?;
    content.push(b' ')?;
    content.extend_from_slice(word_of(&change.act).as_bytes())?;
    if let Some(made) = change.made {
        content.push(b' ')?;
        put_number(alloc, content, made)?;
    }
    Ok(())
}

fn put_number(alloc: Global, content: &mut Vec<u8>, number: u32) -> Result<(), Memory> {
    let digits = number.to_string(alloc)?;
    content.extend_from_slice(digits.as_bytes())?;
    Ok(())
}

fn word_of(act: &NameAct) -> &'static str {
    match act {
        NameAct::Bind { .. } => "bind",
        NameAct::BindContext { .. } => "bind_context",
        NameAct::Rebind { .. } => "rebind",
        NameAct::Resolve { .. } => "resolve",
        NameAct::Unbind { .. } => "unbind",
        NameAct::NewContext => "new_context",
        NameAct::BindNewContext { .. } => "bind_new_context",
        NameAct::Destroy => "destroy",
        NameAct::List => "list",
    }
}
