//! The lines of answers: results, and exceptions of both kinds.

use std::alloc::Global;
use td_cdr::{List, Memory, Text};
use td_cli_printing::put_answer;
use td_ops::{Answered, Reply};

/// Two names.
fn names(alloc: Global) -> Result<List<Text>, Memory> {
    let mut names = List::new(alloc);
    names.push(Text::from_slice(alloc, b"Laser")?)?;
    names.push(Text::from_slice(alloc, b"a name")?)?;
    Ok(names)
}

/// The answer that a word names.
fn answer_of(alloc: Global, word: &str) -> Result<Answered, Memory> {
    match word {
        "nothing" => Ok(Answered::Done(Reply::Nothing)),
        "number" => Ok(Answered::Done(Reply::Number(3))),
        "id" => id(alloc),
        "names" => Ok(Answered::Done(Reply::Names(names(alloc)?))),
        "user" => user(alloc),
        _ => system(alloc),
    }
}

fn id(alloc: Global) -> Result<Answered, Memory> {
    let id = Text::from_slice(alloc, b"17")?;
    Ok(Answered::Done(Reply::Id(id)))
}

fn user(alloc: Global) -> Result<Answered, Memory> {
    let id = Text::from_slice(alloc, b"IDL:omg.org/CosTrading/UnknownOfferId:1.0")?;
    Ok(Answered::User(id))
}

fn system(alloc: Global) -> Result<Answered, Memory> {
    let id = Text::from_slice(alloc, b"IDL:omg.org/CORBA/MARSHAL:1.0")?;
    Ok(Answered::System {
        id,
        minor: 80,
        completion: 1,
    })
}

/// Whether these lines are put, and where there are none, nothing is and the answer tells so.
fn puts(alloc: Global, answer: &Answered, lines: &str) -> bool {
    let mut out = Vec::new(alloc);
    let put = put_answer(alloc, &mut out, answer);
    put == Ok(!lines.is_empty()) && out.as_slice() == lines.as_bytes()
}

/// Whether these lines are put of the answer that a word names.
fn shows(alloc: Global, word: &str, lines: &str) -> bool {
    match answer_of(alloc, word) {
        Ok(answer) => {
            let passed = puts(alloc, &answer, lines);
            drop(answer);
            passed
        }
        Err(_) => false,
    }
}

/// The word of an answer, and its lines: a result that no subcommand has isn't printed.
const ANSWERS: [(&str, &str); 6] = [
    ("nothing", "ok\n"),
    ("id", "id 17\n"),
    ("names", "Laser\na name\n"),
    (
        "user",
        "exception IDL:omg.org/CosTrading/UnknownOfferId:1.0\n",
    ),
    ("system", "exception IDL:omg.org/CORBA/MARSHAL:1.0\n"),
    ("number", ""),
];

#[test]
fn answers(rt: HostRuntime) {
    let alloc = rt.alloc();
    for (word, lines) in &ANSWERS {
        assert!(rt; shows(alloc, word, lines), "{word}");
    }
}
