//! Runs of the program: its words, its status, and what it leaves.

use std::alloc::Global;
use std::process::Abort;
use std::test::Fail;
use td_cdr::{List, Memory, Octets};
use td_name_command::run_names;
use td_out::{MemSink, MemSource};

/// `resolve` of the name y, by the Request 1.
const REQUEST: &[u8] =
    b"GIOP\x01\x00\x00\x00\x00\x00\x00\x35\x00\x00\x00\x00\x00\x00\x00\x01\x01\x00\x00\x00\x00\x00\x00\x03N/1\x00\x00\x00\x00\x08resolve\x00\x00\x00\x00\x00\x00\x00\x00\x01\x00\x00\x00\x02y\x00\x00\x00\x00\x00\x00\x01\x00";

/// NotFound: the node is missing, and y is the rest of the name.
const REPLY: &[u8] =
    b"GIOP\x01\x00\x00\x01\x00\x00\x00\x59\x00\x00\x00\x00\x00\x00\x00\x01\x00\x00\x00\x01\x00\x00\x00\x31IDL:omg.org/CosNaming/NamingContext/NotFound:1.0\x00\x00\x00\x00\x00\x00\x00\x00\x00\x00\x00\x01\x00\x00\x00\x02y\x00\x00\x00\x00\x00\x00\x01\x00";

/// What is sent where a session is broken off.
const MESSAGE_ERROR: &[u8] = b"GIOP\x01\x00\x00\x06\x00\x00\x00\x00";

/// The words of a line.
fn words(alloc: Global, line: &str) -> Result<Vec<String>, Memory> {
    let mut words = Vec::new(alloc);
    for word in line.split(' ') {
        words.push(String::from_str(alloc, word)?)?;
    }
    Ok(words)
}

/// Whether the program with these words ends with this status, and leaves these bytes and this line.
fn comes(
    alloc: Global,
    args: &[String],
    sent: &[u8],
    status: u8,
    given: &[u8],
    line: &[u8],
) -> Result<bool, Memory> {
    let sent = Octets::from_slice(alloc, sent)?;
    let mut source = MemSource::new(sent, List::new(alloc), List::new(alloc));
    let mut sink = MemSink::new(alloc, List::new(alloc));
    let mut faults = MemSink::new(alloc, List::new(alloc));
    let ended = run_names(alloc, args, &mut source, &mut sink, &mut faults);
    Ok(ended == status && sink.written() == given && faults.written() == line)
}

#[test]
fn a_session_is_served(rt: HostRuntime) -> Result<(), Fail> {
    let alloc = rt.alloc();
    let args = words(alloc, "names here 1")?;
    assert!(rt; comes(alloc, &args, REQUEST, 0, REPLY, b"")?, "one Request");
    assert!(rt;
        comes(alloc, &args, b"GIOP", 5, b"", b"status 5\n")?,
        "half a header"
    );
    assert!(rt;
        comes(
            alloc,
            &args,
            b"GIOP\x03\x00\x00\x00\x00\x00\x00\x00",
            4,
            MESSAGE_ERROR,
            b"status 4\n"
        )?,
        "another version"
    );
    Ok(())
}

/// Words that are no command.
const OTHERS: &str = "names
names here
names here 1 2
name here 1
names here 65536
names here 01
names here -1
names here x
listen here 1";

#[test]
fn other_words_are_no_command(rt: HostRuntime) -> Result<(), Fail> {
    let alloc = rt.alloc();
    for line in OTHERS.lines() {
        let args = words(alloc, line)?;
        assert!(rt;
            comes(alloc, &args, REQUEST, 2, b"", b"usage\n")?,
            "at {line}"
        );
    }
    Ok(())
}

/// Whether a host of so many bytes makes this status.
fn host_comes(alloc: Global, size: u32, status: u8) -> Result<bool, Memory> {
    let mut host = String::new(alloc);
    for _ in 0..size {
        host.push('h')?;
    }
    let mut args = words(alloc, "names")?;
    args.push(host)?;
    args.push(String::from_str(alloc, "65535")?)?;
    let line: &[u8] = if status == 2 { b"usage\n" } else { b"" };
    comes(alloc, &args, b"", status, b"", line)
}

#[test]
fn a_host_has_at_most_1000_bytes(rt: HostRuntime) -> Result<(), Fail> {
    let alloc = rt.alloc();
    assert!(rt;
        host_comes(alloc, 1000, 0)? && host_comes(alloc, 1001, 2)? && host_comes(alloc, 0, 0)?
    );
    Ok(())
}
