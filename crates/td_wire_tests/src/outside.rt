//! Each public call once with ample memory, and the adapters over `std` once.

use crate::support::goes_along;
use std::alloc::Global;
use std::test::Fail;
use std::{fs, io, process};
use td_cdr::{List, Octets, Text};
use td_out::{
    Failed, FileTexts, MemSink, MemSource, MemTexts, Sink, Source, StdSink, StdSource, TextFault,
    Texts,
};

/// Whether a read into room for four bytes answers so, and leaves these bytes there.
fn reads<S: Source>(source: &mut S, answer: Result<usize, Failed>, bytes: [u8; 4]) -> bool {
    let mut room = [0; 4];
    source.read(&mut room) == answer && room == bytes
}

/// Whether the texts answer so for this name.
fn gives<L: Texts>(
    texts: &mut L,
    alloc: Global,
    name: &str,
    answer: Result<&[u8], TextFault>,
) -> bool {
    match texts.text(alloc, name) {
        Ok(text) => match answer {
            Ok(bytes) => text.as_slice() == bytes,
            Err(_) => false,
        },
        Err(fault) => answer == Err(fault),
    }
}

/// Seven bytes, in pieces of which one is set to be empty; the third call fails.
fn pieces(alloc: Global) -> Result<MemSource, Fail> {
    let bytes = List::from_slice(alloc, &[1, 2, 3, 4, 5, 6, 7])?;
    let sizes = List::from_slice(alloc, &[3, 0, 9])?;
    let failing = List::from_slice(alloc, &[3])?;
    Ok(MemSource::new(bytes, sizes, failing))
}

fn gives_its_pieces(source: &mut MemSource) -> bool {
    reads(source, Ok(3), [1, 2, 3, 0])
        && reads(source, Ok(1), [4, 0, 0, 0])
        && reads(source, Err(Failed), [0, 0, 0, 0])
        && reads(source, Ok(3), [5, 6, 7, 0])
        && reads(source, Ok(0), [0, 0, 0, 0])
}

#[test]
fn a_source_in_memory_gives_its_pieces_and_fails_where_it_is_set(
    rt: HostRuntime,
) -> Result<(), Fail> {
    let mut source = pieces(rt.alloc())?;
    goes_along(&source);
    let good = gives_its_pieces(&mut source);
    assert!(rt; good);
    Ok(())
}

fn keeps_what_is_written(sink: &mut MemSink) -> bool {
    sink.write(&[1, 2]) == Ok(2)
        && sink.write(&[3]) == Err(Failed)
        && sink.write(&[4]) == Ok(1)
        && sink.written() == [1, 2, 4].as_slice()
}

#[test]
fn a_sink_in_memory_keeps_what_is_written(rt: HostRuntime) -> Result<(), Fail> {
    let alloc = rt.alloc();
    let mut sink = MemSink::new(alloc, List::from_slice(alloc, &[2])?);
    goes_along(&sink);
    let good = keeps_what_is_written(&mut sink);
    assert!(rt; good);
    Ok(())
}

/// Adds a text of this name.
fn add(files: &mut List<(Text, Octets)>, alloc: Global, name: &[u8], text: &[u8]) -> bool {
    let Ok(name) = Text::from_slice(alloc, name) else {
        return false;
    };
    let Ok(text) = Octets::from_slice(alloc, text) else {
        return false;
    };
    files.push((name, text)).is_ok()
}

fn finds_by_name(texts: &mut MemTexts, alloc: Global) -> bool {
    gives(texts, alloc, "a", Ok(b"first"))
        && gives(texts, alloc, "b", Ok(b"other"))
        && gives(texts, alloc, "a", Err(TextFault::Failed))
        && gives(texts, alloc, "c", Err(TextFault::Failed))
}

#[test]
fn texts_in_memory_are_found_by_name(rt: HostRuntime) -> Result<(), Fail> {
    let alloc = rt.alloc();
    let mut files = List::new(alloc);
    let mut good = add(&mut files, alloc, b"a", b"first");
    good &= add(&mut files, alloc, b"a", b"second");
    good &= add(&mut files, alloc, b"b", b"other");
    let mut texts = MemTexts::new(files, List::from_slice(alloc, &[3])?);
    good &= finds_by_name(&mut texts, alloc);
    assert!(rt; good);
    Ok(())
}

/// A reader whose every call fails, and a writer that takes nothing.
#[derive(Drop)]
struct Broken;

impl io::Read for Broken {
    fn read(&mut self, _buf: &mut [u8]) -> io::Result<usize> {
        Err(io::Error::other("broken"))
    }
}

impl io::Write for Broken {
    fn write(&mut self, _buf: &[u8]) -> io::Result<usize> {
        Ok(0)
    }

    fn flush(&mut self) -> io::Result<()> {
        Ok(())
    }
}

/// Whether the bytes from 1 to 5 come out of the source, and no more.
fn passes_five_bytes_on<S: Source>(source: &mut S) -> bool {
    reads(source, Ok(4), [1, 2, 3, 4])
        && reads(source, Ok(1), [5, 0, 0, 0])
        && reads(source, Ok(0), [0, 0, 0, 0])
}

#[test]
fn a_source_over_a_reader_passes_its_bytes_on(rt: HostRuntime) {
    let bytes = [1u8, 2, 3, 4, 5];
    assert!(rt; passes_five_bytes_on(&mut StdSource::new(bytes.as_slice())));
    assert!(rt; reads(&mut StdSource::new(Broken), Err(Failed), [0, 0, 0, 0]));
}

/// A writer that counts its flushes.
#[derive(Drop)]
struct Tally {
    bytes: Vec<u8>,
    flushes: u32,
}

impl io::Write for Tally {
    fn write(&mut self, buf: &[u8]) -> io::Result<usize> {
        self.bytes.write(buf)
    }

    fn flush(&mut self) -> io::Result<()> {
        self.flushes = self.flushes.saturating_add(1);
        Ok(())
    }
}

fn takes_three_pieces<K: Sink>(sink: &mut K) -> bool {
    sink.write(&[1, 2]) == Ok(2) && sink.write(&[]) == Ok(0) && sink.write(&[3]) == Ok(1)
}

fn flushes_each(tally: &mut Tally) -> bool {
    takes_three_pieces(&mut StdSink::new(&mut *tally))
        && tally.bytes.as_slice() == [1, 2, 3].as_slice()
        && tally.flushes == 3
}

#[test]
fn a_sink_over_a_writer_passes_its_bytes_on_and_flushes(rt: HostRuntime) {
    let mut tally = Tally {
        bytes: Vec::new(rt.alloc()),
        flushes: 0,
    };
    let good = flushes_each(&mut tally);
    assert!(rt; good);
    assert!(rt; StdSink::new(Broken).write(&[1]) == Err(Failed));
}

#[test]
fn texts_in_files_are_read_whole(rt: HostRuntime) -> Result<(), Fail> {
    let alloc = rt.alloc();
    let path = format!(in alloc; "/tmp/td_out-{}", process::id(rt.process()))?;
    fs::write(&rt, path.as_str(), "a line\n")?;
    let mut texts = FileTexts::new(&rt);
    let mut good = gives(&mut texts, alloc, path.as_str(), Ok(b"a line\n"));
    fs::remove_file(&rt, path.as_str())?;
    good &= gives(&mut texts, alloc, path.as_str(), Err(TextFault::Failed));
    assert!(rt; good);
    Ok(())
}
