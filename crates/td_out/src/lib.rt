//! The traits of the outside: where a server's and a client's bytes come from and go to, where texts such as
//! the server's file are found, and where random words come from. Each has an implementation in memory, which
//! tells its content, and one for the programs: over `std`, which tells nothing of it, and for random words
//! over ChaCha20, which tells them all. A text on its way to a sink is written whole, or its front where the
//! sink failed.
#![tactic(auto)]

mod calls;
mod chacha_words;
mod fault;
mod file_texts;
mod mem_sink;
mod mem_source;
mod mem_texts;
mod mem_words;
mod sink;
mod source;
mod std_sink;
mod std_source;
mod texts;
mod words;
mod writing;

pub use calls::Calls;
pub use chacha_words::ChaChaWords;
pub use fault::{Failed, TextFault};
pub use file_texts::FileTexts;
pub use mem_sink::MemSink;
pub use mem_source::MemSource;
pub use mem_texts::MemTexts;
pub use mem_words::MemWords;
pub use sink::Sink;
pub use source::Source;
pub use std_sink::{StdSink, write_some};
pub use std_source::{StdSource, read_some};
pub use texts::Texts;
pub use words::Words;
pub use writing::write_all;
