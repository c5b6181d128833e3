//! The lines of a server's file, up to what they ask for: its address, its seed, its version, and its traders with the
//! entries of each in order, each with the number of its first line.
//!
//! LF ends a line, a CR before it is dropped, and the last LF may be missing. Words stand between spaces
//! and tabs. Empty lines and lines that begin with `#` are skipped.
#![tactic(auto)]

mod cause;
mod closing;
mod draft;
mod dynamic;
mod entry;
mod heads;
mod hexadecimal;
mod home;
mod keyword;
mod laws;
mod lines;
mod linked;
mod offered;
mod parts;
mod properties;
mod reading;
mod references;
mod setting;
mod typed;
mod words;

pub use cause::LineCause;
pub use entry::{FileEntry, Home, Numbered, Refused, Script, TraderScript};
pub use laws::{scripts_are_sound, worked_files};
pub use reading::read_script;
