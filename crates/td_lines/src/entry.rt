//! What a file asks for, as plain data.

use crate::cause::LineCause;
use td_cdr::{List, Octets, Text};
use td_ops::Change;
use td_value::FollowOption;

/// Where the server is reached.
#[derive(Drop)]
pub struct Home {
    pub host: Text,
    pub port: u16,
    /// The minor version of IIOP in the server's references, 0 or 1.
    pub minor: u8,
}

/// One thing that the file asks of a trader.
#[derive(Drop)]
pub enum FileEntry {
    /// A change of its store.
    Change(Change),
    /// A link to a trader of the file.
    Link {
        name: Text,
        trader: Text,
        def_pass_on: FollowOption,
        limiting: FollowOption,
    },
}

/// An entry, and the number of its first line, counted from 1.
#[derive(Drop)]
pub struct Numbered {
    pub line: u32,
    pub entry: FileEntry,
}

/// The first line of an entry that is refused, and why.
#[derive(Clone, Copy, Debug, PartialEq, Eq)]
pub struct Refused {
    pub line: u32,
    pub cause: LineCause,
}

/// What the file says of a trader.
#[derive(Drop)]
pub struct TraderScript {
    pub name: Text,
    /// The interfaces that are declared before its types, each with its bases.
    pub interfaces: List<(Text, List<Text>)>,
    /// What else is asked of it, in order.
    pub entries: List<Numbered>,
}

/// What the lines of a file say.
#[derive(Drop)]
pub struct Script {
    /// Where the server is reached: None only where the first line was refused.
    pub home: Option<Home>,
    /// What the random words are made of: 32 octets.
    pub seed: Octets,
    /// The traders in order, up to the first entry that its own lines refuse.
    pub traders: List<TraderScript>,
    /// That entry.
    pub refused: Option<Refused>,
}
