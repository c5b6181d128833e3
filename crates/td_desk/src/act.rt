//! What is asked of the desk, and what it answers.

ghost use Rattle.std.specs.Prelude.{◌≡◌, length};
ghost use Rattle.td_iter.specs.declared.limits.TheConstants.{REPLY_START};

use crate::book::DeskBook;
use crate::fault::DeskFault;
use td_cdr::{Text, Writer};
use td_cell::Book;
use td_iter::{DeskEntry, Item};

/// A writer that holds what stands before the body of a reply.
#[derive(Drop)]
pub struct Begun {
    pub writer: Writer,
    ghost starts: { length writer.bytes ≡ REPLY_START },
}

/// A call of the desk, with its arguments.
#[derive(Drop)]
pub enum Act {
    Draw,
    Add(DeskEntry<Item>),
    Left {
        trader: Text,
        number: u64,
    },
    /// The batch is appended to what the writer holds.
    Next {
        trader: Text,
        number: u64,
        n: u32,
        begun: Begun,
    },
    Destroy {
        trader: Text,
        number: u64,
    },
}

/// What it is answered with.
#[derive(Drop)]
pub enum Reply {
    /// The number.
    Drawn(Result<u64, DeskFault>),
    /// The iterator that was dropped for it.
    Added(Option<DeskEntry<Item>>),
    /// How many are left, and whether they are offers.
    Left(Result<(u32, bool), DeskFault>),
    /// The writer is handed back. Whether something is left behind the batch.
    Next(Writer, Result<bool, DeskFault>),
    /// The iterator that was taken off.
    Destroyed(Result<DeskEntry<Item>, DeskFault>),
}

impl Book for DeskBook {
    type Act = Act;

    type Reply = Reply;

    ghost use Rattle.std.specs.Prelude.{length};
    ghost use Rattle.td_desk.specs.Acting.{DeskActs, ExtendsHistory, no_marks};

    ghost size = { length };

    ghost remembers = { λ _. no_marks };

    ghost later = { ExtendsHistory };

    ghost acts = { DeskActs };

    /// Does what the desk's own call does.
    fn act(&mut self, a: Act) -> Reply {
        match a {
            Act::Draw => Reply::Drawn(self.draw()),
            Act::Add(entry) => Reply::Added(self.add(entry)),
            Act::Left { trader, number } => Reply::Left(self.max_left(trader, number)),
            Act::Next {
                trader,
                number,
                n,
                begun,
            } => {
                let (writer, more) = self.next_n(trader, number, n, begun);
                Reply::Next(writer, more)
            }
            Act::Destroy { trader, number } => Reply::Destroyed(self.destroy(trader, number)),
        }
    }

    fn changes(&self) -> u64 {
        self.done()
    }

    fn marks(&self) -> u64 {
        0
    }

    ghost use Rattle.td_desk.specs.BookLaws.{acts_go_on, acts_within, goes_on_itself, goes_on_more, grows, makes_none};
    ghost use Rattle.td_desk.specs.BookLaws.{no_mark};

    ghost later_itself = { goes_on_itself };

    ghost later_on = { goes_on_more };

    ghost later_size = { grows };

    ghost later_marks = { no_mark };

    ghost acts_later = { acts_go_on };

    ghost acts_once = { acts_within };

    ghost acts_mark = { makes_none };
}
