//! Naming contexts as the book of a cell.

ghost use Rattle.td_shared_names.specs.Acting.{CallsOrNot};

use std::alloc::Global;
use std::marker::Model;
use td_cdr::Memory;
use td_cell::Book;
use td_names::{NameAct, NameAnswer};
use td_naming::Naming;

/// What is asked of naming contexts.
#[derive(Drop)]
pub enum Act {
    /// A call of the context of a number.
    Call { context: u32, act: NameAct },
    /// Whether the context of a number is live.
    Live(u32),
}

/// What it is answered with.
#[derive(Drop)]
pub enum Reply {
    Called(Result<NameAnswer, Memory>),
    Live(bool),
}

/// Naming contexts that stand in a cell, with the allocator by which they grow. Contracts see where they are reached
/// and their history.
#[derive(Drop)]
pub struct NameBook {
    pub(crate) alloc: Global,
    pub(crate) naming: Naming,
}

impl Model for NameBook {
    ghost use Rattle.td_naming.specs.Histories.{Past};
    ghost use Rattle.td_naming.specs.contracts.naming.Naming as naming_row;

    ghost Value = { Past };

    ghost coded = { naming_row.the_row.coded };

    ghost view = { λ b. b.naming };
}

impl Book for NameBook {
    type Act = Act;

    type Reply = Reply;

    ghost use Rattle.td_shared_names.specs.Acting.{NamesAct, ExtendsPast, no_marks, size_of};

    ghost size = { size_of };

    ghost remembers = { λ _. no_marks };

    ghost later = { ExtendsPast };

    ghost acts = { NamesAct };

    /// Does what the contexts' own method does.
    fn act(&mut self, a: Act) -> Reply {
        match a {
            Act::Call { context, act } => {
                Reply::Called(call(&mut self.naming, self.alloc, context, act))
            }
            Act::Live(context) => Reply::Live(self.naming.live(context)),
        }
    }

    fn changes(&self) -> u64 {
        self.naming.point()
    }

    fn marks(&self) -> u64 {
        0
    }

    ghost use Rattle.td_shared_names.specs.BookLaws.{acts_go_on, acts_within, goes_on_itself, goes_on_more, grows};
    ghost use Rattle.td_shared_names.specs.BookLaws.{makes_none, no_mark};

    ghost later_itself = { goes_on_itself };

    ghost later_on = { goes_on_more };

    ghost later_size = { grows };

    ghost later_marks = { no_mark };

    ghost acts_later = { acts_go_on };

    ghost acts_once = { acts_within };

    ghost acts_mark = { makes_none };
}

/// What a call of a context comes to.
fn call(
    naming: &mut Naming,
    alloc: Global,
    context: u32,
    act: NameAct,
) -> Result<NameAnswer, Memory>
    ensures { CallsOrNot naming.old context act result naming.new }
{
    naming.act(alloc, context, act)
}
