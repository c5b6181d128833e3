//! The calls of a network.

ghost use Rattle.std.specs.Prelude.{◌≡◌, Some, is_some, true};
ghost use Rattle.td_net.specs.Worlds.{frame_in, sent};
ghost use Rattle.td_net.specs.declared.call.Stage.TheVariants.{Ended};

use std::alloc::Global;
use std::mem;
use std::snapshot::Snapshot;
use td_cdr::{Boxed, List, Shared};
use td_ops::Query;
use td_trader::Trader;
use td_value::Any;
use td_visit::Frame;
use td_walk::Visit;

/// Where a call stands.
pub(crate) enum Stage {
    /// It hasn't come to its trader.
    Sent,
    /// Its visit goes on.
    Running,
    /// Its visit waits for a value.
    Evaluating(Frame),
    /// Its visit waits for the call of this number.
    Waiting(Frame, usize),
    /// It has its answer.
    Ended(Boxed<Visit>),
}

// By hand, since a derived drop is written out at each exit.
impl Drop for Stage {
    fn drop(self) {
        match self {
            Stage::Sent => (),
            Stage::Running => (),
            Stage::Evaluating(_frame) => (),
            Stage::Waiting(_frame, _sub) => (),
            Stage::Ended(_visit) => (),
        }
    }
}

/// That a call came to its trader: how many were delivered before it, and the trader as it was then. The trader takes
/// no memory here.
#[derive(Drop)]
pub(crate) struct Delivery {
    pub serial: u64,
    pub seen: Snapshot<Trader>,
}

/// What became of a question of a visit.
#[derive(Drop)]
pub(crate) enum QuestionStep {
    /// Its target isn't of the network.
    Outside,
    /// Its evaluator has no IIOP profile.
    Unreachable,
    /// No value came.
    Unvalued,
    /// This value came. It takes no memory here.
    Valued(Snapshot<Any>),
    /// The call of this number was lost.
    Lost(usize),
    /// The call of this number gave its answer.
    Given(usize),
}

/// A query that was sent to a trader of the network.
pub(crate) struct Call {
    pub target: usize,
    pub query: Shared<Query>,
    /// The call of the Ask that it belongs to.
    pub root: usize,
    /// The call whose visit waits for it.
    pub caller: Option<usize>,
    /// Whether its caller was handed an answer.
    pub handed: bool,
    pub stage: Stage,
    pub delivery: Option<Delivery>,
    pub steps: List<QuestionStep>,
    /// How many random words were drawn before it ended.
    pub drawn: usize,
}

// By hand, since a derived drop is written out at each exit.
impl Drop for Call {
    fn drop(self) {
        let Call {
            target: _target,
            query: _query,
            root: _root,
            caller: _caller,
            handed: _handed,
            stage: _stage,
            delivery: _delivery,
            steps: _steps,
            drawn: _drawn,
        } = self;
    }
}

/// A call that is opened.
pub(crate) fn sent_to(
    alloc: Global,
    target: usize,
    query: Shared<Query>,
    root: usize,
    caller: Option<usize>,
) -> Call
    ensures { result ≡ sent target query root caller }
{
    Call {
        target,
        query,
        root,
        caller,
        handed: false,
        stage: Stage::Sent,
        delivery: None,
        steps: List::new(alloc),
        drawn: 0,
    }
}

impl Call {
    /// Writes down where its visit stands.
    pub(crate) fn stand(&mut self, stage: Stage, steps: List<QuestionStep>)
        ensures { self.new ≡ record self.old { stage = stage; steps = steps } }
    {
        self.stage = stage;
        self.steps = steps;
    }

    /// Ends it, with its steps and the number of words that were drawn before.
    pub(crate) fn end(&mut self, visit: Boxed<Visit>, steps: List<QuestionStep>, drawn: usize)
        ensures { self.new ≡ record self.old { stage = Ended visit; steps = steps; drawn = drawn } }
    {
        self.stage = Stage::Ended(visit);
        self.steps = steps;
        self.drawn = drawn;
    }

    /// Ends it without a step.
    pub(crate) fn end_at_once(&mut self, visit: Boxed<Visit>, drawn: usize)
        ensures { self.new ≡ record self.old { stage = Ended visit; drawn = drawn } }
    {
        self.stage = Stage::Ended(visit);
        self.drawn = drawn;
    }

    /// Writes down that it came to its trader.
    pub(crate) fn deliver(&mut self, delivery: Delivery)
        ensures { self.new ≡ record self.old { delivery = Some delivery } }
    {
        self.delivery = Some(delivery);
    }

    /// Writes down that its caller was handed an answer.
    pub(crate) fn hand_on(&mut self)
        ensures { self.new ≡ record self.old { handed = true } }
    {
        self.handed = true;
    }

    /// Takes out its visit, with its steps, where it waits for an answer.
    pub(crate) fn take_visit(&mut self, alloc: Global) -> (Frame, List<QuestionStep>)
        requires { is_some (frame_in self.old.stage) ≡ true }
        ensures taken { frame_in self.old.stage ≡ Some result.0 }
        ensures steps { result.1 ≡ self.old.steps }
        ensures rest { record self.new { stage = self.old.stage; steps = self.old.steps }
            ≡ self.old }
    {
        let frame = mem::replace(&mut self.stage, Stage::Running).into_frame();
        let steps = mem::replace(&mut self.steps, List::new(alloc));
        (frame, steps)
    }
}

impl Stage {
    /// The visit that waits for an answer.
    fn into_frame(self) -> Frame
        requires { is_some (frame_in self) ≡ true }
        ensures { frame_in self ≡ Some result }
    {
        match self {
            Stage::Evaluating(frame) => frame,
            Stage::Waiting(frame, _) => frame,
            Stage::Sent | Stage::Running | Stage::Ended(_) => unreachable!(),
        }
    }
}
