//! What holds of every store whose values can be written, as functions that do nothing: each one's contract is the
//! law.

ghost use Rattle.td_trader_laws.specs.Writable.{ChangesStayWritable, CountedChangesStayWritable, HistoriesStayWritable};
ghost use Rattle.td_trader_laws.specs.Writable.{LooksAreWritable, RepliesAreWritable};
ghost use Rattle.td_trader.specs.Admitted.{ReadChangesAreAdmitted};

/// A store that can be written stays so through each change whose values can be, and what the change comes to can be
/// written too: a reply of its operation, or an exception with its members. The values of a change that is read from a
/// request are such.
pub fn changes_stay_writable()
    ensures applied { ChangesStayWritable }
    ensures counted { CountedChangesStayWritable }
    ensures read { ReadChangesAreAdmitted }
{}

/// What a look at such a store is answered with can be written.
pub fn looks_are_writable()
    ensures { LooksAreWritable }
{}

/// From such a store on, each store that a history of such changes leads to can be written, and each reply of a legal
/// one.
pub fn histories_stay_writable()
    ensures stores { HistoriesStayWritable }
    ensures replies { RepliesAreWritable }
{}
