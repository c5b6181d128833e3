//! Marks, and what was seen of traders.

ghost use Rattle.td_net_laws.specs.Always.{Always, MarksAreApart, AreRead};

/// Two searches of one trader under one identifier have marks whose numbers differ by more than the trader remembers,
/// however many calls are open, whatever is lost, and whatever changes come between.
pub fn searches_are_apart()
    ensures { Always MarksAreApart }
{}

/// What a call was served with is its trader's at one point of the history, whatever was accepted since.
pub fn visits_are_of_one_point()
    ensures { Always AreRead }
{}
