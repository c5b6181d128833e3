//! A visitor of a server.

ghost use Rattle.std.specs.Prelude.{◌≡◌};

use crate::client_sink::ClientSink;
use crate::client_source::ClientSource;
use crate::client_wire::ClientWire;

/// A visitor: where its bytes come from, where the replies go, the wire over which its session calls objects outside,
/// and the random words of its session.
#[derive(Drop)]
pub struct Visitor<S, K, L, W> {
    pub source: S,
    pub sink: K,
    pub wire: L,
    pub words: W,
}

/// That a visitor was limited: `Visitor::limit` alone gives one.
#[derive(Clone, Copy, Debug, PartialEq, Eq)]
pub struct Limited {
    /// No other module can make one.
    made: (),
}

impl<S: ClientSource, K: ClientSink, L: ClientWire, W> Visitor<S, K, L, W> {
    /// Has the visitor be served briefly: what its source and sink wait for comes soon or is a fault, and its wire
    /// connects to nobody. It changes nothing that they tell, and is no fault itself.
    pub fn limit(&mut self) -> Limited
        ensures source { S.limited self.new.source × S.same self.old.source self.new.source
            × (S.left self.new.source ≡ S.left self.old.source)
            × (S.faults self.new.source ≡ S.faults self.old.source) }
        ensures sink { K.limited self.new.sink × K.same self.old.sink self.new.sink
            × (K.written self.new.sink ≡ K.written self.old.sink)
            × (K.faults self.new.sink ≡ K.faults self.old.sink) }
        ensures wire { L.refuses self.new.wire × L.same self.old.wire self.new.wire
            × (L.content self.new.wire ≡ L.content self.old.wire)
            × (L.faults self.new.wire ≡ L.faults self.old.wire) }
        ensures words { self.new.words ≡ self.old.words }
    {
        self.source.limit();
        self.sink.limit();
        self.wire.refuse();
        Limited { made: () }
    }
}
