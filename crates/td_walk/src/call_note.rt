//! A call of a peer, as clauses see it: a note of it takes a byte, and holds no value.

use std::snapshot::Snapshot;
use td_cdr::{List, Text};
use td_ops::Query;
use td_value::{Any, Ior, TypeCode};

/// A call of a peer, with its arguments.
#[derive(Drop)]
pub enum CallNote {
    /// query of a Lookup.
    Query {
        target: Snapshot<Ior>,
        query: Snapshot<Query>,
    },
    /// evalDP of a DynamicPropEval.
    Evaluation {
        evaluator: Snapshot<Ior>,
        name: Snapshot<Text>,
        returned: Snapshot<TypeCode>,
        extra: Snapshot<Any>,
    },
    /// The attribute register_if of a Lookup.
    Register {
        lookup: Snapshot<Ior>,
    },
    /// resolve of a Register.
    Resolution {
        register: Snapshot<Ior>,
        name: Snapshot<List<Text>>,
    },
}
