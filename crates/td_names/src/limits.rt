//! How much there may be.

ghost use Rattle.std.specs.List.{list_all};
ghost use Rattle.std.specs.Prelude.{◌≡◌};
ghost use Rattle.td_names.specs.Limits.{component_fits, name_fits, no_more_bindings, no_more_changes, no_more_contexts};

use crate::component::NameComponent;

/// How many contexts are made at most. The root isn't made, and a destroyed one was.
const MOST_CONTEXTS: usize = 65_536;

/// How many bindings there are at most, in all contexts.
const MOST_BINDINGS: u64 = 1_000_000;

/// How many changes are accepted at most.
const MOST_CHANGES: u64 = 1_000_000;

/// How many components a name has at most.
const MOST_COMPONENTS: usize = 64;

/// How many bytes the id of a component has at most, and its kind.
const MOST_BYTES: usize = 256;

/// Whether no further context is made, where so many were made.
pub fn no_more_contexts(made: usize) -> bool
    ensures { result ≡ no_more_contexts made }
{
    made >= MOST_CONTEXTS
}

/// Whether no further binding is added, where there are so many.
pub fn no_more_bindings(bindings: u64) -> bool
    ensures { result ≡ no_more_bindings bindings }
{
    bindings >= MOST_BINDINGS
}

/// Whether no further change is accepted, where so many were.
pub fn no_more_changes(changes: u64) -> bool
    ensures { result ≡ no_more_changes changes }
{
    changes >= MOST_CHANGES
}

/// Whether a name is within the limits: 64 components, and 256 bytes for each id and each kind.
pub fn name_fits(name: &[NameComponent]) -> bool
    ensures { result ≡ name_fits name.now }
{
    name.len() <= MOST_COMPONENTS && components_fit(name)
}

fn components_fit(name: &[NameComponent]) -> bool
    ensures { result ≡ list_all component_fits name.now }
{
    name.iter().all(component_fits)
}

fn component_fits(component: &NameComponent) -> bool
    ensures { result ≡ component_fits component.now }
{
    component.id.len() <= MOST_BYTES && component.kind.len() <= MOST_BYTES
}
