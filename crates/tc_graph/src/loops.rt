//! Loops of aliases, which stand for no type.

ghost use Rattle.std.specs.Prelude.{ℕ, ◌≡◌, ◌<◌, ◌↔◌, length, IsTrue, IfSome, IfNone};
ghost use Rattle.tc_graph.specs.Aliases.{IsInLoop};
ghost use Rattle.tc_graph.specs.Drafts.{IsLeast};
ghost use Rattle.tc_graph.specs.Whole.{EdgesLeadInside};

use crate::aliases::ALIAS;
use crate::node::Node;

/// Whether edges over aliases alone lead from the place back to it.
fn is_in_loop(nodes: &[Node], start: u32) -> bool
    requires closed { EdgesLeadInside nodes.now }
    requires within { start < length nodes.now }
    ensures { IsTrue result ↔ IsInLoop nodes.now start }
{
    let mut place = start;
    for _step in 0..nodes.len() {
        let node = &nodes[place as usize];
        if node.kind != ALIAS {
            return false;
        }
        place = node.edges.as_slice()[0];
        if place == start {
            return true;
        }
    }
    false
}

/// The least place in a loop of aliases.
pub(crate) fn least_in_loop(nodes: &[Node]) -> Option<u32>
    requires { EdgesLeadInside nodes.now }
    ensures some { IfSome result (λ p. IsLeast (length nodes.now) (IsInLoop nodes.now) p) }
    ensures none { IfNone result ((i : ℕ) → i < length nodes.now → IsInLoop nodes.now i → ⊥) }
{
    for place in 0..nodes.len() as u32 {
        if is_in_loop(nodes, place) {
            return Some(place);
        }
    }
    None
}
