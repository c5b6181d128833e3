//! What counts of a node of a graph, wherever its edges lead.

ghost use Rattle.std.specs.Prelude.{◌≡◌, suc, ℤ, pos, map, [], ◌∷◌, length, nat_eq};
ghost use Rattle.std.specs.Ordering.{int_eq};
ghost use Rattle.std.specs.Cmp.Lexicographic.{pointwise};
ghost use Rattle.td_typecode.specs.Kinds.{number_of};
ghost use Rattle.td_typecode.specs.Labels.{label_of};
ghost use Rattle.td_typecode.specs.Same.{heads_agree, ids_agree, label_number, labels_in, row, arm_entry};
ghost use Rattle.td_typecode.specs.Same.{alike_along, empty, member_entry};
ghost use Rattle.td_typecode.specs.declared.kinds.CodeKind.TheVariants as kind;
ghost use Rattle.td_sameness.specs.Graphs.{parts_agree};

use tc_graph::{Node, Whole};
use td_typecode::{Arm, CodeKind, Label, Member, label_of};

/// Whether a node has this kind, and an id that agrees.
pub(crate) fn is_headed(node: &Node, kind: CodeKind, id: &[u8]) -> bool
    ensures { result ≡ heads_agree (number_of kind) id.now node.now }
{
    kind.number() == node.kind && ids_agree(id, node.id.as_slice())
}

/// Whether a node has a name, and so many others: of its members, its arms or its values.
pub(crate) fn is_named(node: &Node, others: usize) -> bool
    ensures { result ≡ nat_eq (suc others) (length node.now.names) }
{
    match node.names.as_slice() {
        [_own, rest @ ..] => others == rest.len(),
        _ => false,
    }
}

/// Whether a node has no names.
pub(crate) fn is_nameless(node: &Node) -> bool
    ensures { result ≡ nat_eq 0 (length node.now.names) }
{
    node.names.as_slice().is_empty()
}

/// Whether a node has no edges.
pub(crate) fn is_leaf(graph: &Whole, node: &Node) -> bool
    ensures { result ≡ alike_along graph.now empty node.now.edges }
{
    node.edges.as_slice().is_empty()
}

/// Whether the ids are equal or one of them is empty.
pub(crate) fn ids_agree(a: &[u8], b: &[u8]) -> bool
    ensures { result ≡ ids_agree a.now b.now }
{
    a.is_empty() || b.is_empty() || a == b
}

/// Whether a node has no numbers.
pub(crate) fn has_none(node: &Node) -> bool
    ensures { result ≡ pointwise int_eq [] node.now.numbers }
{
    node.numbers.as_slice().is_empty()
}

/// Whether a node has this number alone: a bound or a length.
pub(crate) fn has_one(node: &Node, number: u32) -> bool
    ensures { result ≡ pointwise int_eq (pos number ∷ []) node.now.numbers }
{
    match node.numbers.as_slice() {
        [only] => i128::from(number) == *only,
        _ => false,
    }
}

/// Whether a node has this kind, an id that agrees, a name for each member and its own, and no numbers.
pub(crate) fn has_members(node: &Node, kind: CodeKind, id: &[u8], members: &[Member]) -> bool
    ensures { result ≡ parts_agree (number_of kind) [] id.now (row (map member_entry members.now))
        node.now }
{
    if !is_headed(node, kind, id) {
        return false;
    }
    if !is_named(node, members.len()) {
        return false;
    }
    has_none(node)
}

/// Whether a node is a union with an id that agrees, a name for each arm and its own, this default index
/// and the labels of the arms.
pub(crate) fn has_arms(node: &Node, id: &[u8], default: &i32, arms: &[Arm]) -> bool
    ensures { result ≡ parts_agree (number_of kind.Union)
        (default.now ∷ []) id.now (row (map arm_entry arms.now)) node.now }
{
    if !is_headed(node, CodeKind::Union, id) {
        return false;
    }
    if !is_named(node, arms.len()) {
        return false;
    }
    has_labels(node, default, arms)
}

/// Whether a node has this default index, and then the labels of the arms.
fn has_labels(node: &Node, default: &i32, arms: &[Arm]) -> bool
    ensures { result ≡ pointwise int_eq (default.now ∷ labels_in (row (map arm_entry arms.now)))
        node.now.numbers }
{
    match node.numbers.as_slice() {
        [first, labels @ ..] => i128::from(*default) == *first && are_labels(arms, labels),
        _ => false,
    }
}

/// Whether these are the labels of the arms, in order.
fn are_labels(arms: &[Arm], labels: &[i128]) -> bool
    ensures { result ≡ pointwise int_eq (labels_in (row (map arm_entry arms.now))) labels.now }
{
    if arms.len() != labels.len() {
        return false;
    }
    for i in 0..arms.len() {
        if !is_labelled(&arms[i], &labels[i]) {
            return false;
        }
    }
    true
}

/// Whether the label of an arm is spelled by the number.
fn is_labelled(arm: &Arm, number: &i128) -> bool
    ensures { result ≡ int_eq (pos (label_number (label_of arm.now.label))) number.now }
{
    is_number(label_of(&arm.label), number)
}

/// Whether a label is spelled by the number.
fn is_number(label: Label, number: &i128) -> bool
    ensures { result ≡ int_eq (pos (label_number label)) number.now }
{
    label_number(label) == *number
}

/// The number that spells a label.
fn label_number(label: Label) -> i128
    ensures { result ≡ pos (label_number label) }
{
    match label {
        Label::One(n) => i128::from(n),
        Label::Two(n) => i128::from(n),
        Label::Four(n) => i128::from(n),
        Label::Eight(n) => i128::from(n),
    }
}
