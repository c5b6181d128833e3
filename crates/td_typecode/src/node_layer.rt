//! What is known of the nodes of a TypeCode with indirections, while it is read.

use crate::code::Value;
use crate::kinds::CodeKind;
use td_cdr::{List, Text};

/// The parameters of a node, with the numbers of nodes in place of the TypeCodes that it holds.
pub(crate) enum NodeLayer {
    /// Those of a kind that has none.
    Leaf,
    Str {
        bound: u32,
    },
    ObjRef {
        id: Text,
        name: Text,
    },
    Enum {
        id: Text,
        name: Text,
        labels: List<Text>,
    },
    /// Those of a structure or of an exception: of each member its name and the number of its node.
    Fields {
        id: Text,
        name: Text,
        members: List<(Text, u32)>,
    },
    /// Those of a union: of each arm its label, its name and the number of its node.
    Union {
        id: Text,
        name: Text,
        switch: u32,
        default: i32,
        arms: List<(Value, (Text, u32))>,
    },
    /// Those of a sequence, with its bound, or of an array, with its length.
    Items {
        item: u32,
        size: u32,
    },
    Alias {
        id: Text,
        name: Text,
        item: u32,
    },
}

/// What discriminates a union: a plain value of a kind, one of so many names, or what may not.
#[derive(Clone, Copy)]
pub(crate) enum Discriminator {
    Plain(CodeKind),
    Names(usize),
    Other,
}

/// A node that was begun.
pub(crate) struct BegunNode {
    /// Where its kind stands, counted from where the outermost TypeCode's places do.
    pub(crate) place: u32,
    pub(crate) kind: CodeKind,
    /// `None` as long as its parameters aren't read whole.
    pub(crate) layer: Option<NodeLayer>,
}

// By hand, since a derived drop is written out at each exit, and proved again in each crate above.
impl Drop for NodeLayer {
    fn drop(self) {
        match self {
            NodeLayer::Leaf => (),
            NodeLayer::Str { bound: _bound } => (),
            NodeLayer::ObjRef {
                id: _id,
                name: _name,
            } => (),
            NodeLayer::Enum {
                id: _id,
                name: _name,
                labels: _labels,
            } => (),
            NodeLayer::Fields {
                id: _id,
                name: _name,
                members: _members,
            } => (),
            NodeLayer::Union {
                id: _id,
                name: _name,
                switch: _switch,
                default: _default,
                arms: _arms,
            } => (),
            NodeLayer::Items {
                item: _item,
                size: _size,
            } => (),
            NodeLayer::Alias {
                id: _id,
                name: _name,
                item: _item,
            } => (),
        }
    }
}

impl Drop for BegunNode {
    fn drop(self) {
        let BegunNode {
            place: _place,
            kind: _kind,
            layer: _layer,
        } = self;
    }
}
