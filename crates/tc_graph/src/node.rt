//! The nodes of a graph.

ghost use Rattle.std.specs.Prelude.{◌≡◌, IfOk, IfErr};

use crate::fault::GraphFault;
use crate::list::List;
use std::alloc::Global;

/// A repository id or a name, as its bytes without the closing NUL.
pub type Name = List<u8>;

/// Names, in order.
pub type Names = List<Name>;

/// A bound, a length, a default index or labels, in order.
pub type Numbers = List<i128>;

/// Places of nodes, in order.
pub type Edges = List<u32>;

/// A TypeCode, with the places of those that it holds (CORBA's chapter on the interface repository,
/// "TypeCodes").
#[derive(Debug)]
pub struct Node {
    /// The number of its TCKind. A node of the kind 21, tk_alias, is another name for the node that its
    /// one edge leads to.
    pub kind: u32,
    /// Its repository id, or empty where it has none.
    pub id: Name,
    /// Its own name, then those of its members.
    pub names: Names,
    /// The bound of a string or sequence or the length of an array; or the default index of a union and
    /// the labels of its arms.
    pub numbers: Numbers,
    /// The places of the TypeCodes that it holds: a discriminator first, then those of its members, or
    /// that of its items.
    pub edges: Edges,
}

// By hand, since a derived drop is written out at each exit, and proved again in each crate above.
impl Drop for Node {
    fn drop(self) {
        let Node {
            kind: _kind,
            id: _id,
            names: _names,
            numbers: _numbers,
            edges: _edges,
        } = self;
    }
}

/// The names in order, copied.
fn names_copy(alloc: Global, names: &[Name]) -> Result<Names, GraphFault>
    ensures value { IfOk result (λ twin. twin ≡ names.now) }
    ensures err { IfErr result (λ e. e ≡ GraphFault.Memory) }
{
    let mut twin = List::new(alloc);
    for name in names {
        twin.push(List::from_slice(alloc, name.as_slice())?)?;
    }
    Ok(twin)
}

impl Node {
    /// A copy of the node.
    ///
    /// # Errors
    ///
    /// `Memory` only when out of memory.
    pub fn copy(&self, alloc: Global) -> Result<Node, GraphFault>
        ensures value { IfOk result (λ twin. twin ≡ self.now) }
        ensures err { IfErr result (λ e. e ≡ GraphFault.Memory) }
    {
        Ok(Node {
            kind: self.kind,
            id: List::from_slice(alloc, self.id.as_slice())?,
            names: names_copy(alloc, self.names.as_slice())?,
            numbers: List::from_slice(alloc, self.numbers.as_slice())?,
            edges: List::from_slice(alloc, self.edges.as_slice())?,
        })
    }
}
