//! What names are made of, and what is bound under them.

ghost use Rattle.std.proofs.Common.{rules};
ghost use Rattle.std.specs.Cmp.Rules.{comparing, hashing};
ghost use Rattle.std.specs.Hash as fed;
ghost use Rattle.std.specs.Prelude.{◌++◌};
ghost use Rattle.td_names.specs.Stores.{same_component};

use std::alloc::Global;
use std::hash::{Hash, Hasher};
use td_cdr::{Memory, Text, Twin, copy_two};
use td_typecode::Ior;

/// One component of a name (OMG's Naming Service, CosNaming::NameComponent). Two are the same where both texts are,
/// byte by byte.
pub struct NameComponent {
    pub id: Text,
    pub kind: Text,
}

// By hand, since a derived drop is written out at each exit, and proved again in each crate above.
impl Drop for NameComponent {
    fn drop(self) {
        let NameComponent {
            id: _id,
            kind: _kind,
        } = self;
    }
}

impl PartialEq for NameComponent {
    ghost eq = { same_component };

    ghost laws = { Prim.search (comparing, rules) };

    fn eq(&self, other: &NameComponent) -> bool {
        self.id.as_slice() == other.id.as_slice() && self.kind.as_slice() == other.kind.as_slice()
    }
}

impl Eq for NameComponent {
    ghost laws = { Prim.search (comparing, rules) };
}

impl Hash for NameComponent {
    ghost hash_input = { λ c. fed.slice fed.u8 c.id ++ fed.slice fed.u8 c.kind };

    ghost respects_eq = { Prim.search (hashing, rules) };

    fn hash<H: Hasher>(&self, state: &mut H) {
        self.id.as_slice().hash(state);
        self.kind.as_slice().hash(state);
    }
}

impl Twin for NameComponent {
    fn copy(&self, alloc: Global) -> Result<NameComponent, Memory> {
        let (id, kind) = copy_two(alloc, &self.id, &self.kind)?;
        Ok(NameComponent { id, kind })
    }
}

/// What a listing tells of a binding (CosNaming::Binding).
pub struct NameBinding {
    /// The component under which it stands, which is the whole of the binding's name.
    pub name: NameComponent,
    /// Whether it is bound as a context (BindingType `ncontext`), else as an object (`nobject`).
    pub context: bool,
}

// By hand, as that of a component.
impl Drop for NameBinding {
    fn drop(self) {
        let NameBinding {
            name: _name,
            context: _context,
        } = self;
    }
}

/// What is bound under a component.
pub struct Bound {
    /// Whether names go on through it.
    pub(crate) context: bool,
    pub(crate) object: Ior,
}

// By hand, as that of a component.
impl Drop for Bound {
    fn drop(self) {
        let Bound {
            context: _context,
            object: _object,
        } = self;
    }
}
