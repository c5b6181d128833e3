//! The repository of service types.

ghost use Rattle.std.specs.Prelude.{◌≡◌, [], IfOk};
ghost use Rattle.td_types.specs.Interfaces.{interface_conforms};
ghost use Rattle.td_types.specs.Repository.{IsRepository};

use crate::entries::Entries;
use crate::interfaces::Interfaces;
use std::alloc::Global;
use std::marker::Model;
use td_cdr::{List, Memory, Text};

/// A repository of service types, with the declared interfaces (interface
/// CosTradingRepos::ServiceTypeRepository).
pub struct Types {
    pub(crate) alloc: Global,
    pub(crate) interfaces: Interfaces,
    pub(crate) entries: Entries,
    /// The last incarnation given, 0 before the first.
    pub(crate) last: u64,
}

// By hand, since a derived drop is written out at each exit, and proved again in each crate above.
impl Drop for Types {
    fn drop(self) {
        let Types {
            alloc: _alloc,
            interfaces: _interfaces,
            entries: _entries,
            last: _last,
        } = self;
    }
}

impl Model for Types {
    ghost use Rattle.td_types.specs.Repository.{Repository};
    ghost use Rattle.td_types.specs.Kept.{repository, AreEntries};
    ghost use Rattle.td_typecode.specs.contracts.code.TypeCode as code;
    ghost use Rattle.std.specs.Coded.{codes};

    ghost Value = { Repository };

    ghost coded = { Prim.hlevel (codes, code.the_row.coded) };

    ghost view = { λ t. repository t.entries t.interfaces t.last };

    ghost invariant = { λ t. AreEntries t.entries t.interfaces t.last };
}

impl Types {
    /// The repository with these interfaces and no types. It keeps the allocator.
    ///
    /// # Errors
    ///
    /// `Memory` only when out of memory.
    pub fn new(alloc: Global, interfaces: List<(Text, List<Text>)>) -> Result<Types, Memory>
        ensures empty { IfOk result (λ t. t
            ≡ record { types = []; interfaces = interfaces; last = 0 }) }
        ensures valid { IfOk result IsRepository }
    {
        let interfaces = Interfaces::new(alloc, interfaces)?;
        Ok(Types {
            alloc,
            interfaces,
            entries: Entries::new(alloc),
            last: 0,
        })
    }

    /// Whether one interface conforms to another: they are the same, one of them is empty, or the
    /// declarations lead from the first to the second. Takes no memory.
    pub fn interface_conforms(&self, sub: &[u8], base: &[u8]) -> bool
        ensures { result ≡ interface_conforms self.now.interfaces sub.now base.now }
    {
        self.interfaces.conforms(sub, base)
    }
}
