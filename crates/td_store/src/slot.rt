//! What stands at a place.

ghost use Rattle.std.specs.Prelude.{◌≡◌, Some, IsSome, option_copied};
ghost use Rattle.std.specs.Borrow.{Lends, sem};
ghost use Rattle.td_store.specs.Slots.{value_of};

/// A value, or nothing.
#[derive(Drop)]
pub(crate) enum Slot<T> {
    Vacant,
    Occupied(T),
}

impl<T> Slot<T> {
    ghost use Rattle.td_store.specs.contracts.slot.Slot.{the_row};

    /// Its value.
    pub(crate) fn value(&self) -> Option<&T>
        ensures { option_copied result ≡ value_of self.now }
    {
        match self {
            Slot::Occupied(value) => Some(value),
            Slot::Vacant => None,
        }
    }

    /// The value, for writing.
    pub(crate) fn value_mut(&mut self) -> &mut T
        requires { IsSome (value_of self.old) }
        ensures* lends { sem 𝓛 (Lends (the_row T.row) T.row self.entry result Slot.Occupied) }
        ensures value { value_of self.old ≡ Some result.now }
    {
        match self {
            Slot::Occupied(value) => value,
            Slot::Vacant => unreachable!(),
        }
    }

    /// Takes the value out.
    pub(crate) fn take(&mut self) -> Option<T>
        ensures value { result ≡ value_of self.old }
        ensures after { self.new ≡ Slot.Vacant }
    {
        match std::mem::replace(self, Slot::Vacant) {
            Slot::Occupied(value) => Some(value),
            Slot::Vacant => None,
        }
    }

    /// Its value, which is there.
    pub(crate) fn into_value(self) -> T
        requires { IsSome (value_of self) }
        ensures { value_of self ≡ Some result }
    {
        match self {
            Slot::Occupied(value) => value,
            Slot::Vacant => unreachable!(),
        }
    }

    /// Puts a value where there is none.
    pub(crate) fn fill(&mut self, value: T)
        requires { value_of self.old ≡ None }
        ensures { self.new ≡ Slot.Occupied value }
    {
        match std::mem::replace(self, Slot::Occupied(value)) {
            Slot::Vacant => (),
            Slot::Occupied(_) => unreachable!(),
        }
    }
}
