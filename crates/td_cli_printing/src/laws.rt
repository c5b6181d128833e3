//! Laws of what is printed.

ghost use Rattle.std.specs.Prelude.{◌≡◌, ℕ, List, Some};
ghost use Rattle.td_typecode.specs.declared.code.Value.{Value};
ghost use Rattle.td_forms.specs.Values.{value_of};
ghost use Rattle.td_forms.specs.declared.value_type.ValueType.{ValueType};
ghost use Rattle.td_cli_printing.specs.Values.{value_text};

/// What is printed of a value that a text spells is that text.
#[tactic(auto, using(crate::proofs::Spelled::value_back))]
pub fn values_are_printed_as_they_are_written()
    ensures { (type : ValueType) (text : List ℕ) (v : Value) → value_of type text ≡ Some v
        → value_text v ≡ text }
{}
