//! A TypeCode without the aliases in front of it.

ghost use Rattle.std.specs.Prelude.{◌≡◌, false};
ghost use Rattle.td_typecode.specs.declared.code.TypeCode.{out-TypeCode};
ghost use Rattle.td_typecode.specs.Same.{shape, is_alias};

use crate::code::TypeCode;

/// The TypeCode under its aliases.
pub fn bare(code: &TypeCode) -> &TypeCode
    ensures same { shape result.now ≡ shape code.now }
    ensures bare { is_alias (out-TypeCode result.now) ≡ false }
{
    match code {
        TypeCode::Alias { item, .. } => bare(item.get()),
        _ => code,
    }
}
