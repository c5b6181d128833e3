//! The numbers that spell plain values, among them the labels of a union's arms.

ghost use Rattle.std.specs.Prelude.{◌≡◌};
ghost use Rattle.td_typecode.specs.declared.code.Value.{out-Value};
ghost use Rattle.td_typecode.specs.Labels.{label_of, same_label};

use crate::code::Value;

/// The number that spells a plain value, by how many bytes it has. A signed number is that of its bits.
#[derive(Clone, Copy)]
pub enum Label {
    One(u8),
    Two(u16),
    Four(u32),
    Eight(u64),
}

/// The number that spells a plain value; any other one is taken as the octet 0.
pub fn label_of(v: &Value) -> Label
    ensures { result ≡ label_of v.now }
{
    match v {
        Value::Short(n) => Label::Two(n.cast_unsigned()),
        Value::Long(n) => Label::Four(n.cast_unsigned()),
        Value::UShort(n) => Label::Two(*n),
        Value::ULong(n) => Label::Four(*n),
        Value::LongLong(n) => Label::Eight(n.cast_unsigned()),
        Value::ULongLong(n) => Label::Eight(*n),
        Value::Boolean(b) => Label::One(u8::from(*b)),
        Value::Char(c) => Label::One(*c),
        Value::Octet(o) => Label::One(*o),
        Value::Enum(n) => Label::Four(*n),
        _ => Label::One(0),
    }
}

/// Whether two labels are spelled alike.
pub fn same_label(a: Label, b: Label) -> bool
    ensures { result ≡ same_label a b }
{
    match (a, b) {
        (Label::One(x), Label::One(y)) => x == y,
        (Label::Two(x), Label::Two(y)) => x == y,
        (Label::Four(x), Label::Four(y)) => x == y,
        (Label::Eight(x), Label::Eight(y)) => x == y,
        _ => false,
    }
}
