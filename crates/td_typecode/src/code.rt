//! TypeCodes and the values under them (CORBA's chapter on the interface repository, "TypeCodes").

use crate::reference::Ior;
use tc_graph::Whole;
use td_cdr::{Boxed, List, Text};

/// A member of a structure or of an exception.
#[cycle(code)]
pub struct Member {
    pub name: Text,
    pub code: TypeCode,
}

/// An arm of a union.
#[cycle(code)]
pub struct Arm {
    /// The discriminator's value that chooses the arm. The default arm's has no meaning.
    pub label: Value,
    pub name: Text,
    pub code: TypeCode,
}

/// The type of a value. Most are of a kind that has few parameters or none, so the others have theirs in
/// blocks of their own, which keeps an any small.
#[cycle(code)]
pub enum TypeCode {
    Null,
    Void,
    Short,
    Long,
    UShort,
    ULong,
    Boolean,
    Char,
    Octet,
    /// The type of an any.
    AnyCode,
    /// The type of a TypeCode.
    Code,
    LongLong,
    ULongLong,
    /// A string of at most `bound` bytes; 0 is no bound.
    Str {
        bound: u32,
    },
    /// An object reference to an interface of this repository id.
    ObjRef {
        id: Boxed<Text>,
        name: Boxed<Text>,
    },
    Struct {
        id: Boxed<Text>,
        name: Boxed<Text>,
        members: Boxed<List<Member>>,
    },
    Union {
        id: Boxed<Text>,
        name: Boxed<Text>,
        /// The type of the discriminator.
        switch: Boxed<TypeCode>,
        /// The index of the default arm, or -1.
        default: i32,
        arms: Boxed<List<Arm>>,
    },
    Enum {
        id: Boxed<Text>,
        name: Boxed<Text>,
        /// The names of the values, which are numbered from 0.
        labels: Boxed<List<Text>>,
    },
    /// A sequence of at most `bound` items; 0 is no bound.
    Sequence {
        item: Boxed<TypeCode>,
        bound: u32,
    },
    /// An array of exactly `len` items.
    Array {
        item: Boxed<TypeCode>,
        len: u32,
    },
    /// Another name for a type.
    Alias {
        id: Boxed<Text>,
        name: Boxed<Text>,
        item: Boxed<TypeCode>,
    },
    /// The type of an exception.
    Except {
        id: Boxed<Text>,
        name: Boxed<Text>,
        members: Boxed<List<Member>>,
    },
    /// A type that is spelled with indirections, and so may hold itself, as a graph. It stands in
    /// no other TypeCode; one that a caller puts there all the same is written as nothing.
    Linked(Whole),
}

/// A value. Its TypeCode tells the type that it is a value of.
#[cycle(code)]
pub enum Value {
    /// The value of null and of void.
    Empty,
    Short(i16),
    Long(i32),
    UShort(u16),
    ULong(u32),
    Boolean(bool),
    Char(u8),
    Octet(u8),
    LongLong(i64),
    ULongLong(u64),
    Str(Text),
    AnyValue(Boxed<Any>),
    Code(Boxed<TypeCode>),
    ObjRef(Boxed<Ior>),
    /// The members' values in order.
    Struct(List<Value>),
    Union {
        /// The discriminator.
        label: Boxed<Value>,
        /// The value of the chosen arm, where there is one.
        arm: Option<Boxed<Value>>,
    },
    /// The number of one of an enumeration's names, from 0.
    Enum(u32),
    /// The items of a sequence or of an array.
    Items(List<Value>),
}

/// A value with its type.
#[cycle(code)]
pub struct Any {
    pub code: TypeCode,
    pub value: Value,
}

impl Member {
    ghost use Rattle.std.specs.Prelude.{◌≡◌};

    /// The arm that has this name and type, under a label.
    pub(crate) fn labelled(self, label: Value) -> Arm
        ensures { result ≡ record { label = label; name = self.name; code = self.code } }
    {
        let Member { name, code } = self;
        Arm { label, name, code }
    }
}

// By hand, since a derived drop is written out at each exit, and proved again in each crate above.
impl Drop for Member {
    #[cycle(letting_go)]
    fn drop(self) {
        let Member {
            name: _name,
            code: _code,
        } = self;
    }
}

impl Drop for Arm {
    #[cycle(letting_go)]
    fn drop(self) {
        let Arm {
            label: _label,
            name: _name,
            code: _code,
        } = self;
    }
}

impl Drop for Any {
    #[cycle(letting_go)]
    fn drop(self) {
        let Any {
            code: _code,
            value: _value,
        } = self;
    }
}

impl Drop for TypeCode {
    #[cycle(letting_go)]
    fn drop(self) {
        match self {
            TypeCode::Null => (),
            TypeCode::Void => (),
            TypeCode::Short => (),
            TypeCode::Long => (),
            TypeCode::UShort => (),
            TypeCode::ULong => (),
            TypeCode::Boolean => (),
            TypeCode::Char => (),
            TypeCode::Octet => (),
            TypeCode::AnyCode => (),
            TypeCode::Code => (),
            TypeCode::LongLong => (),
            TypeCode::ULongLong => (),
            TypeCode::Str { bound: _bound } => (),
            TypeCode::ObjRef {
                id: _id,
                name: _name,
            } => (),
            TypeCode::Struct {
                id: _id,
                name: _name,
                members: _members,
            } => (),
            TypeCode::Union {
                id: _id,
                name: _name,
                switch: _switch,
                default: _default,
                arms: _arms,
            } => (),
            TypeCode::Enum {
                id: _id,
                name: _name,
                labels: _labels,
            } => (),
            TypeCode::Sequence {
                item: _item,
                bound: _bound,
            } => (),
            TypeCode::Array {
                item: _item,
                len: _len,
            } => (),
            TypeCode::Alias {
                id: _id,
                name: _name,
                item: _item,
            } => (),
            TypeCode::Except {
                id: _id,
                name: _name,
                members: _members,
            } => (),
            TypeCode::Linked(_graph) => (),
        }
    }
}

impl Drop for Value {
    #[cycle(letting_go)]
    fn drop(self) {
        match self {
            Value::Empty => (),
            Value::Short(_n) => (),
            Value::Long(_n) => (),
            Value::UShort(_n) => (),
            Value::ULong(_n) => (),
            Value::Boolean(_n) => (),
            Value::Char(_n) => (),
            Value::Octet(_n) => (),
            Value::LongLong(_n) => (),
            Value::ULongLong(_n) => (),
            Value::Str(_text) => (),
            Value::AnyValue(_any) => (),
            Value::Code(_code) => (),
            Value::ObjRef(_reference) => (),
            Value::Struct(_items) => (),
            Value::Union {
                label: _label,
                arm: _arm,
            } => (),
            Value::Enum(_n) => (),
            Value::Items(_items) => (),
        }
    }
}
