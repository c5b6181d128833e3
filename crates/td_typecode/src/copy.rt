//! Copies of TypeCodes and values, equal to what they are made from.

ghost use Rattle.std.specs.Prelude.{◌≡◌, IfOk};
ghost use Rattle.td_typecode.specs.declared.code.TypeCode.TheVariants as code;
ghost use Rattle.td_typecode.specs.declared.code.Value.TheVariants as variant;

use crate::code::{Any, Arm, Member, TypeCode, Value};
use std::alloc::Global;
use tc_graph::Whole;
use td_cdr::{Boxed, List, Memory, Text, Twin, copy_three, copy_two};

impl Twin for Member {
    #[cycle(copy)]
    fn copy(&self, alloc: Global) -> Result<Member, Memory> {
        let name = self.name.copy(alloc)?;
        let code = self.code.copy(alloc)?;
        Ok(Member { name, code })
    }
}

impl Twin for Arm {
    #[cycle(copy)]
    fn copy(&self, alloc: Global) -> Result<Arm, Memory> {
        let name = self.name.copy(alloc)?;
        let label = self.label.copy(alloc)?;
        match self.code.copy(alloc) {
            Ok(code) => Ok(Arm { label, name, code }),
            Err(memory) => {
                drop(label);
                Err(memory)
            }
        }
    }
}

impl Twin for TypeCode {
    #[cycle(copy)]
    fn copy(&self, alloc: Global) -> Result<TypeCode, Memory> {
        match self {
            TypeCode::Null => Ok(TypeCode::Null),
            TypeCode::Void => Ok(TypeCode::Void),
            TypeCode::Short => Ok(TypeCode::Short),
            TypeCode::Long => Ok(TypeCode::Long),
            TypeCode::UShort => Ok(TypeCode::UShort),
            TypeCode::ULong => Ok(TypeCode::ULong),
            TypeCode::Boolean => Ok(TypeCode::Boolean),
            TypeCode::Char => Ok(TypeCode::Char),
            TypeCode::Octet => Ok(TypeCode::Octet),
            TypeCode::AnyCode => Ok(TypeCode::AnyCode),
            TypeCode::Code => Ok(TypeCode::Code),
            TypeCode::LongLong => Ok(TypeCode::LongLong),
            TypeCode::ULongLong => Ok(TypeCode::ULongLong),
            TypeCode::Str { bound } => Ok(TypeCode::Str { bound: *bound }),
            TypeCode::ObjRef { id, name } => copy_object(alloc, id, name),
            TypeCode::Struct { id, name, members } => {
                copy_struct(alloc, id, name, members.as_slice())
            }
            TypeCode::Union {
                id,
                name,
                switch,
                default,
                arms,
            } => {
                let switch = copy_boxed(alloc, switch.get())?;
                let arms = copy_arms(alloc, arms.as_slice())?;
                copy_union(alloc, id, name, switch, *default, arms)
            }
            TypeCode::Enum { id, name, labels } => copy_enum(alloc, id, name, labels),
            TypeCode::Sequence { item, bound } => Ok(TypeCode::Sequence {
                item: copy_boxed(alloc, item.get())?,
                bound: *bound,
            }),
            TypeCode::Array { item, len } => Ok(TypeCode::Array {
                item: copy_boxed(alloc, item.get())?,
                len: *len,
            }),
            TypeCode::Alias { id, name, item } => copy_alias(alloc, id, name, item.get()),
            TypeCode::Except { id, name, members } => {
                copy_except(alloc, id, name, members.as_slice())
            }
            TypeCode::Linked(graph) => copy_graph(alloc, graph),
        }
    }
}

#[cycle(copy)]
fn copy_boxed(alloc: Global, code: &TypeCode) -> Result<Boxed<TypeCode>, Memory>
    ensures { IfOk result (λ twin. twin ≡ code.now) }
{
    let twin = code.copy(alloc)?;
    Boxed::new(alloc, twin)
}

fn copy_object(alloc: Global, id: &Boxed<Text>, name: &Boxed<Text>) -> Result<TypeCode, Memory>
    ensures { IfOk result (λ twin. twin ≡ code.ObjRef id.now name.now) }
{
    let (id, name) = copy_two(alloc, id, name)?;
    Ok(TypeCode::ObjRef { id, name })
}

fn copy_graph(alloc: Global, graph: &Whole) -> Result<TypeCode, Memory>
    ensures { IfOk result (λ twin. twin ≡ code.Linked graph.now) }
{
    match graph.copy(alloc) {
        Ok(twin) => Ok(TypeCode::Linked(twin)),
        Err(_fault) => Err(Memory),
    }
}

fn copy_enum(
    alloc: Global,
    id: &Boxed<Text>,
    name: &Boxed<Text>,
    labels: &Boxed<List<Text>>,
) -> Result<TypeCode, Memory>
    ensures { IfOk result (λ twin. twin ≡ code.Enum id.now name.now labels.now) }
{
    let (id, (name, labels)) = copy_three(alloc, id, name, labels)?;
    Ok(TypeCode::Enum { id, name, labels })
}

/// A union's TypeCode, of the copies of its discriminator's type and of its arms.
fn copy_union(
    alloc: Global,
    id: &Boxed<Text>,
    name: &Boxed<Text>,
    switch: Boxed<TypeCode>,
    default: i32,
    arms: Boxed<List<Arm>>,
) -> Result<TypeCode, Memory>
    ensures { IfOk result (λ twin. twin ≡ code.Union id.now name.now switch default arms) }
{
    let (id, name) = copy_two(alloc, id, name)?;
    Ok(TypeCode::Union {
        id,
        name,
        switch,
        default,
        arms,
    })
}

#[cycle(copy)]
fn copy_struct(
    alloc: Global,
    id: &Boxed<Text>,
    name: &Boxed<Text>,
    members: &[Member],
) -> Result<TypeCode, Memory>
    ensures { IfOk result (λ twin. twin ≡ code.Struct id.now name.now members.now) }
{
    let members = copy_members(alloc, members)?;
    let (id, name) = copy_two(alloc, id, name)?;
    Ok(TypeCode::Struct { id, name, members })
}

#[cycle(copy)]
fn copy_except(
    alloc: Global,
    id: &Boxed<Text>,
    name: &Boxed<Text>,
    members: &[Member],
) -> Result<TypeCode, Memory>
    ensures { IfOk result (λ twin. twin ≡ code.Except id.now name.now members.now) }
{
    let members = copy_members(alloc, members)?;
    let (id, name) = copy_two(alloc, id, name)?;
    Ok(TypeCode::Except { id, name, members })
}

#[cycle(copy)]
fn copy_alias(
    alloc: Global,
    id: &Boxed<Text>,
    name: &Boxed<Text>,
    item: &TypeCode,
) -> Result<TypeCode, Memory>
    ensures { IfOk result (λ twin. twin ≡ code.Alias id.now name.now item.now) }
{
    let item = copy_boxed(alloc, item)?;
    let (id, name) = copy_two(alloc, id, name)?;
    Ok(TypeCode::Alias { id, name, item })
}

#[cycle(copy)]
fn copy_members(alloc: Global, members: &[Member]) -> Result<Boxed<List<Member>>, Memory>
    ensures { IfOk result (λ twin. twin ≡ members.now) }
{
    let mut twin = List::new(alloc);
    for member in members {
        twin.push(member.copy(alloc)?)?;
    }
    Boxed::new(alloc, twin)
}

#[cycle(copy)]
fn copy_arms(alloc: Global, arms: &[Arm]) -> Result<Boxed<List<Arm>>, Memory>
    ensures { IfOk result (λ twin. twin ≡ arms.now) }
{
    let mut twin = List::new(alloc);
    for arm in arms {
        twin.push(arm.copy(alloc)?)?;
    }
    Boxed::new(alloc, twin)
}

#[cycle(copy)]
fn copy_values(alloc: Global, values: &[Value]) -> Result<List<Value>, Memory>
    ensures { IfOk result (λ twin. twin ≡ values.now) }
{
    let mut twin = List::with_room(alloc, values.len())?;
    for value in values {
        twin.push(value.copy(alloc)?)?;
    }
    Ok(twin)
}

impl Twin for Value {
    #[cycle(copy)]
    fn copy(&self, alloc: Global) -> Result<Value, Memory> {
        match self {
            Value::Empty => Ok(Value::Empty),
            Value::Short(n) => Ok(Value::Short(*n)),
            Value::Long(n) => Ok(Value::Long(*n)),
            Value::UShort(n) => Ok(Value::UShort(*n)),
            Value::ULong(n) => Ok(Value::ULong(*n)),
            Value::Boolean(b) => Ok(Value::Boolean(*b)),
            Value::Char(c) => Ok(Value::Char(*c)),
            Value::Octet(o) => Ok(Value::Octet(*o)),
            Value::LongLong(n) => Ok(Value::LongLong(*n)),
            Value::ULongLong(n) => Ok(Value::ULongLong(*n)),
            Value::Str(text) => Ok(Value::Str(text.copy(alloc)?)),
            Value::AnyValue(any) => copy_any(alloc, any.get()),
            Value::Code(code) => Ok(Value::Code(copy_boxed(alloc, code.get())?)),
            Value::ObjRef(reference) => Ok(Value::ObjRef(reference.copy(alloc)?)),
            Value::Struct(values) => Ok(Value::Struct(copy_values(alloc, values.as_slice())?)),
            Value::Union { label, arm } => {
                let label = copy_boxed_value(alloc, label.get())?;
                match arm {
                    None => Ok(Value::Union { label, arm: None }),
                    Some(value) => {
                        let value = copy_boxed_value(alloc, value.get())?;
                        Ok(Value::Union {
                            label,
                            arm: Some(value),
                        })
                    }
                }
            }
            Value::Enum(n) => Ok(Value::Enum(*n)),
            Value::Items(values) => Ok(Value::Items(copy_values(alloc, values.as_slice())?)),
        }
    }
}

#[cycle(copy)]
fn copy_any(alloc: Global, any: &Any) -> Result<Value, Memory>
    ensures { IfOk result (λ twin. twin ≡ variant.AnyValue any.now) }
{
    let any = any.copy(alloc)?;
    Ok(Value::AnyValue(Boxed::new(alloc, any)?))
}

#[cycle(copy)]
fn copy_boxed_value(alloc: Global, value: &Value) -> Result<Boxed<Value>, Memory>
    ensures { IfOk result (λ twin. twin ≡ value.now) }
{
    let twin = value.copy(alloc)?;
    Boxed::new(alloc, twin)
}

impl Twin for Any {
    #[cycle(copy)]
    fn copy(&self, alloc: Global) -> Result<Any, Memory> {
        let code = self.code.copy(alloc)?;
        match self.value.copy(alloc) {
            Ok(value) => Ok(Any { code, value }),
            Err(memory) => {
                drop(code);
                Err(memory)
            }
        }
    }
}
