//! Dynamic properties of offers (OMG's Trading Object Service, module CosTradingDynamic).

ghost use Rattle.std.specs.Prelude.{◌≡◌, [], ◌∷◌, ◌++◌, codes, IfOk, OnOk};
ghost use Rattle.td_typecode.specs.declared.code.TypeCode.TheVariants as code;
ghost use Rattle.td_typecode.specs.declared.code.Value.TheVariants as value;
ghost use Rattle.td_lines.specs.Causes.{ParsesLine};
ghost use Rattle.td_forms.specs.Types.{code_of};
ghost use Rattle.td_lines.specs.Properties.{dynamic_any, dynamic_code, parse_dynamic, evaluator_code, member, null_any};

use crate::cause::{LineCause, Misfit};
use crate::properties::property_named_as;
use crate::references::parse_reference;
use std::alloc::Global;
use td_cdr::{Boxed, List, Memory, Text};
use td_forms::{ValueType, code_of, value_type_of};
use td_value::{Any, Ior, Member, Property, TypeCode, Value};

fn evaluator_code(alloc: Global) -> Result<TypeCode, Memory>
    ensures { IfOk result (λ c. c ≡ evaluator_code) }
{
    let id = <Boxed<Text>>::from_slice(
        alloc,
        b"IDL:omg.org/CosTradingDynamic/DynamicPropEval:1.0",
    )?;
    let name = <Boxed<Text>>::from_slice(alloc, b"DynamicPropEval")?;
    Ok(TypeCode::ObjRef { id, name })
}

/// Puts a member behind these.
fn put_member(
    alloc: Global,
    members: &mut List<Member>,
    name: &[u8],
    kind: TypeCode,
) -> Result<(), Memory>
    ensures { OnOk result (members.new ≡ members.old ++ member name.now kind ∷ []) }
{
    match Text::from_slice(alloc, name) {
        Ok(name) => members.push(Member { name, code: kind }),
        Err(memory) => {
            drop(kind);
            Err(memory)
        }
    }
}

fn dynamic_members(alloc: Global) -> Result<Boxed<List<Member>>, Memory>
    ensures { IfOk result (λ m. m ≡ member (codes "eval_if") evaluator_code
        ∷ member (codes "returned_type") code.Code ∷ member (codes "extra_info") code.AnyCode
        ∷ []) }
{
    let mut members = List::new(alloc);
    put_member(alloc, &mut members, b"eval_if", evaluator_code(alloc)?)?;
    put_member(alloc, &mut members, b"returned_type", TypeCode::Code)?;
    put_member(alloc, &mut members, b"extra_info", TypeCode::AnyCode)?;
    Boxed::new(alloc, members)
}

/// The TypeCode of a DynamicProp.
fn dynamic_code(alloc: Global) -> Result<TypeCode, Memory>
    ensures { IfOk result (λ c. c ≡ dynamic_code) }
{
    let id = <Boxed<Text>>::from_slice(alloc, b"IDL:omg.org/CosTradingDynamic/DynamicProp:1.0")?;
    let name = <Boxed<Text>>::from_slice(alloc, b"DynamicProp")?;
    let members = dynamic_members(alloc)?;
    Ok(TypeCode::Struct { id, name, members })
}

fn code_value(alloc: Global, value_type: ValueType) -> Result<Value, Memory>
    ensures { IfOk result (λ v. v ≡ value.Code (code_of value_type)) }
{
    let code = Boxed::new(alloc, code_of(alloc, value_type)?)?;
    Ok(Value::Code(code))
}

fn null_value(alloc: Global) -> Result<Value, Memory>
    ensures { IfOk result (λ v. v ≡ value.AnyValue null_any) }
{
    let any = Any {
        code: TypeCode::Null,
        value: Value::Empty,
    };
    let any = Boxed::new(alloc, any)?;
    Ok(Value::AnyValue(any))
}

/// The values of the members.
fn dynamic_values(
    alloc: Global,
    evaluator: Ior,
    value_type: ValueType,
) -> Result<List<Value>, Memory>
    ensures { IfOk result (λ v. v ≡ value.ObjRef evaluator ∷ value.Code (code_of value_type)
        ∷ value.AnyValue null_any ∷ []) }
{
    let evaluator = Boxed::new(alloc, evaluator)?;
    let mut values = List::new(alloc);
    values.push(Value::ObjRef(evaluator))?;
    values.push(code_value(alloc, value_type)?)?;
    values.push(null_value(alloc)?)?;
    Ok(values)
}

/// A DynamicProp with a null extra_info.
fn dynamic_any(alloc: Global, evaluator: Ior, value_type: ValueType) -> Result<Any, Memory>
    ensures { IfOk result (λ any. any ≡ dynamic_any evaluator (code_of value_type)) }
{
    let values = dynamic_values(alloc, evaluator, value_type)?;
    let code = dynamic_code(alloc)?;
    Ok(Any {
        code,
        value: Value::Struct(values),
    })
}

/// The property of an offer that a `dynamic` line gives.
pub(crate) fn parse_dynamic(
    alloc: Global,
    value_type: &[u8],
    name: &[u8],
    word: &[u8],
) -> Result<Property, Misfit>
    ensures { ParsesLine (parse_dynamic value_type.now name.now word.now) result }
{
    let Some(value_type) = value_type_of(value_type) else {
        return Err(Misfit::Is(LineCause::Name));
    };
    let evaluator = parse_reference(alloc, word)?;
    let any = dynamic_any(alloc, evaluator, value_type)?;
    let property = property_named_as(alloc, name, any)?;
    Ok(property)
}
