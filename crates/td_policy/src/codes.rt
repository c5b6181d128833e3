//! The TypeCodes of policies, as a trader writes them (OMG's Trading Object Service, "Policies").

ghost use Rattle.std.specs.Prelude.{◌≡◌, IfOk, ◌∷◌, [], codes};
ghost use Rattle.td_typecode.specs.Same.{same};
ghost use Rattle.td_policy.specs.Values.{truth, number, rule, texts, octets};

use std::alloc::Global;
use td_cdr::{Boxed, List, Memory, Text};
use td_sameness::same_tree;
use td_value::TypeCode;

/// The type of a rule for following links, enumeration CosTrading::FollowOption.
///
/// # Errors
///
/// `Memory` only when out of memory.
pub fn rule_code(alloc: Global) -> Result<TypeCode, Memory>
    ensures { IfOk result (λ c. c ≡ rule.code) }
{
    Ok(TypeCode::Enum {
        id: <Boxed<Text>>::from_slice(alloc, b"IDL:omg.org/CosTrading/FollowOption:1.0")?,
        name: <Boxed<Text>>::from_slice(alloc, b"FollowOption")?,
        labels: rule_labels(alloc)?,
    })
}

/// The names of the rules.
fn rule_labels(alloc: Global) -> Result<Boxed<List<Text>>, Memory>
    ensures { IfOk result (λ l. l ≡ codes "local_only" ∷ codes "if_no_local" ∷ codes "always"
        ∷ []) }
{
    let mut labels = List::new(alloc);
    labels.push(Text::from_slice(alloc, b"local_only")?)?;
    labels.push(Text::from_slice(alloc, b"if_no_local")?)?;
    labels.push(Text::from_slice(alloc, b"always")?)?;
    Boxed::new(alloc, labels)
}

/// The type of a sequence of strings without bounds.
///
/// # Errors
///
/// `Memory` only when out of memory.
pub fn texts_code(alloc: Global) -> Result<TypeCode, Memory>
    ensures { IfOk result (λ c. c ≡ (texts 0).code) }
{
    let item = Boxed::new(alloc, TypeCode::Str { bound: 0 })?;
    Ok(TypeCode::Sequence { item, bound: 0 })
}

/// The type of a sequence of octets without bound.
///
/// # Errors
///
/// `Memory` only when out of memory.
pub fn octets_code(alloc: Global) -> Result<TypeCode, Memory>
    ensures { IfOk result (λ c. c ≡ (octets 0).code) }
{
    let item = Boxed::new(alloc, TypeCode::Octet)?;
    Ok(TypeCode::Sequence { item, bound: 0 })
}

/// Whether this is the type of a truth value.
pub(crate) fn is_truth(code: &TypeCode) -> bool
    ensures { result ≡ same code.now truth.code }
{
    same_tree(code, &TypeCode::Boolean)
}

/// Whether this is the type of a number.
pub(crate) fn is_number(code: &TypeCode) -> bool
    ensures { result ≡ same code.now number.code }
{
    same_tree(code, &TypeCode::ULong)
}

/// Whether this is the type of a rule for following links.
///
/// # Errors
///
/// `Memory` only when out of memory.
pub fn is_rule(alloc: Global, code: &TypeCode) -> Result<bool, Memory>
    ensures { IfOk result (λ b. b ≡ same code.now rule.code) }
{
    let expected = rule_code(alloc)?;
    Ok(same_tree(code, &expected))
}

/// Whether this is the type of a sequence of strings.
pub(crate) fn is_texts(alloc: Global, code: &TypeCode) -> Result<bool, Memory>
    ensures { IfOk result (λ b. b ≡ same code.now (texts 0).code) }
{
    let expected = texts_code(alloc)?;
    Ok(same_tree(code, &expected))
}

/// Whether this is the type of a sequence of octets.
pub(crate) fn is_octets(alloc: Global, code: &TypeCode) -> Result<bool, Memory>
    ensures { IfOk result (λ b. b ≡ same code.now (octets 0).code) }
{
    let expected = octets_code(alloc)?;
    Ok(same_tree(code, &expected))
}
