//! How many bytes a spelling has, written big-endian from place 0.

ghost use Rattle.std.specs.Prelude.{◌≡◌, IfOk, length};
ghost use Rattle.td_cdr.specs.declared.order.Order.TheVariants.{Big};
ghost use Rattle.td_value.specs.Structures.{offer, type_struct};
ghost use Rattle.td_typecode.specs.Values.{any_value};

use crate::ends::plain_offer_size;
use crate::structures::{Property, TypeStruct};
use std::alloc::Global;
use td_cdr::{List, Memory, Order, Spelled, Writer, put_two};
use td_typecode::{Any, Ior};

/// The length of what is written for a value.
fn size_of<T: Spelled>(alloc: Global, value: &T) -> Result<usize, Memory>
    ensures { IfOk result (λ n. n ≡ length (T.format.writes value.now Big 0)) }
{
    let mut w = Writer::new(alloc, Order::Big);
    value.write(alloc, &mut w)?;
    Ok(w.len())
}

/// The encoded bytes of an offer: of its reference and its properties. Where these are numbers and
/// strings it takes no memory.
///
/// # Errors
///
/// `Memory` when out of memory, or where there are 2^32 bytes or more.
pub fn offer_size(
    alloc: Global,
    reference: &Ior,
    properties: &List<Property>,
) -> Result<usize, Memory>
    ensures { IfOk result (λ n.
        n ≡ length (offer.format.writes
        (record { reference = reference.now; properties = properties.now }) Big 0)) }
{
    match plain_offer_size(reference, properties) {
        Some(size) => Ok(size),
        None => written_offer_size(alloc, reference, properties),
    }
}

/// The same, of any offer: it is written to be measured.
fn written_offer_size(
    alloc: Global,
    reference: &Ior,
    properties: &List<Property>,
) -> Result<usize, Memory>
    ensures { IfOk result (λ n.
        n ≡ length (offer.format.writes
        (record { reference = reference.now; properties = properties.now }) Big 0)) }
{
    let mut w = Writer::new(alloc, Order::Big);
    put_two(alloc, &mut w, reference, properties)?;
    Ok(w.len())
}

/// The encoded bytes of an any.
///
/// # Errors
///
/// As `offer_size`.
pub fn any_size(alloc: Global, any: &Any) -> Result<usize, Memory>
    ensures { IfOk result (λ n. n ≡ length (any_value.format.writes any.now Big 0)) }
{
    size_of(alloc, any)
}

/// The encoded bytes of a service type.
///
/// # Errors
///
/// As `offer_size`.
pub fn type_struct_size(alloc: Global, described: &TypeStruct) -> Result<usize, Memory>
    ensures { IfOk result (λ n. n ≡ length (type_struct.format.writes described.now Big 0)) }
{
    size_of(alloc, described)
}
