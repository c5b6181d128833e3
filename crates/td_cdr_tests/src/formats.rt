//! Values that are written whole and read whole, behind one octet that shows their alignment.

use std::alloc::Global;
use td_cdr::{
    Boxed, CdrFault, List, Memory, Octets, Order, Reader, Shared, Spelled, Text, Twin, ValueFault,
    Writer, copy_four, copy_three, copy_two, put_five, put_four, put_six, put_three, put_two,
    read_whole, share_four, share_owned_three, write_whole,
};

const BIG: Order = Order::Big;

const LITTLE: Order = Order::Little;

/// The octet 9, and then the value.
fn behind_an_octet<T: Spelled>(alloc: Global, order: Order, value: &T) -> Result<Writer, Memory> {
    let mut writer = Writer::new(alloc, order);
    writer.octet(9)?;
    write_whole(alloc, &mut writer, value)?;
    Ok(writer)
}

/// The value behind the first octet, and where its reader then stands.
fn read_behind<T: Spelled + Drop>(
    alloc: Global,
    bytes: &[u8],
    order: Order,
) -> (Result<T, ValueFault>, u32) {
    if bytes.is_empty() || bytes.len() > 10_000 {
        return (Err(ValueFault::Memory), 0);
    }
    let mut reader = Reader::new(bytes, 1, order);
    let value = read_whole(alloc, &mut reader);
    (value, reader.place())
}

/// Whether the value is written as the bytes of these digits, and read from them as one that is written so again.
fn is_spelled<T: Spelled + Drop>(alloc: Global, order: Order, value: &T, digits: &str) -> bool {
    match hex::decode(alloc, digits.as_bytes()) {
        Ok(want) => is_spelled_by(alloc, order, value, want.as_slice()) == Ok(true),
        Err(_) => false,
    }
}

fn is_spelled_by<T: Spelled + Drop>(
    alloc: Global,
    order: Order,
    value: &T,
    want: &[u8],
) -> Result<bool, ValueFault> {
    let written = behind_an_octet(alloc, order, value)?;
    if written.bytes() != want {
        return Ok(false);
    }
    let (read, end) = read_behind::<T>(alloc, want, order);
    let again = behind_an_octet(alloc, order, &read?)?;
    Ok(end as usize == want.len() && again.bytes() == want)
}

/// Whether the bytes of these digits are refused by this fault, and where the reader then stands.
fn is_refused<T: Spelled + Drop>(alloc: Global, digits: &str, want: CdrFault) -> bool {
    match hex::decode(alloc, digits.as_bytes()) {
        Ok(bytes) => {
            let (read, end) = read_behind::<T>(alloc, bytes.as_slice(), BIG);
            read.err() == Some(ValueFault::Cdr(want)) && end == 1
        }
        Err(_) => false,
    }
}

#[test]
fn numbers(rt: HostRuntime) {
    let alloc = rt.alloc();
    assert!(rt; are_numbers(alloc));
}

fn are_numbers(alloc: Global) -> bool {
    is_spelled(alloc, BIG, &258_u16, "09000102")
        && is_spelled(alloc, LITTLE, &258_u32, "0900000002010000")
        && is_spelled(alloc, BIG, &-2_i16, "0900fffe")
        && is_spelled(alloc, LITTLE, &-2_i32, "09000000feffffff")
        && is_spelled(alloc, BIG, &true, "0901")
}

#[test]
fn long_numbers(rt: HostRuntime) {
    let alloc = rt.alloc();
    assert!(rt; are_long_numbers(alloc));
}

fn are_long_numbers(alloc: Global) -> bool {
    is_spelled(
        alloc,
        BIG,
        &72_623_859_790_382_856_u64,
        "09000000000000000102030405060708",
    ) && is_spelled(alloc, LITTLE, &i64::MIN, "09000000000000000000000000000080")
}

/// Whether the value was made, and is spelled so.
fn is_made<T: Spelled + Drop>(
    alloc: Global,
    order: Order,
    made: Result<T, Memory>,
    digits: &str,
) -> bool {
    match made {
        Ok(value) => is_spelled(alloc, order, &value, digits),
        Err(_) => false,
    }
}

#[test]
fn texts_and_octets(rt: HostRuntime) {
    let alloc = rt.alloc();
    assert!(rt; is_text(alloc) && are_octets(alloc));
}

fn is_text(alloc: Global) -> bool {
    let text = Text::from_slice(alloc, b"hi");
    is_made(alloc, BIG, text, "0900000000000003686900")
}

fn are_octets(alloc: Global) -> bool {
    let octets = Octets::from_slice(alloc, &[7, 0]);
    is_made(alloc, LITTLE, octets, "09000000020000000700")
}

#[test]
fn lists_and_pairs(rt: HostRuntime) {
    let alloc = rt.alloc();
    assert!(rt; is_list(alloc) && is_spelled(alloc, BIG, &(true, 1_u32), "0901000000000001"));
}

fn is_list(alloc: Global) -> bool {
    let numbers = List::from_slice(alloc, &[5_u16, 6, 7]);
    is_made(alloc, BIG, numbers, "0900000000000003000500060007")
}

#[test]
fn refusals(rt: HostRuntime) {
    let alloc = rt.alloc();
    assert!(rt; are_refused(alloc));
}

fn are_refused(alloc: Global) -> bool {
    is_refused::<bool>(alloc, "0902", CdrFault::BadBoolean(1))
        && is_refused::<List<bool>>(alloc, "0900000000000003010203", CdrFault::BadBoolean(9))
        && is_refused::<List<bool>>(alloc, "090000000000", CdrFault::Short(4))
        && is_refused::<List<u16>>(alloc, "09000000000000030001000200", CdrFault::Short(12))
        && is_refused::<(bool, Text)>(alloc, "090100000000000261", CdrFault::TooLong(4))
}

#[test]
fn many_octets(rt: HostRuntime) {
    let alloc = rt.alloc();
    assert!(rt; are_many(alloc) == Ok(true));
}

fn are_many(alloc: Global) -> Result<bool, Memory> {
    let octets: Octets = List::from_vec(vec![in alloc; 7_u8; 8192]?);
    are_written(alloc, &octets)
}

/// Whether the octets are written behind their number, and read so again.
fn are_written(alloc: Global, octets: &Octets) -> Result<bool, Memory> {
    let mut writer = Writer::new(alloc, BIG);
    write_whole(alloc, &mut writer, octets)?;
    Ok(are_read(alloc, writer.bytes(), octets.as_slice()))
}

fn are_read(alloc: Global, bytes: &[u8], octets: &[u8]) -> bool {
    if bytes.len() != 8196 {
        return false;
    }
    let mut reader = Reader::new(bytes, 0, BIG);
    match read_whole::<Octets>(alloc, &mut reader) {
        Ok(read) => {
            &bytes[..5] == [0, 0, 32, 0, 7].as_slice()
                && reader.place() == 8196
                && read.as_slice() == octets
        }
        Err(_) => false,
    }
}

/// Rows of two to six values, one behind another.
fn rows(alloc: Global, writer: &mut Writer) -> Result<(), Memory> {
    put_two(alloc, writer, &true, &1_u16)?;
    put_three(alloc, writer, &true, &2_u16, &3_u32)?;
    put_four(alloc, writer, &true, &4_u16, &5_u16, &6_u32)?;
    put_five(alloc, writer, &true, &false, &7_u16, &8_u16, &9_u16)?;
    put_six(
        alloc, writer, &true, &10_u16, &11_u16, &12_u16, &false, &true,
    )
}

/// Whether the bytes are those of these digits.
fn are_digits(alloc: Global, bytes: &[u8], digits: &str) -> bool {
    match hex::decode(alloc, digits.as_bytes()) {
        Ok(want) => bytes == want.as_slice(),
        Err(_) => false,
    }
}

fn are_rows(alloc: Global, digits: &str) -> Result<bool, Memory> {
    let mut writer = Writer::new(alloc, BIG);
    rows(alloc, &mut writer)?;
    Ok(are_digits(alloc, writer.bytes(), digits))
}

const ROWS: &str =
    "01000001010000020000000301000004000500000000000601000007000800090100000a000b000c0001";

#[test]
fn rows_in_order(rt: HostRuntime) {
    let alloc = rt.alloc();
    assert!(rt; are_rows(alloc, ROWS) == Ok(true));
}

/// Whether a copy of a box's text has the same bytes.
fn copied(alloc: Global, boxed: &Boxed<Text>) -> Result<bool, Memory> {
    let twin = boxed.copy(alloc)?;
    Ok(twin.get().as_slice() == boxed.get().as_slice())
}

fn is_copied(alloc: Global) -> Result<bool, Memory> {
    let boxed = Boxed::new(alloc, Text::from_slice(alloc, b"twin")?)?;
    copied(alloc, &boxed)
}

/// Whether the second owner of a text sees its bytes once the first one is gone.
fn is_shared(alloc: Global) -> Result<bool, Memory> {
    let shared = Shared::new(alloc, Text::from_slice(alloc, b"twin")?)?;
    let twin = shared.copy(alloc)?;
    drop(shared);
    Ok(twin.as_slice() == b"twin".as_slice() && twin.get().len() == 4)
}

#[test]
fn copies(rt: HostRuntime) {
    let alloc = rt.alloc();
    assert!(rt; is_copied(alloc) == Ok(true) && is_shared(alloc) == Ok(true));
}

#[test]
fn values_shared_one_after_another(rt: HostRuntime) {
    let alloc = rt.alloc();
    assert!(rt; are_shared(alloc) == Ok(true));
}

fn are_shared(alloc: Global) -> Result<bool, Memory> {
    let (first, (second, (third, fourth))) = share_four(alloc, &1u32, &2u32, &3u32, &true)?;
    let (fifth, (sixth, seventh)) = share_owned_three(alloc, (5u32, (6u16, false)))?;
    Ok(
        *first.get() == 1
            && *second.get() == 2
            && *third.get() == 3
            && *fourth.get()
            && *fifth.get() == 5
            && *sixth.get() == 6
            && !*seventh.get(),
    )
}

#[test]
fn values_copied_one_after_another(rt: HostRuntime) {
    let alloc = rt.alloc();
    assert!(rt; are_copied(alloc));
}

fn are_copied(alloc: Global) -> bool {
    copy_two(alloc, &1u32, &true) == Ok((1, true))
        && copy_three(alloc, &1u32, &2u32, &false) == Ok((1, (2, false)))
        && copy_four(alloc, &1u32, &2u32, &3u32, &4u32) == Ok((1, (2, (3, 4))))
}
