//! Spellings that were worked out by hand from the rules of CORBA's common data representation.

ghost use Rattle.td_cdr.specs.Writing.{BeginsWithOrder};

use std::alloc::Global;
use std::process::Abort;
use td_cdr::{
    Boxed, CdrFault, List, Memory, Octets, Order, Reader, Seen, Text, Twin, Writer, is_identifier,
    is_trader_name, is_word_name, nothing_seen, see,
};

const BIG: Order = Order::Big;

const LITTLE: Order = Order::Little;

/// A kind of number, the order, the place of a message from which it is read, and the message; and what is read, with
/// where the reader then stands.
const NUMBERS: &str = "octet big 0 2a => 42 1
ushort big 1 09070102 => 258 4
ushort little 1 09070102 => 513 4
short big 0 fffe => -2 2
ulong little 3 000000aa04030201 => 16909060 8
long big 1 0001020380000000 => -2147483648 8
ulonglong big 5 00000000000909090102030405060708 => 72623859790382856 16
longlong little 1 0000000000000000ffffffffffffffff => -1 16
boolean big 1 0001 => 1 2
boolean big 0 0001 => 0 1
boolean big 1 0002 => BadBoolean:1 1
boolean big 2 0002 => Short:2 2
ulonglong big 1 000000000000000001020304050607 => Short:8 1
ulong little 2 000000 => Short:4 2";

fn order_of(word: &str) -> Order {
    match word {
        "big" => BIG,
        _ => LITTLE,
    }
}

fn number_of(reader: &mut Reader, kind: &str) -> Result<i128, CdrFault> {
    match kind {
        "octet" => Ok(i128::from(reader.octet()?)),
        "boolean" => Ok(i128::from(reader.boolean()?)),
        "ushort" => Ok(i128::from(reader.u16()?)),
        "short" => Ok(i128::from(reader.i16()?)),
        "ulong" => Ok(i128::from(reader.u32()?)),
        "long" => Ok(i128::from(reader.i32()?)),
        "ulonglong" => Ok(i128::from(reader.u64()?)),
        _ => Ok(i128::from(reader.i64()?)),
    }
}

/// What stands before and behind the first blank.
fn cut(line: &str) -> (&str, &str) {
    line.split_once(' ').unwrap_or((line, ""))
}

/// The number that a word of decimal digits names.
fn named(word: &str) -> u32 {
    word.parse::<u32>().unwrap_or(0)
}

/// The fault of a word `NAME:PLACE`.
fn fault_of(word: &str) -> Option<CdrFault> {
    let (name, place) = word.split_once(':')?;
    let place = named(place);
    match name {
        "Short" => Some(CdrFault::Short(place)),
        "TooLong" => Some(CdrFault::TooLong(place)),
        "BadString" => Some(CdrFault::BadString(place)),
        _ => Some(CdrFault::BadBoolean(place)),
    }
}

/// The number or the fault of a word.
fn wanted(word: &str) -> Result<i128, CdrFault> {
    match fault_of(word) {
        Some(fault) => Err(fault),
        None => Ok(i128::from(word.parse::<i64>().unwrap_or(0))),
    }
}

/// Whether this number or fault is read, and where the reader then stands.
fn is_number(reader: &mut Reader, kind: &str, content: &str) -> bool {
    let (word, end) = cut(content);
    number_of(reader, kind) == wanted(word) && reader.place() == named(end)
}

/// Whether the bytes are those of these digits.
fn are_digits(alloc: Global, bytes: &[u8], digits: &str) -> bool {
    match hex::decode(alloc, digits.as_bytes()) {
        Ok(want) => bytes == want.as_slice(),
        Err(_) => false,
    }
}

/// Whether these bytes are read, or a fault, which leaves the reader where it is.
fn are_bytes(alloc: Global, reader: &mut Reader, kind: &str, content: &str) -> bool {
    let place = reader.place();
    let found = match kind {
        "string" => reader.string(),
        _ => reader.octets(),
    };
    match found {
        Ok(found) => are_digits(alloc, found, content),
        Err(found) => fault_of(content) == Some(found) && reader.place() == place,
    }
}

fn inside(reader: &mut Reader) -> Result<(u64, u32, u32), CdrFault> {
    let mut inner = reader.encapsulation()?;
    let value = inner.u64()?;
    Ok((value, inner.place(), reader.place()))
}

/// Whether this is read inside, or a fault.
fn is_inside(reader: &mut Reader, content: &str) -> bool {
    match inside(reader) {
        Ok((value, inner, outer)) => are_places(value, inner, outer, content),
        Err(fault) => fault_of(content) == Some(fault),
    }
}

fn are_places(value: u64, inner: u32, outer: u32, content: &str) -> bool {
    let (number, places) = cut(content);
    let (first, second) = cut(places);
    wanted(number) == Ok(i128::from(value)) && named(first) == inner && named(second) == outer
}

/// Whether what is read from this place on is as it is told.
fn is_content(
    alloc: Global,
    bytes: &[u8],
    place: u32,
    asked: (Order, &str),
    content: &str,
) -> bool {
    if place as usize > bytes.len() || bytes.len() >= 100 {
        return false;
    }
    let (order, kind) = asked;
    let mut reader = Reader::new(bytes, place, order);
    match kind {
        "string" | "octets" => are_bytes(alloc, &mut reader, kind, content),
        "inside" => is_inside(&mut reader, content),
        _ => is_number(&mut reader, kind, content),
    }
}

/// Whether it is read so as a line says.
fn is_so(alloc: Global, line: &str) -> bool {
    let (asked, content) = line.split_once(" =>").unwrap_or((line, ""));
    let (kind, rest) = cut(asked);
    let (order, rest) = cut(rest);
    let (place, digits) = cut(rest);
    match hex::decode(alloc, digits.as_bytes()) {
        Ok(bytes) => {
            let asked = (order_of(order), kind);
            is_content(alloc, bytes.as_slice(), named(place), asked, content.trim())
        }
        Err(_) => false,
    }
}

fn are_so(rt: &impl Abort, alloc: Global, table: &str) {
    for line in table.lines() {
        assert!(rt; is_so(alloc, line), "{line}");
    }
}

#[test]
fn numbers(rt: HostRuntime) {
    are_so(&rt, rt.alloc(), NUMBERS);
}

/// Strings and sequences of octets: the kind, the order, the place and the message; and what is read.
const BYTES: &str = "string big 0 0000000368690009 => 6869
string big 1 07090909000000026100 => 61
string big 0 0000000100 =>
string big 0 00000000 =>
string big 0 000000026869 => BadString:0
string big 1 0709090900000003680000 => BadString:4
string big 0 000000096869 => TooLong:0
string big 0 000000 => Short:0
octets big 0 000000020008 => 0008
octets big 0 00000000 =>
octets big 2 07070707000000030102 => TooLong:4";

#[test]
fn strings_and_octets(rt: HostRuntime) {
    are_so(&rt, rt.alloc(), BYTES);
}

/// Encapsulations: the order, the place and the message; and an unsigned long long inside, with where the reader
/// inside and the one outside then stand.
const INSIDE: &str = "inside big 0 000000100109090909090909050000000000000007 => 5 20 20
inside big 0 00000012000909090909090900000000000000060707 => 6 20 22
inside big 2 0303030300000000 => Short:4
inside big 2 03030303000000020200 => BadBoolean:8
inside big 2 030303030000000201 => TooLong:4
inside big 2 03030303000000020101 => Short:16";

#[test]
fn encapsulations(rt: HostRuntime) {
    are_so(&rt, rt.alloc(), INSIDE);
}

/// Whether the number of an encapsulation in another is read, and one behind its end is not.
fn is_nested(reader: &mut Reader) -> Result<bool, CdrFault> {
    let mut outer = reader.encapsulation()?;
    let mut inner = outer.encapsulation()?;
    let number = inner.u16()?;
    let next = inner.copied().u16() == Ok(513) && inner.u32() == Err(CdrFault::Short(16));
    let places = (inner.place(), outer.place(), reader.place()) == (16, 18, 18);
    Ok(number == 3 && next && places && outer.aligned() == 20)
}

#[test]
fn nested_encapsulations(rt: HostRuntime) {
    let bytes = [0, 0, 0, 14, 1, 9, 9, 9, 6, 0, 0, 0, 0, 9, 0, 3, 2, 1];
    assert!(rt; is_nested(&mut Reader::new(&bytes, 0, BIG)) == Ok(true));
}

/// One value of each kind behind another.
fn put_each(writer: &mut Writer) -> Result<(), Memory> {
    writer.reserve(100)?;
    writer.octet(1)?;
    writer.u32(2)?;
    writer.u16(3)?;
    writer.u64(4)?;
    writer.string(b"")?;
    writer.octets(&[7, 8])
}

const EACH: &str = "0100000000000002000300000000000000000000000000040000000100000000000000020708";

fn is_cut(writer: &mut Writer) -> bool {
    if writer.len() < 8 {
        return false;
    }
    writer.cut(8);
    writer.set_u32(4, 258);
    writer.bytes() == [1, 0, 0, 0, 0, 0, 1, 2].as_slice()
}

fn is_restarted(writer: &mut Writer) -> Result<bool, Memory> {
    writer.clear();
    let empty = writer.len() == 0;
    writer.restart(LITTLE);
    writer.append(&[5, 6])?;
    writer.u32(1)?;
    Ok(empty && writer.bytes() == [5, 6, 0, 0, 1, 0, 0, 0].as_slice())
}

fn is_written(alloc: Global) -> Result<bool, Memory> {
    let mut writer = Writer::new(alloc, BIG);
    put_each(&mut writer)?;
    let whole = writer.len() == 38 && are_digits(alloc, writer.bytes(), EACH);
    Ok(whole && is_cut(&mut writer) && is_restarted(&mut writer) == Ok(true))
}

#[test]
fn written(rt: HostRuntime) {
    let alloc = rt.alloc();
    assert!(rt; is_written(alloc) == Ok(true));
}

/// Whether what is inside is encapsulated as these digits, behind an octet.
fn is_encapsulated(alloc: Global, inner: &Writer, digits: &str) -> Result<bool, Memory>
    requires { BeginsWithOrder inner.now }
{
    let mut writer = Writer::new(alloc, BIG);
    writer.octet(9)?;
    writer.encapsulate(inner)?;
    Ok(are_digits(alloc, writer.bytes(), digits))
}

fn is_written_inside(alloc: Global, digits: &str) -> Result<bool, Memory> {
    let mut inner = Writer::inside(alloc, LITTLE)?;
    inner.u32(7)?;
    inner.string(b"hi")?;
    Ok(inner.order() == LITTLE && is_encapsulated(alloc, &inner, digits) == Ok(true))
}

#[test]
fn written_inside(rt: HostRuntime) {
    let alloc = rt.alloc();
    let digits = "090000000000000f010000000700000003000000686900";
    assert!(rt; is_written_inside(alloc, digits) == Ok(true));
}

/// Names as `TEXT*COUNT` or once, with `+` for a blank and `?` for the octet 127; and whether they are
/// words, identifiers and names of traders.
const NAMES: &str = "a*0 no no no
a yes yes yes
Cpu_9 yes yes yes
9pins yes no yes
_x yes no yes
a-b yes no yes
::a/b~! yes no no
a+b no no no
? no no no
a*32 yes yes yes
a*33 yes yes no
a*256 yes yes no
a*257 no no no";

/// The octets of a name.
fn name_of(alloc: Global, word: &str) -> Result<Vec<u8>, Memory> {
    let mut name = Vec::new(alloc);
    let (text, count) = word.split_once('*').unwrap_or((word, "1"));
    for _ in 0..named(count) {
        for octet in text.as_bytes() {
            name.push(octet_of(*octet))?;
        }
    }
    Ok(name)
}

fn octet_of(letter: u8) -> u8 {
    match letter {
        b'+' => b' ',
        b'?' => 127,
        _ => letter,
    }
}

fn is_named(name: &[u8], content: &str) -> bool {
    let (word, rest) = cut(content);
    let (identifier, trader) = cut(rest);
    is_word_name(name) == (word == "yes")
        && is_identifier(name) == (identifier == "yes")
        && is_trader_name(name) == (trader == "yes")
}

fn is_named_so(alloc: Global, line: &str) -> bool {
    let (word, content) = cut(line);
    match name_of(alloc, word) {
        Ok(name) => is_named(name.as_slice(), content),
        Err(_) => false,
    }
}

#[test]
fn names(rt: HostRuntime) {
    let alloc = rt.alloc();
    for line in NAMES.lines() {
        assert!(rt; is_named_so(alloc, line), "{line}");
    }
}

fn is_twin(alloc: Global, list: &List<Text>) -> Result<bool, Memory> {
    let twin = list.copy(alloc)?;
    Ok(is_first(twin.as_slice()))
}

fn is_first(texts: &[Text]) -> bool {
    match texts {
        [text] => text.as_slice() == b"first".as_slice(),
        _ => false,
    }
}

fn is_list(alloc: Global) -> Result<bool, Memory> {
    let mut list = List::new(alloc);
    let empty = list.is_empty();
    list.push(Text::from_slice(alloc, b"first")?)?;
    Ok(empty && is_twin(alloc, &list) == Ok(true))
}

#[test]
fn lists(rt: HostRuntime) {
    let alloc = rt.alloc();
    assert!(rt; is_list(alloc) == Ok(true));
}

fn are_popped(alloc: Global) -> Result<bool, Memory> {
    let mut octets = Octets::from_slice(alloc, &[1, 2])?;
    Ok(octets.pop() == Some(2) && octets.pop() == Some(1) && octets.pop().is_none())
}

fn is_boxed(alloc: Global) -> Result<bool, Memory> {
    let boxed = Boxed::new(alloc, 7_u32)?;
    let twin = boxed.copy(alloc)?;
    Ok(twin.into_inner() == 7)
}

#[test]
fn octets_and_boxes(rt: HostRuntime) {
    let alloc = rt.alloc();
    assert!(rt; are_popped(alloc) == Ok(true) && is_boxed(alloc) == Ok(true));
}

/// Thirty-one bytes, one more than stand in place.
const LONG: &[u8] = b"IDL:omg.org/CosTrading/Link:1.0";

/// Whether a text of these bytes has them, however it was made, and a block of its own too.
fn are_kept(alloc: Global, bytes: &[u8]) -> Result<bool, Memory> {
    let text = Text::from_slice(alloc, bytes)?;
    let twin = text.copy(alloc)?;
    let owned = Text::from_vec(text.to_vec(alloc)?);
    let boxed = <Boxed<Text>>::from_slice(alloc, bytes)?;
    Ok(
        text.as_slice() == bytes
            && twin.as_slice() == bytes
            && owned.as_slice() == bytes
            && boxed.as_slice() == bytes
            && text.len() == bytes.len()
            && text.is_empty() == bytes.is_empty(),
    )
}

#[test]
fn texts_of_each_length(rt: HostRuntime) {
    let alloc = rt.alloc();
    assert!(rt; LONG.len() == 31 && Text::new(alloc).as_slice() == b"".as_slice());
    for len in 0..=31 {
        assert!(rt; are_kept(alloc, &LONG[..len]) == Ok(true), "{len}");
    }
}

/// More names than are compared one by one.
const MANY_NAMES: &str = "a b c d e f g h i j k l m n o p q r s t";

/// Whether each of these names is met for the first time, or each again.
fn are_met(seen: &mut Seen<'static>, fresh: bool) -> Result<bool, Memory> {
    for name in MANY_NAMES.split(' ') {
        if see(seen, name.as_bytes())? != fresh {
            return Ok(false);
        }
    }
    Ok(true)
}

fn are_seen(alloc: Global) -> Result<bool, Memory> {
    let mut seen = nothing_seen(alloc);
    Ok(are_met(&mut seen, true)? && are_met(&mut seen, false)?)
}

#[test]
fn names_that_were_met(rt: HostRuntime) {
    let alloc = rt.alloc();
    assert!(rt; are_seen(alloc) == Ok(true));
}
