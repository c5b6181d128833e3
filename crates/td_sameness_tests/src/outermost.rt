//! Outermost TypeCodes with indirections: bytes of a reference that shares no code with td_typecode.

use crate::making::whole_of;
use std::alloc::Global;
use td_cdr::{Boxed, CdrFault, Order, Reader, ValueFault, Writer};
use td_sameness::same_type;
use td_typecode::{TypeCode, read_typecode, write_typecode};

/// What it is, an order, bytes in it, and the graph that they spell. A node is `KIND ID NAMES NUMBERS EDGES`. It is
/// written so again.
const SPELLED: &str =
    "a struct of a sequence of itself|>|0000000f00000044000000000000000a49444c3a4e3a312e30000000000000024e00000000000001000000056e65787400000000000000130000001000000000ffffffffffffffbc00000000|15 IDL:N:1.0 N,next - 1;19 - - 0 0
a struct of a sequence of itself|<|0f00000044000000010000000a00000049444c3a4e3a312e30000000020000004e00000001000000050000006e65787400000000130000001000000001000000ffffffffbcffffff00000000|15 IDL:N:1.0 N,next - 1;19 - - 0 0
two indirections to one struct|>|0000000f0000008c000000000000000a49444c3a533a312e3000000000000002530000000000000300000002610000000000000f0000003c000000000000000a49444c3a503a312e300000000000000250000000000000020000000278000000000000030000000279000000fffffffffffffff00000000262000000ffffffffffffffb00000000263000000ffffffffffffffa0|15 IDL:S:1.0 S,a,b,c - 1,1,1;15 IDL:P:1.0 P,x,y - 2,2;3 - - - -
two indirections to one struct|<|0f0000008c000000010000000a00000049444c3a533a312e3000000002000000530000000300000002000000610000000f0000003c000000010000000a00000049444c3a503a312e300000000200000050000000020000000200000078000000030000000200000079000000fffffffff0ffffff0200000062000000ffffffffb0ffffff0200000063000000ffffffffa0ffffff|15 IDL:S:1.0 S,a,b,c - 1,1,1;15 IDL:P:1.0 P,x,y - 2,2;3 - - - -
two structs that hold each other|>|0000000f000000a4000000000000000a49444c3a413a312e3000000000000002410000000000000100000003627300000000001300000074000000000000000f00000064000000000000000a49444c3a423a312e300000000000000242000000000000020000000361730000000000130000001000000000ffffffffffffff84000000070000000573656c6600000000000000130000001000000000ffffffffffffff9c0000000000000000|15 IDL:A:1.0 A,bs - 1;19 - - 0 2;15 IDL:B:1.0 B,as,self - 3,4;19 - - 7 0;19 - - 0 2
two structs that hold each other|<|0f000000a4000000010000000a00000049444c3a413a312e3000000002000000410000000100000003000000627300001300000074000000010000000f00000064000000010000000a00000049444c3a423a312e300000000200000042000000020000000300000061730000130000001000000001000000ffffffff84ffffff070000000500000073656c6600000000130000001000000001000000ffffffff9cffffff0000000000000000|15 IDL:A:1.0 A,bs - 1;19 - - 0 2;15 IDL:B:1.0 B,as,self - 3,4;19 - - 7 0;19 - - 0 2
a union of itself and of an enum|>|00000010000000e4000000000000000a49444c3a553a312e3000000000000002550000000000001100000034000000000000000a49444c3a453a312e30000000000000024500000000000002000000056d616e79000000000000000466657700ffffffff0000000200000000000000056d6f726500000000000000130000001000000000ffffffffffffff780000000000000001000000046f6e65000000000f000000480000000000000001000000000000000100000000000000020000000265000000ffffffffffffff5c0000000275000000000000130000001000000000ffffffffffffff1c00000000|16 IDL:U:1.0 U,more,one -1,0,1 1,2,3;17 IDL:E:1.0 E,many,few - -;19 - - 0 0;15 - -,e,u - 1,4;19 - - 0 0
a union of itself and of an enum|<|10000000e4000000010000000a00000049444c3a553a312e3000000002000000550000001100000034000000010000000a00000049444c3a453a312e30000000020000004500000002000000050000006d616e79000000000400000066657700ffffffff0200000000000000050000006d6f726500000000130000001000000001000000ffffffff78ffffff0000000001000000040000006f6e65000f000000480000000100000001000000000000000100000000000000020000000200000065000000ffffffff5cffffff0200000075000000130000001000000001000000ffffffff1cffffff00000000|16 IDL:U:1.0 U,more,one -1,0,1 1,2,3;17 IDL:E:1.0 E,many,few - -;19 - - 0 0;15 - -,e,u - 1,4;19 - - 0 0
an alias as discriminator behind an indirection|>|0000000f000000a0000000000000000a49444c3a533a312e3000000000000002530000000000000200000002640000000000001500000020000000000000000a49444c3a443a312e3000000000000002440000000000000800000002750000000000001000000040000000000000000a49444c3a553a312e300000000000000255000000ffffffffffffffa80000000000000001010000000000000479657300ffffffffffffff8c|15 IDL:S:1.0 S,d,u - 1,3;21 IDL:D:1.0 D - 2;8 - - - -;16 IDL:U:1.0 U,yes 0,1 1,1
an alias as discriminator behind an indirection|<|0f000000a0000000010000000a00000049444c3a533a312e3000000002000000530000000200000002000000640000001500000020000000010000000a00000049444c3a443a312e3000000002000000440000000800000002000000750000001000000040000000010000000a00000049444c3a553a312e300000000200000055000000ffffffffa8ffffff0000000001000000010000000400000079657300ffffffff8cffffff|15 IDL:S:1.0 S,d,u - 1,3;21 IDL:D:1.0 D - 2;8 - - - -;16 IDL:U:1.0 U,yes 0,1 1,1
an alias of a sequence of itself|>|0000001500000034000000000000000a49444c3a4d3a312e30000000000000024d000000000000130000001000000000ffffffffffffffcc00000000|21 IDL:M:1.0 M - 1;19 - - 0 0
an indirection at level 16|>|00000013000000f00000000000000013000000e00000000000000013000000d00000000000000013000000c00000000000000013000000b00000000000000013000000a000000000000000130000009000000000000000130000008000000000000000130000007000000000000000130000006000000000000000130000005000000000000000130000004000000000000000130000003000000000000000130000002000000000000000130000001000000000ffffffffffffff48000000000000000000000000000000000000000000000000000000000000000000000000000000000000000000000000000000000000000000000000|19 - - 0 1;19 - - 0 2;19 - - 0 3;19 - - 0 4;19 - - 0 5;19 - - 0 6;19 - - 0 7;19 - - 0 8;19 - - 0 9;19 - - 0 10;19 - - 0 11;19 - - 0 12;19 - - 0 13;19 - - 0 14;19 - - 0 0";

/// The same, for what is written in another way: encapsulations of the other order.
const READ: &str =
    "an encapsulation of the other order|>|0000000f00000044000000000000000a49444c3a4e3a312e30000000000000024e00000000000001000000056e65787400000000000000130000001001000000ffffffffbcffffff00000000|15 IDL:N:1.0 N,next - 1;19 - - 0 0
an encapsulation of the other order|<|0f00000044000000010000000a00000049444c3a4e3a312e30000000020000004e00000001000000050000006e65787400000000130000001000000001000000ffffffffbcffffff00000000|15 IDL:N:1.0 N,next - 1;19 - - 0 0
encapsulations of both orders|>|0000000f000000a4000000000000000a49444c3a413a312e3000000000000002410000000000000100000003627300000000001300000074000000000000000f00000064010000000a00000049444c3a423a312e300000000200000042000000020000000300000061730000130000001000000000000000ffffffffffffff84000000070500000073656c6600000000130000001000000001000000ffffffff9cffffff0000000000000000|15 IDL:A:1.0 A,bs - 1;19 - - 0 2;15 IDL:B:1.0 B,as,self - 3,4;19 - - 7 0;19 - - 0 2
encapsulations of both orders|<|0f000000a4000000010000000a00000049444c3a413a312e3000000002000000410000000100000003000000627300001300000074000000010000000f00000064000000010000000a00000049444c3a423a312e300000000200000042000000020000000300000061730000130000001000000000000000ffffffffffffff84000000070500000073656c6600000000130000001000000001000000ffffffff9cffffff0000000000000000|15 IDL:A:1.0 A,bs - 1;19 - - 0 2;15 IDL:B:1.0 B,as,self - 3,4;19 - - 7 0;19 - - 0 2";

/// Where an indirection leads or what stands wrong, an order, bytes in it, and the fault and its place.
const REFUSED: &str =
    "to the length behind a kind|>|0000000f00000044000000000000000a49444c3a4e3a312e30000000000000024e00000000000001000000056e65787400000000000000130000001000000000ffffffffffffffc000000000|Indirection 64
forward|>|0000000f00000044000000000000000a49444c3a4e3a312e30000000000000024e00000000000001000000056e65787400000000000000130000001000000000ffffffff0000000800000000|Indirection 64
to itself|>|0000000f00000044000000000000000a49444c3a4e3a312e30000000000000024e00000000000001000000056e65787400000000000000130000001000000000fffffffffffffffc00000000|Indirection 64
to its own long|>|0000000f00000044000000000000000a49444c3a4e3a312e30000000000000024e00000000000001000000056e65787400000000000000130000001000000000ffffffff0000000000000000|Indirection 64
in front of the outermost TypeCode|>|0000000f00000044000000000000000a49444c3a4e3a312e30000000000000024e00000000000001000000056e65787400000000000000130000001000000000ffffffffffffffb800000000|Indirection 64
at an odd place|>|0000000f00000044000000000000000a49444c3a4e3a312e30000000000000024e00000000000001000000056e65787400000000000000130000001000000000ffffffffffffffbd00000000|Indirection 64
the root is an indirection|>|fffffffffffffffc|Indirection 0
to another indirection|>|0000000f00000060000000000000000a49444c3a533a312e300000000000000253000000000000030000000261000000000000130000001000000000ffffffffffffffc0000000000000000262000000ffffffffffffffdc0000000263000000ffffffffffffffd8|Indirection 96
alias of itself|>|0000001500000024000000000000000a49444c3a4d3a312e30000000000000024d000000ffffffffffffffd8|BadValue 0
two aliases in a loop|>|0000001500000048000000000000000a49444c3a4d3a312e30000000000000024d0000000000001500000024000000000000000a49444c3a4c3a312e30000000000000024c000000ffffffffffffffb4|BadValue 0
an indirection at level 17|>|00000013000001000000000000000013000000f00000000000000013000000e00000000000000013000000d00000000000000013000000c00000000000000013000000b00000000000000013000000a000000000000000130000009000000000000000130000008000000000000000130000007000000000000000130000006000000000000000130000005000000000000000130000004000000000000000130000003000000000000000130000002000000000000000130000001000000000ffffffffffffff3c00000000000000000000000000000000000000000000000000000000000000000000000000000000000000000000000000000000000000000000000000000000|Depth 192
a discriminator that leads to a struct|>|0000000f0000005c000000000000000100000000000000025300000000000001000000027500000000000010000000340000000000000001000000000000000100000000ffffffffffffffb8ffffffff0000000100000000000000027800000000000003|BadValue 0
a discriminator that leads to an alias of a struct|>|0000000f000000b800000000000000010000000000000002530000000000000200000002640000000000001500000048000000000000000a49444c3a443a312e3000000000000002440000000000000f00000024000000000000000100000000000000025000000000000001000000027800000000000003000000027500000000000010000000380000000000000001000000000000000100000000ffffffffffffff88ffffffff00000001000000000000000278000000ffffffffffffffb8|BadValue 76
without its long|>|ffffffff|Short 4";

fn order_of(mark: &str) -> Order {
    match mark {
        "<" => Order::Little,
        _ => Order::Big,
    }
}

fn read(alloc: Global, order: Order, digits: &str) -> Option<Result<Boxed<TypeCode>, ValueFault>> {
    let bytes = hex::decode(alloc, digits.as_bytes()).ok()?;
    if bytes.len() >= 1000 {
        return None;
    }
    let mut reader = Reader::new(bytes.as_slice(), 0, order);
    match read_typecode(alloc, &mut reader) {
        Ok(code) if reader.place() as usize == bytes.len() => Boxed::new(alloc, code).ok().map(Ok),
        Ok(_) => None,
        Err(fault) => Some(Err(fault)),
    }
}

/// Whether the bytes are read as the graph that the line tells, which is written as these bytes where it is to be.
fn is_content(alloc: Global, line: &str, again: bool) -> Option<bool> {
    let (_name, rest) = line.split_once('|')?;
    let (mark, rest) = rest.split_once('|')?;
    let (digits, nodes) = rest.split_once('|')?;
    let order = order_of(mark);
    let want = Boxed::new(alloc, TypeCode::Linked(whole_of(alloc, nodes).ok()?)).ok()?;
    let code = read(alloc, order, digits)?.ok()?;
    if !same_type(alloc, code.get(), want.get()).ok()? {
        return Some(false);
    }
    let bytes = hex::decode(alloc, digits.as_bytes()).ok()?;
    Some(
        !again
            || (is_written(alloc, order, code.get(), bytes.as_slice())?
                && is_written(alloc, order, want.get(), bytes.as_slice())?),
    )
}

fn is_written(alloc: Global, order: Order, code: &TypeCode, bytes: &[u8]) -> Option<bool> {
    let mut writer = Writer::new(alloc, order);
    write_typecode(alloc, &mut writer, code).ok()?;
    Some(writer.bytes() == bytes)
}

/// The fault that a line tells.
fn fault_of(content: &str) -> Option<ValueFault> {
    let (name, place) = content.split_once(' ')?;
    let place = place.parse::<u32>().ok()?;
    match name {
        "Short" => Some(ValueFault::Cdr(CdrFault::Short(place))),
        "Indirection" => Some(ValueFault::Indirection(place)),
        "BadValue" => Some(ValueFault::BadValue(place)),
        "Depth" => Some(ValueFault::Depth(place)),
        _ => None,
    }
}

fn is_refused(alloc: Global, line: &str) -> Option<bool> {
    let (_name, rest) = line.split_once('|')?;
    let (mark, rest) = rest.split_once('|')?;
    let (digits, content) = rest.split_once('|')?;
    Some(read(alloc, order_of(mark), digits)?.err()? == fault_of(content)?)
}

/// A struct of so many long members and one that leads to the struct: one node more than members of type long.
fn many(alloc: Global, longs: u16) -> Option<Vec<u8>> {
    let longs = u32::from(longs);
    let mut bytes = hex::decode(alloc, b"0000000f").ok()?;
    bytes
        .extend_from_slice(&(longs * 12 + 48).to_be_bytes())
        .ok()?;
    let head = hex::decode(
        alloc,
        b"000000000000000a49444c3a533a312e300000000000000253000000",
    )
    .ok()?;
    bytes.extend_from_slice(head.as_slice()).ok()?;
    bytes.extend_from_slice(&(longs + 1).to_be_bytes()).ok()?;
    for _ in 0..longs {
        let member = hex::decode(alloc, b"000000026100000000000003").ok()?;
        bytes.extend_from_slice(member.as_slice()).ok()?;
    }
    let own = longs * 12 + 52;
    let last = hex::decode(alloc, b"0000000273000000ffffffff").ok()?;
    bytes.extend_from_slice(last.as_slice()).ok()?;
    bytes
        .extend_from_slice(&(u32::MAX - (own - 1)).to_be_bytes())
        .ok()?;
    Some(bytes)
}

/// What a struct of so many long members is read as. Its bytes are fewer than 50,000.
fn read_many(alloc: Global, longs: u16) -> Option<Result<Boxed<TypeCode>, ValueFault>> {
    let bytes = many(alloc, longs)?;
    if bytes.len() >= 50_000 {
        return None;
    }
    let mut reader = Reader::new(bytes.as_slice(), 0, Order::Big);
    match read_typecode(alloc, &mut reader) {
        Ok(code) => Boxed::new(alloc, code).ok().map(Ok),
        Err(fault) => Some(Err(fault)),
    }
}

/// Whether 4,096 nodes are read, and 4,097 refused at the kind of the last.
fn are_many(alloc: Global) -> Option<bool> {
    let code = read_many(alloc, 4095)?.ok()?;
    let fault = read_many(alloc, 4096)?.err()?;
    Some(matches!(code.get(), TypeCode::Linked(_)) && fault == ValueFault::Depth(49188))
}

#[test]
fn outermost_typecodes(rt: HostRuntime) {
    let alloc = rt.alloc();
    for line in SPELLED.lines() {
        assert!(rt; is_content(alloc, line, true) == Some(true), "{line}");
    }
    for line in READ.lines() {
        assert!(rt; is_content(alloc, line, false) == Some(true), "{line}");
    }
    for line in REFUSED.lines() {
        assert!(rt; is_refused(alloc, line) == Some(true), "{line}");
    }
}

#[test]
fn many_nodes(rt: HostRuntime) {
    let alloc = rt.alloc();
    assert!(rt; are_many(alloc) == Some(true));
}
