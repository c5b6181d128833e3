//! Offers that are described and withdrawn, and their ids.

use crate::changes::KEPT;
use crate::lines::follows;
use std::alloc::Global;
use std::process::Abort;
use std::test::Fail;
use td_cdr::Memory;
use td_register::{id_of, number_in};

/// An ordinary offer has the number 7, a proxy offer the number 8.
const WITHDRAWN: &str = "describe 7 => offer Printer
describe 8 => /Register/ProxyOfferId:1.0
withdraw 8 => /Register/ProxyOfferId:1.0
withdraw 7 => done
withdraw 7 => /UnknownOfferId:1.0
withdraw 07 => /IllegalOfferId:1.0";

#[test]
fn an_offer_is_described_and_withdrawn(rt: HostRuntime) -> Result<(), Fail> {
    follows(&rt, rt.alloc(), KEPT, WITHDRAWN)
}

/// Texts, and the numbers that they spell as ids; 0 where they spell none.
const IDS: &str = "1 1
9 9
10 10
4294967295 4294967295
4294967296 0
0 0
07 0
1a 0
-1 0
99999999999999999999 0";

#[test]
fn ids(rt: HostRuntime) -> Result<(), Fail> {
    let alloc = rt.alloc();
    for line in IDS.lines() {
        assert!(rt; is_spelled(alloc, line)?, "at {line}");
    }
    assert!(rt; number_in(b"").is_none());
    Ok(())
}

fn is_spelled(alloc: Global, line: &str) -> Result<bool, Memory> {
    let (text, digits) = line.split_once(' ').unwrap_or((line, "0"));
    let number = digits.parse::<u32>().unwrap_or(0);
    let is_read = number_in(text.as_bytes()).unwrap_or(0) == number;
    Ok(is_read && (number == 0 || is_id(alloc, number, text)?))
}

fn is_id(alloc: Global, number: u32, text: &str) -> Result<bool, Memory> {
    let id = id_of(alloc, number)?;
    Ok(id.as_slice() == text.as_bytes())
}
