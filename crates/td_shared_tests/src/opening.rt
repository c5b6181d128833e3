//! The traders that connections share.

ghost use Rattle.td_objects.specs.References.{IsAddress};

use std::alloc::Global;
use td_cdr::Memory;
use td_file::{FileFault, Opened, read_file};
use td_trader::Solo;
use td_walk::Address;

/// Where the traders are reached, and the traders.
#[derive(Drop)]
pub struct Server {
    pub home: Address,
    pub solo: Solo,
    ghost reached: { IsAddress home },
}

/// The first lines of the file of a trader A at the host `h`, port 9.
const START: &str = "\
    address h 9\n\
    trader A\n\
    set def_search_card 20000\n\
    set def_match_card 20000\n\
    set def_return_card 20000\n\
    type P IDL:P:1.0\n";

/// The file of A with so many offers, whose objects have the keys p1, p2 and so on.
fn file(alloc: Global, offers: u32) -> Result<Vec<u8>, Memory> {
    let mut text = Vec::new(alloc);
    text.extend_from_slice(START.as_bytes())?;
    for number in 1..offers.saturating_add(1) {
        let line = format!(in alloc; "offer P ref:IDL:P:1.0,h,9,p{number}\n")?;
        text.extend_from_slice(line.as_bytes())?;
    }
    Ok(text)
}

/// The traders of a file.
pub fn server_of(alloc: Global, file: &[u8]) -> Result<Server, FileFault> {
    if file.len() > 10000000 {
        return Err(FileFault::Memory);
    }
    let Opened { home, seed, solo } = read_file(alloc, file)?;
    drop(seed);
    Ok(Server { home, solo })
}

/// The trader A with so many offers.
pub fn opened(alloc: Global, offers: u32) -> Result<Server, Memory> {
    let text = file(alloc, offers)?;
    match server_of(alloc, text.as_slice()) {
        Ok(server) => Ok(server),
        Err(fault) => {
            drop(fault);
            Err(Memory)
        }
    }
}
