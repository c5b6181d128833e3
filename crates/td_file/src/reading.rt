//! A whole file.

ghost use Rattle.std.specs.Prelude.{◌≡◌, ◌≤◌, ◌<◌, ◌^◌, length, IfOk, None, Err};
ghost use Rattle.td_cdr.specs.Text.{HasNoNul};
ghost use Rattle.td_file.specs.Files.{OpensOrRefuses, home_address, opening, opening_at, opening_of, opening_with};
ghost use Rattle.td_file.specs.Files.{or_place};
ghost use Rattle.td_file.specs.Files.{unless_refused};
ghost use Rattle.td_file.specs.Openings.{HaveDistinctNames, later_refusal};
ghost use Rattle.td_lines.specs.Laws.{AreShort, IsValidScript};
ghost use Rattle.td_objects.specs.References.{IsAddress};
ghost use Rattle.td_trader.specs.Solos.{AreDistinct};

use crate::fault::FileFault;
use crate::trading::open_all;
use crate::unknown::missing_in;
use std::alloc::Global;
use td_cdr::{List, Octets};
use td_lines::{Home, LineCause, Refused, Script, TraderScript, read_script, scripts_are_sound};
use td_trader::{Solo, Trader};
use td_walk::Address;

/// What a file opens.
#[derive(Drop)]
pub struct Opened {
    /// Where the server is reached.
    pub home: Address,
    /// What the random words are made of: 32 octets.
    pub seed: Octets,
    /// The traders, each with an empty history and no marks.
    pub solo: Solo,
}

/// Why a file is refused though all entries that it tells were done.
fn later_refusal(refused: Option<Refused>, missing: Option<u32>) -> Option<Refused>
    ensures { result ≡ later_refusal refused missing }
{
    match refused {
        Some(refused) => Some(refused),
        None => missing_name(missing),
    }
}

/// The refusal of a link to a missing trader.
fn missing_name(missing: Option<u32>) -> Option<Refused>
    ensures { result ≡ later_refusal None missing }
{
    match missing {
        Some(line) => Some(Refused {
            line,
            cause: LineCause::Name,
        }),
        None => None,
    }
}

/// What is opened, unless it is refused.
fn open_unless(
    later: Option<Refused>,
    home: Address,
    seed: Octets,
    traders: List<Trader>,
) -> Result<Opened, FileFault>
    requires { AreDistinct traders }
    ensures { OpensOrRefuses (unless_refused later (opening home seed traders)) result }
{
    match later {
        Some(Refused { line, cause }) => Err(FileFault::Line(line, cause)),
        None => Ok(Opened {
            home,
            seed,
            solo: Solo {
                traders: traders.into_vec(),
            },
        }),
    }
}

/// What the lines of a file open, at its address.
fn open_at(
    alloc: Global,
    home: Address,
    seed: Octets,
    content: List<TraderScript>,
    refused: Option<Refused>,
) -> Result<Opened, FileFault>
    requires home { IsAddress home }
    requires short { AreShort content }
    requires distinct { HaveDistinctNames content }
    ensures { OpensOrRefuses (opening_at home seed content refused) result }
{
    let later = later_refusal(refused, missing_in(content.as_slice(), content.as_slice()));
    match open_all(alloc, &home, content) {
        Ok(traders) => open_unless(later, home, seed, traders),
        Err(fault) => Err(fault),
    }
}

/// Where the lines of a file say that the server is reached, and by which version.
fn home_address(home: Home) -> Address
    requires short { length home.host ≤ 1000 }
    requires no_nul { HasNoNul home.host }
    requires minor { home.minor ≤ 1 }
    ensures address { result ≡ home_address home }
    ensures reached { IsAddress result }
{
    Address {
        host: home.host,
        port: home.port,
        minor: home.minor,
    }
}

/// Why a file without an address is refused.
fn without_home(refused: Option<Refused>) -> Result<Opened, FileFault>
    ensures { OpensOrRefuses (Err (or_place refused)) result }
{
    match refused {
        Some(Refused { line, cause }) => Err(FileFault::Line(line, cause)),
        None => Err(FileFault::Line(1, LineCause::Place)),
    }
}

/// What the lines of a file open.
fn open_script(alloc: Global, script: Script) -> Result<Opened, FileFault>
    requires { IsValidScript script }
    ensures { OpensOrRefuses (opening_with script script.home) result }
{
    let Script {
        home,
        seed,
        traders,
        refused,
    } = script;
    match home {
        Some(home) => open_at(alloc, home_address(home), seed, traders, refused),
        None => without_home(refused),
    }
}

/// What a server's file opens: its address, its seed, and its traders, each in its opening store, with an empty
/// history and no marks.
///
/// # Errors
///
/// `Line` exactly where an entry of the file is refused: the first line of the first one, and why. A link to a
/// trader that the file doesn't have is refused last. `Memory` when out of memory.
pub fn read_file(alloc: Global, text: &[u8]) -> Result<Opened, FileFault>
    requires { length text.now < 2 ^ 32 }
    ensures answers { OpensOrRefuses (opening_of text.now) result }
    ensures address { IfOk result (λ o. IsAddress o.home) }
    ensures seed { IfOk result (λ o. length o.seed ≡ 32) }
{
    scripts_are_sound();
    match read_script(alloc, text) {
        Ok(script) => open_script(alloc, script),
        Err(_) => Err(FileFault::Memory),
    }
}
