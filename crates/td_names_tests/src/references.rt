//! Which context a key and a reference lead to.

ghost use Rattle.std.specs.Prelude.{IfOk};
ghost use Rattle.td_cdr.specs.Text.{HasNoNul};

use crate::words::{cut, object, ulong_of};
use std::alloc::Global;
use td_cdr::{List, Memory, Text, Twin};
use td_names::{Address, context_number, context_reference, led_to};
use td_typecode::{Ior, Profile};

/// Keys, with the number of the context; 0 where they are the key of none.
const KEYS: &str = "N/1 1
N/10 10
N/4294967295 4294967295
N/4294967296 0
N/0 0
N/01 0
N/ 0
N/1/ 0
N/I/1 0
n/1 0
N1 0
A/1 0";

#[test]
fn keys(rt: HostRuntime) {
    assert!(rt; keys_are_read());
}

fn keys_are_read() -> bool {
    KEYS.lines().all(|line| is_read(line))
}

fn is_read(line: &str) -> bool {
    let (key, number) = cut(line);
    context_number(key.as_bytes()).unwrap_or(0) == ulong_of(number)
}

#[test]
fn own_references_lead_back(rt: HostRuntime) {
    assert!(rt; leads_back(rt.alloc()) == Ok(true));
}

fn leads_back(alloc: Global) -> Result<bool, Memory> {
    let home = home(alloc)?;
    let mut all = true;
    for number in [1, 2, 65_537, u32::MAX] {
        all = all && is_led_back(alloc, &home, number)?;
    }
    drop(home);
    Ok(all)
}

fn is_led_back(alloc: Global, home: &Address, number: u32) -> Result<bool, Memory>
    requires { HasNoNul home.now.host }
{
    let reference = context_reference(alloc, home, number)?;
    let led = led_to(alloc, home, &reference)?;
    Ok(led == Some(number))
}

fn home(alloc: Global) -> Result<Address, Memory>
    ensures { IfOk result (λ home. HasNoNul home.host) }
{
    let host = Text::from_slice(alloc, b"here")?;
    Ok(Address { host, port: 1 })
}

/// The profiles of a reference, with `,` between them, and the number of the context that it leads to from port 1 of
/// `here`; 0 where it leads to none. `t:` stands in front of one that isn't of IIOP.
const REFERENCES: &str = "N/7@here:1 7
nil 0
N/7@there:1 0
N/7@here:2 0
N/07@here:1 0
t:N/7@here:1 0
t:N/8@there:9,N/7@here:1 7
N/7@here:1,N/8@here:1 7
N/7@there:1,N/8@here:1 0
X@here:1,N/8@here:1 0";

#[test]
fn references(rt: HostRuntime) {
    assert!(rt; references_lead(rt.alloc()) == Ok(true));
}

fn references_lead(alloc: Global) -> Result<bool, Memory> {
    let home = home(alloc)?;
    let mut all = true;
    for line in REFERENCES.lines() {
        let (words, number) = cut(line);
        all = all && leads(alloc, &home, words, ulong_of(number))?;
    }
    drop(home);
    Ok(all)
}

fn leads(alloc: Global, home: &Address, words: &str, number: u32) -> Result<bool, Memory> {
    let reference = reference(alloc, words)?;
    let led = led_to(alloc, home, &reference)?;
    Ok(led.unwrap_or(0) == number)
}

fn reference(alloc: Global, words: &str) -> Result<Ior, Memory> {
    let mut profiles = List::new(alloc);
    for word in words.split(',') {
        put_profiles(alloc, &mut profiles, word)?;
    }
    Ok(Ior {
        id: Text::new(alloc),
        profiles,
    })
}

fn put_profiles(alloc: Global, profiles: &mut List<Profile>, word: &str) -> Result<(), Memory> {
    let (tag, address) = match word.strip_prefix("t:") {
        Some(rest) => (1, rest),
        None => (0, word),
    };
    let made = object(alloc, address)?;
    for profile in made.profiles.as_slice() {
        let octets = profile.octets.copy(alloc)?;
        profiles.push(Profile { tag, octets })?;
    }
    Ok(())
}
