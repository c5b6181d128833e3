//! The text of a generated file.

ghost use Rattle.std.specs.Prelude.{◌≡◌, ◌≤◌, ◌++◌, IfOk, OnOk};
ghost use Rattle.td_make.specs.Generated.{chord_after, cost, cost_line, first_offers, first_traders, generated_file};
ghost use Rattle.td_make.specs.Generated.{trader_heading, link_line, link_lines, next_after, offer_line, offer_lines};
ghost use Rattle.td_make.specs.Generated.{offer_type, trader_lines};

use std::alloc::Global;
use td_cdr::{Memory, Octets};
use td_forms::{put, put_counted};

/// The type of an offer, by its number.
fn offer_type(number: u32) -> &'static [u8]
    ensures { result.now ≡ offer_type number }
{
    if number % 2 == 1 { b"Base" } else { b"Sub" }
}

/// The cost of an offer of a trader, by both numbers.
fn cost(trader: u32, number: u32) -> u32
    requires trader { trader ≤ 64 }
    requires number { number ≤ 10 }
    ensures { result ≡ cost trader number }
{
    (7 * trader + 3 * number) % 11
}

fn put_offer_line(text: &mut Vec<u8>, trader: u32, number: u32) -> Result<(), Memory>
    ensures { OnOk result (text.new.items ≡ text.old.items ++ offer_line trader number) }
{
    put(text, b"offer ")?;
    put(text, offer_type(number))?;
    put_counted(text, b" ref:IDL:Item:1.0,h,9,", u64::from(trader))?;
    put_counted(text, b".", u64::from(number))?;
    put(text, b"\n")
}

fn put_cost_line(text: &mut Vec<u8>, trader: u32, number: u32) -> Result<(), Memory>
    requires trader { trader ≤ 64 }
    requires number { number ≤ 10 }
    ensures { OnOk result (text.new.items ≡ text.old.items ++ cost_line trader number) }
{
    put_counted(text, b"with ulong Cost ", u64::from(cost(trader, number)))?;
    put(text, b"\n")
}

/// Appends the lines of an offer.
fn put_offer(text: &mut Vec<u8>, trader: u32, number: u32) -> Result<(), Memory>
    requires trader { trader ≤ 64 }
    requires number { number ≤ 10 }
    ensures { OnOk result (text.new.items ≡ text.old.items ++ offer_lines trader number) }
{
    put_offer_line(text, trader, number)?;
    put_cost_line(text, trader, number)
}

/// Appends a trader's ten offers.
fn put_offers(text: &mut Vec<u8>, trader: u32) -> Result<(), Memory>
    requires { trader ≤ 64 }
    ensures { OnOk result (text.new.items ≡ text.old.items ++ first_offers trader 10) }
{
    for done in 0..10u32 {
        put_offer(text, trader, done + 1)?;
    }
    Ok(())
}

/// The trader behind this one in a ring of so many.
fn next_after(count: u32, trader: u32) -> u32
    requires { 1 ≤ count }
    ensures { result ≡ next_after count trader }
{
    trader % count + 1
}

/// The one three places behind it.
fn chord_after(count: u32, trader: u32) -> u32
    requires count { 1 ≤ count }
    requires trader { trader ≤ 64 }
    ensures { result ≡ chord_after count trader }
{
    (trader + 2) % count + 1
}

/// Appends the line of a link, whose label ends with the beginning of the name of its trader.
fn put_link(text: &mut Vec<u8>, label: &[u8], trader: u32) -> Result<(), Memory>
    ensures { OnOk result (text.new.items ≡ text.old.items ++ link_line label.now trader) }
{
    put_counted(text, label, u64::from(trader))?;
    put(text, b" always always\n")
}

/// Appends a trader's links.
fn put_links(text: &mut Vec<u8>, count: u32, trader: u32) -> Result<(), Memory>
    requires count { 1 ≤ count }
    requires trader { trader ≤ 64 }
    ensures { OnOk result (text.new.items ≡ text.old.items ++ link_lines count trader) }
{
    put_link(text, b"link next T", next_after(count, trader))?;
    put_link(text, b"link chord T", chord_after(count, trader))
}

/// Appends the lines in front of a trader's offers.
fn put_heading(text: &mut Vec<u8>, trader: u32) -> Result<(), Memory>
    ensures { OnOk result (text.new.items ≡ text.old.items ++ trader_heading trader) }
{
    put_counted(text, b"trader T", u64::from(trader))?;
    put(
        text,
        b"\ntype Base -\nprop mandatory ulong Cost\ntype Sub - Base\n",
    )
}

/// Appends the lines of a trader in a ring of so many.
fn put_trader(text: &mut Vec<u8>, count: u32, trader: u32) -> Result<(), Memory>
    requires count { 1 ≤ count }
    requires trader { trader ≤ 64 }
    ensures { OnOk result (text.new.items ≡ text.old.items ++ trader_lines count trader) }
{
    put_heading(text, trader)?;
    put_offers(text, trader)?;
    put_links(text, count, trader)
}

/// Appends all traders of a ring of so many.
fn put_traders(text: &mut Vec<u8>, count: u32) -> Result<(), Memory>
    requires least { 1 ≤ count }
    requires most { count ≤ 64 }
    ensures { OnOk result (text.new.items ≡ text.old.items ++ first_traders count count) }
{
    for done in 0..count {
        put_trader(text, count, done + 1)?;
    }
    Ok(())
}

fn put_file(text: &mut Vec<u8>, count: u32) -> Result<(), Memory>
    requires least { 1 ≤ count }
    requires most { count ≤ 64 }
    ensures { OnOk result (text.new.items ≡ text.old.items ++ generated_file count) }
{
    put(text, b"address 127.0.0.1 2809\n")?;
    put_traders(text, count)
}

/// The text of the file of a ring of so many traders.
///
/// # Errors
///
/// `Memory` only when out of memory.
pub fn make_file(alloc: Global, count: u32) -> Result<Octets, Memory>
    requires least { 1 ≤ count }
    requires most { count ≤ 64 }
    ensures { IfOk result (λ t. t ≡ generated_file count) }
{
    let mut text = Vec::new(alloc);
    put_file(&mut text, count)?;
    Ok(Octets::from_vec(text))
}
