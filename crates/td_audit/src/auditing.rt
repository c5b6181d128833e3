//! An audit, line by line.

ghost use Rattle.std.specs.Prelude.{◌≡◌, ◌+◌, ◌<◌, ◌≤◌, ◌^◌, [], length, IfOk, OnOk};
ghost use Rattle.td_audit.specs.Auditing.{AuditsOrWants, opening_of, state};
ghost use Rattle.td_audit.specs.Events.{IsWithinLimits};
ghost use Rattle.td_audit.specs.Judging.{AuditedOrWants, StepsTo, TakesLine, verdict_of};
ghost use Rattle.td_audit.specs.Links.{register_of};
ghost use Rattle.td_log.specs.Words.{lines_of};
ghost use Rattle.td_objects.specs.References.{IsAddress};
ghost use Rattle.td_servant.specs.Linking.{link_change};

use crate::answers::reply;
use crate::asked::AskedQuery;
use crate::changes::change;
use crate::events::{ask, happen};
use crate::group::{Group, group_of};
use crate::links::{link_change, register_of};
use crate::looks::look;
use crate::verdict::{AuditStop, Halt, Verdict};
use std::alloc::Global;
use td_cdr::{Boxed, List, Memory};
use td_log::{Line, next_line, read_line, read_words};
use td_net::{Event, Net};
use td_ops::{AddLink, Change};
use td_trader::{Solo, Trader};
use td_walk::Address;

/// The change that adds a link.
fn linked(alloc: Global, group: &Group, link: Boxed<AddLink>) -> Result<Boxed<Change>, Memory>
    requires { IsAddress group.now.home }
    ensures { IfOk result (λ c. c
        ≡ link_change link (register_of group.now.home group.now.names link.target)) }
{
    let register = register_of(alloc, group, link.get().target.get())?;
    Boxed::new(alloc, link_change(link.into_inner(), register))
}

/// Judges what a line records.
#[tactic(auto, using(crate::proofs::Stepping::by_line))]
fn judge(
    alloc: Global,
    group: &Group,
    net: &mut Net,
    asked: &mut List<AskedQuery>,
    line: Line,
) -> Result<(), AuditStop>
    requires home { IsAddress group.now.home }
    requires sound { IsWithinLimits net.old }
    ensures steps { StepsTo group.now.home group.now.names (state net.old asked.old) line result
        (state net.new asked.new) }
    ensures sound { OnOk result (IsWithinLimits net.new) }
{
    match line {
        Line::Change {
            trader,
            form,
            change: wanted,
            reply,
        } => change(alloc, net, trader, form, wanted, &reply),
        Line::AddLink {
            trader,
            form,
            link,
            reply,
        } => match linked(alloc, group, link) {
            Ok(wanted) => change(alloc, net, trader, form, wanted, &reply),
            Err(Memory) => Err(AuditStop::Memory),
        },
        Line::Look {
            trader,
            form,
            look: wanted,
            reply,
        } => look(alloc, net, trader, form, wanted.get(), &reply),
        Line::Ask {
            trader,
            form,
            query,
        } => ask(alloc, net, asked, trader, form, query),
        Line::Deliver { call } => happen(net, Event::Deliver { call }),
        Line::Value { call, value } => happen(net, Event::Value { call, value }),
        Line::Answer { call } => happen(net, Event::Answer { call }),
        Line::Lose { call } => happen(net, Event::Lose { call }),
        Line::Reply {
            call,
            reply: recorded,
        } => reply(alloc, net, asked.as_slice(), call, &recorded),
    }
}

/// Reads a line, and judges what it records.
fn take_line(
    alloc: Global,
    group: &Group,
    net: &mut Net,
    asked: &mut List<AskedQuery>,
    line: &[u8],
) -> Result<(), Halt>
    requires home { IsAddress group.now.home }
    requires sound { IsWithinLimits net.old }
    requires short { length line.now < 2 ^ 32 }
    ensures takes { TakesLine group.now.home group.now.names (state net.old asked.old) line.now
        result
        (state net.new asked.new) }
    ensures sound { OnOk result (IsWithinLimits net.new) }
{
    match read_line(alloc, group.names.as_slice(), line) {
        Ok(Some(line)) => match judge(alloc, group, net, asked, line) {
            Ok(()) => Ok(()),
            Err(AuditStop::At(cause)) => Err(Halt::At(cause)),
            Err(AuditStop::Memory) => Err(Halt::Memory),
        },
        Ok(None) => Err(Halt::Strange),
        Err(Memory) => Err(Halt::Memory),
    }
}

/// The verdict for a line of this number.
fn verdict_of(halt: Halt, number: u32) -> Verdict
    ensures { result ≡ verdict_of halt number }
{
    match halt {
        Halt::At(cause) => Verdict::No(number, cause),
        Halt::Strange => Verdict::Line(number),
        Halt::Memory => Verdict::Memory,
    }
}

/// Audits what is left of a log behind so many of its lines.
fn audit_rest(alloc: Global, group: &Group, net: Net, number: u32, log: &[u8]) -> Verdict
    requires home { IsAddress group.now.home }
    requires sound { IsWithinLimits net }
    requires short { number + length log.now < 2 ^ 32 }
    ensures { AuditedOrWants group.now.home group.now.names (state net []) number (lines_of log.now)
        result }
{
    let mut net = net;
    let mut asked = List::new(alloc);
    let mut rest = log;
    let mut number = number;
    'lines: while !rest.is_empty() {
        let (line, after) = next_line(rest);
        number += 1;
        match take_line(alloc, group, &mut net, &mut asked, line) {
            Ok(()) => {}
            Err(halt) => return verdict_of(halt, number),
        }
        rest = after;
    }
    Verdict::Yes(number)
}

/// What the first line of a log tells, where it tells random words: these, and the log behind it.
fn opening_of(alloc: Global, log: &[u8]) -> Result<(List<u64>, u32, &[u8]), Memory>
    ensures opening { IfOk result (λ o. opening_of (lines_of log.now)
        ≡ record { words = o.0; number = o.1; lines = lines_of o.2.now }) }
    ensures short { IfOk result (λ o. o.1 + length o.2.now ≤ length log.now) }
{
    if log.is_empty() {
        return Ok((List::new(alloc), 0, log));
    }
    let (line, after) = next_line(log);
    match read_words(alloc, line)? {
        Some(words) => Ok((words, 1, after)),
        None => Ok((List::new(alloc), 0, log)),
    }
}

/// Whether a recorded schedule of a network of these traders is what the network does, line by line. A target is of the
/// network where its profile has the host and port of `home`.
///
/// Each event must be accepted by the network, each change by its trader; each reply must be the one that the server
/// writes for what the network holds there, in its Request's order, version and id: to a look and to a query that has
/// ended. The reference of an iterator is taken as it is recorded, where it has at most 4,096 bytes and is nil exactly
/// where nothing is left.
///
/// The verdict is that of the first line that fails, or that isn't in the log's table (`read_line` of td_log), whatever
/// stands behind it; `Memory` when out of memory.
pub fn audit(alloc: Global, solo: Solo, home: Address, log: &[u8]) -> Verdict
    requires home { IsAddress home }
    requires short { length log.now < 2 ^ 32 }
    ensures { AuditsOrWants solo.traders.items home log.now result }
{
    match audit_log(alloc, solo.traders, home, log) {
        Ok(verdict) => verdict,
        Err(Memory) => Verdict::Memory,
    }
}

/// The same of a list of traders.
fn audit_log(
    alloc: Global,
    traders: Vec<Trader>,
    home: Address,
    log: &[u8],
) -> Result<Verdict, Memory>
    requires home { IsAddress home }
    requires short { length log.now < 2 ^ 32 }
    ensures { IfOk result (λ v. AuditsOrWants traders.items home log.now v) }
{
    let (words, number, rest) = opening_of(alloc, log)?;
    let group = group_of(alloc, &home, traders.as_slice())?;
    let net = Net::new(alloc, List::from_vec(traders), home, words);
    Ok(audit_rest(alloc, &group, net, number, rest))
}
