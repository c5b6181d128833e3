//! Groups of traders with the type Printer, and what a session does at one of them.

ghost use Rattle.std.specs.Prelude.{IfOk};
ghost use Rattle.td_cdr.specs.Text.{HasNoNul};
ghost use Rattle.td_typecode.specs.References.{reference};
ghost use Rattle.td_trader.specs.Admitted.{AdmitsChange};

use std::alloc::Global;
use td_cdr::{List, Memory, Shared, Text, share_owned_three};
use td_file::{Opened, read_file};
use td_ops::{Change, Desired, Look, Outcome, Query, Reply};
use td_policy::octets_policy;
use td_trader::{Begin, Solo, Traders};
use td_value::{Ior, Policy, SpecifiedServiceTypes};

/// The interface of the type Printer.
const INTERFACE: &str = "IDL:Printer:1.0";

/// The file of the trader `A`.
pub(crate) const ONE: &[u8] = b"address h 9\ntrader A\ntype Printer IDL:Printer:1.0\n";

/// The file of the traders `A` and `B`.
pub(crate) const TWO: &[u8] = b"address h 9\ntrader A\ntrader B\ntype Printer IDL:Printer:1.0\n";

/// The traders of a file.
pub(crate) fn traders(alloc: Global, file: &[u8]) -> Result<Solo, Memory> {
    if file.len() > 1000 {
        return Err(Memory);
    }
    match read_file(alloc, file) {
        Ok(opened) => Ok(traders_of(opened)),
        Err(_) => Err(Memory),
    }
}

fn traders_of(opened: Opened) -> Solo {
    let Opened { home, seed, solo } = opened;
    drop(home);
    drop(seed);
    solo
}

fn text(alloc: Global, text: &str) -> Result<Text, Memory> {
    Text::from_slice(alloc, text.as_bytes())
}

/// A text without NUL.
fn clean(alloc: Global, word: &str) -> Result<Text, Memory>
    ensures { IfOk result HasNoNul }
{
    let bytes = word.as_bytes();
    if bytes.contains(&0) {
        return Err(Memory);
    }
    Text::from_slice(alloc, bytes)
}

/// Adds a type at a trader, and says whether it was added.
pub(crate) fn adds<T: Traders>(alloc: Global, traders: &mut T, at: usize, name: &str) -> bool
    ensures { T.same traders.old traders.new }
{
    match added(alloc, name) {
        Ok(change) => comes_to(traders, at, change, Reported::Incarnation),
        Err(_) => false,
    }
}

#[tactic(auto, using(crate::proofs::Admitted::added))]
fn added(alloc: Global, name: &str) -> Result<Change, Memory>
    ensures { IfOk result AdmitsChange }
{
    let name = clean(alloc, name)?;
    let if_name = clean(alloc, INTERFACE)?;
    Ok(Change::AddType {
        name,
        if_name,
        props: List::new(alloc),
        super_types: List::new(alloc),
    })
}

/// Exports a Printer at a trader, and says whether it was exported.
pub(crate) fn exports<T: Traders>(alloc: Global, traders: &mut T, at: usize) -> bool
    ensures { T.same traders.old traders.new }
{
    match exported(alloc) {
        Ok(change) => comes_to(traders, at, change, Reported::Id),
        Err(_) => false,
    }
}

#[tactic(auto, using(crate::proofs::Admitted::exported))]
fn exported(alloc: Global) -> Result<Change, Memory>
    ensures { IfOk result AdmitsChange }
{
    let service_type = clean(alloc, "Printer")?;
    let (reference, (service_type, properties)) = share_owned_three(
        alloc,
        (reference(alloc)?, (service_type, List::new(alloc))),
    )?;
    Ok(Change::Export {
        reference,
        service_type,
        properties,
    })
}

/// A reference of the interface of the type Printer.
#[tactic(auto, using(crate::proofs::Admitted::empty))]
fn reference(alloc: Global) -> Result<Ior, Memory>
    ensures { IfOk result (λ r. reference.format.admits r) }
{
    Ok(Ior {
        id: clean(alloc, INTERFACE)?,
        profiles: List::new(alloc),
    })
}

/// What a change came to: an id, an incarnation or another answer.
#[derive(Clone, Copy, PartialEq, Eq)]
enum Reported {
    Id,
    Incarnation,
    Other,
}

fn content_by(answer: Result<Outcome, Memory>) -> Reported {
    let content = match &answer {
        Ok(Outcome::Done(Reply::Id(_))) => Reported::Id,
        Ok(Outcome::Done(Reply::Incarnation(_))) => Reported::Incarnation,
        _ => Reported::Other,
    };
    drop(answer);
    content
}

fn comes_to<T: Traders>(traders: &mut T, at: usize, change: Change, wanted: Reported) -> bool
    requires { AdmitsChange change }
    ensures { T.same traders.old traders.new }
{
    if at < traders.count() {
        return content_by(traders.change(at, change)) == wanted;
    }
    drop(change);
    false
}

/// Whether a trader describes the offer with this id as a Printer.
pub(crate) fn describes<T: Traders>(alloc: Global, traders: &mut T, at: usize, id: &str) -> bool
    ensures { T.same traders.old traders.new }
{
    match text(alloc, id) {
        Ok(id) => is_printer(seen(traders, at, Look::Describe { id })),
        Err(_) => false,
    }
}

/// Whether a trader lists so many types.
pub(crate) fn lists<T: Traders>(traders: &mut T, at: usize, types: usize) -> bool
    ensures { T.same traders.old traders.new }
{
    let which = SpecifiedServiceTypes::All;
    has_names(seen(traders, at, Look::ListTypes { which }), types)
}

fn seen<T: Traders>(traders: &mut T, at: usize, look: Look) -> Result<(Outcome, u32), Memory>
    ensures { T.same traders.old traders.new }
{
    if at < traders.count() {
        let answer = traders.look(at, &look);
        drop(look);
        return answer;
    }
    drop(look);
    Err(Memory)
}

fn is_printer(answer: Result<(Outcome, u32), Memory>) -> bool {
    let passed = match &answer {
        Ok((Outcome::Done(Reply::Offer(info)), _)) => info.service_type.as_slice()
            == b"Printer".as_slice(),
        _ => false,
    };
    drop(answer);
    passed
}

fn has_names(answer: Result<(Outcome, u32), Memory>, count: usize) -> bool {
    let passed = match &answer {
        Ok((Outcome::Done(Reply::Names(names)), _)) => names.len() == count,
        _ => false,
    };
    drop(answer);
    passed
}

/// Begins a query for Printers under the identifier `q` at a trader, and tells how.
pub(crate) fn begins<T: Traders>(alloc: Global, traders: &mut T, at: usize) -> &'static str
    ensures { T.same traders.old traders.new }
{
    match identified(alloc) {
        Ok(query) => begins_as(traders, at, query),
        Err(_) => "memory",
    }
}

fn identified(alloc: Global) -> Result<Shared<Query>, Memory> {
    let policies = policies(alloc)?;
    let service_type = text(alloc, "Printer")?;
    let query = Query {
        service_type,
        constraint: Text::new(alloc),
        preference: Text::new(alloc),
        policies,
        desired: Desired::All,
        how_many: 10,
    };
    Shared::new(alloc, query)
}

/// The identifier `q` alone.
fn policies(alloc: Global) -> Result<List<Policy>, Memory> {
    let mut policies = List::new(alloc);
    policies.push(octets_policy(alloc, b"request_id".as_slice(), b"q".as_slice())?)?;
    Ok(policies)
}

fn begins_as<T: Traders>(traders: &mut T, at: usize, query: Shared<Query>) -> &'static str
    ensures { T.same traders.old traders.new }
{
    if at < traders.count() {
        let kind = kind_of(traders.begin(at, &query));
        drop(query);
        return kind;
    }
    drop(query);
    "no trader"
}

fn kind_of(answer: Result<Begin, Memory>) -> &'static str {
    let kind = match &answer {
        Ok(Begin::Search(local)) => search_of(local.get().mark),
        Ok(Begin::Repeat(1)) => "repeat 1",
        _ => "another",
    };
    drop(answer);
    kind
}

fn search_of(mark: u64) -> &'static str {
    if mark == 1 {
        "search 1"
    } else {
        "another search"
    }
}
