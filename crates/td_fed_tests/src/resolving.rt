//! Names of links in a group of traders.

use crate::looking::is_outcome;
use crate::scripts::peers;
use crate::words::{names, two};
use std::alloc::Global;
use td_cdr::Memory;
use td_fed::{NameAnswer, resolve};
use td_trader::{Solo, Traders};
use td_value::Ior;
use td_walk::{Address, PeerFault};

/// Whether a name that is resolved from A on comes to what is told: `NAME;SCRIPT`; and what peers were asked, and the
/// outcome.
pub(crate) fn resolves(
    alloc: Global,
    group: &mut Solo,
    home: &Address,
    asked: &str,
    content: &str,
) -> Result<bool, Memory> {
    if group.count() == 0 {
        return Ok(false);
    }
    let (words, script) = two(asked);
    let name = names(alloc, words)?;
    let mut peers = peers(alloc, script, 0)?;
    let answer = resolve(alloc, group, home, 0, &name, &mut peers);
    Ok(is_answer(alloc, answer, content))
}

fn is_answer(alloc: Global, answer: Result<NameAnswer, Memory>, content: &str) -> bool {
    let (given, outcome) = content.split_once(' ').unwrap_or((content, ""));
    let passed = match &answer {
        Ok(answer) => given_word(&answer.asked) == given
            && is_outcome(alloc, &answer.outcome, outcome),
        Err(_) => false,
    };
    drop(answer);
    passed
}

fn given_word(asked: &Option<Result<Ior, PeerFault>>) -> &'static str {
    match asked {
        None => "none",
        Some(Ok(_)) => "given",
        Some(Err(_)) => "failed",
    }
}
