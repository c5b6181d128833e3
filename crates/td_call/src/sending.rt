//! Writing all of a piece.

ghost use Rattle.std.specs.Prelude.{◌≡◌, ◌≤◌, option_map, OnOk, OnErr};
ghost use Rattle.td_out.specs.Causes.{Rose};
ghost use Rattle.td_wire.specs.Connections.{wrote};
ghost use Rattle.td_call.specs.Moving.{SendsFront};

use td_out::Failed;
use td_wire::Wire;

/// Writes all of a piece.
///
/// # Errors
///
/// The wire's fault; a front of the piece was then written.
#[tactic(auto, using(crate::proofs::Moving::sends_kept))]
pub(crate) fn write_all<L: Wire>(wire: &mut L, piece: &[u8]) -> Result<(), Failed>
    ensures same { L.same wire.old wire.new }
    ensures bytes { OnOk result (L.content wire.new ≡ option_map (wrote piece.now)
        (L.content wire.old)) }
    ensures later { L.faults wire.old ≤ L.faults wire.new }
    ensures sends { SendsFront piece.now (L.content wire.old) (L.content wire.new) }
    ensures failed { OnErr result (Rose (L.faults wire.old) (L.faults wire.new)) }
{
    let mut rest = piece;
    while !rest.is_empty() {
        let size = wire.write(rest)?;
        let (_written, left) = rest.split_at(size);
        rest = left;
    }
    Ok(())
}
