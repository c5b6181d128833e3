//! Calls of Admin from bytes.

ghost use Rattle.std.specs.Prelude.{◌≡◌};
ghost use Rattle.td_cdr.specs.Format.{Gives};
ghost use Rattle.td_cdr.specs.ValueFaults.{is_memory};
ghost use Rattle.td_ops.specs.Administration.{admin_row};

use crate::call::{Call, Look};
use crate::operation::AdminOperation;
use std::alloc::Global;
use td_cdr::{Reader, Spelled, ValueFault};

/// The kind of TypeCode of an object reference.
const OBJECT_REFERENCE: u32 = 14;

/// The parameters of an operation of Admin, but for its attributes. Where they are refused, the reader may have moved.
pub(crate) fn read_admin(
    alloc: Global,
    r: &mut Reader,
    operation: AdminOperation,
) -> Result<Call, ValueFault>
    ensures { Gives is_memory r.new result ((admin_row operation).body.format.reads r.old) }
{
    match operation {
        AdminOperation::ListOffers => Ok(Call::Look(Look::ListOffers {
            how_many: u32::read(alloc, r)?,
        })),
        AdminOperation::ListProxies => Ok(Call::Look(Look::ListProxies {
            how_many: u32::read(alloc, r)?,
        })),
        AdminOperation::SetTypeRepos => Err(ValueFault::Unsupported(OBJECT_REFERENCE)),
    }
}
