//! Calls of Link and Proxy from bytes.

ghost use Rattle.std.specs.Prelude.{◌≡◌};
ghost use Rattle.td_cdr.specs.Format.{Gives};
ghost use Rattle.td_cdr.specs.ValueFaults.{is_memory};
ghost use Rattle.td_ops.specs.Links.{link_row};
ghost use Rattle.td_ops.specs.Proxies.{proxy_row};

use crate::call::{AddLink, Call, Change, Look};
use crate::operation::{LinkOperation, ProxyOperation};
use std::alloc::Global;
use td_cdr::{List, Reader, Shared, Spelled, Text, ValueFault};
use td_value::{FollowOption, Ior, Policy, Property};

/// The parameters of an operation of Link. Where they are refused, the reader may have moved.
pub(crate) fn read_link(
    alloc: Global,
    r: &mut Reader,
    operation: LinkOperation,
) -> Result<Call, ValueFault>
    ensures { Gives is_memory r.new result ((link_row operation).body.format.reads r.old) }
{
    match operation {
        LinkOperation::AddLink => Ok(Call::AddLink(AddLink::read(alloc, r)?)),
        LinkOperation::RemoveLink => Ok(Call::Change(Change::RemoveLink {
            name: Text::read(alloc, r)?,
        })),
        LinkOperation::DescribeLink => Ok(Call::Look(Look::DescribeLink {
            name: Text::read(alloc, r)?,
        })),
        LinkOperation::ListLinks => Ok(Call::Look(Look::ListLinks)),
        LinkOperation::ModifyLink => {
            let (name, (def_pass_on, limiting)) = <(Text, (FollowOption, FollowOption))>::read(
                alloc, r,
            )?;
            Ok(Call::Change(Change::ModifyLink {
                name,
                def_pass_on,
                limiting,
            }))
        }
    }
}

/// The parameters of an operation of Proxy. Where they are refused, the reader may have moved.
pub(crate) fn read_proxy(
    alloc: Global,
    r: &mut Reader,
    operation: ProxyOperation,
) -> Result<Call, ValueFault>
    ensures { Gives is_memory r.new result ((proxy_row operation).body.format.reads r.old) }
{
    match operation {
        ProxyOperation::ExportProxy => {
            let (target, (service_type, (properties, (if_match_all, (recipe, policies))))) = <(
                Shared<Ior>,
                (
                    Shared<Text>,
                    (Shared<List<Property>>, (bool, (Text, List<Policy>))),
                ),
            )>::read(alloc, r)?;
            Ok(Call::Change(Change::ExportProxy {
                target,
                service_type,
                properties,
                if_match_all,
                recipe,
                policies,
            }))
        }
        ProxyOperation::WithdrawProxy => Ok(Call::Change(Change::WithdrawProxy {
            id: Text::read(alloc, r)?,
        })),
        ProxyOperation::DescribeProxy => Ok(Call::Look(Look::DescribeProxy {
            id: Text::read(alloc, r)?,
        })),
    }
}
