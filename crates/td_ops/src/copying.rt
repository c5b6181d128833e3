//! Copies of the calls that a pass hands on to another thread: queries and looks.

use crate::call::{Look, Query};
use std::alloc::Global;
use td_cdr::{Memory, Twin, copy_three, copy_two};

impl Twin for Query {
    fn copy(&self, alloc: Global) -> Result<Query, Memory> {
        let (service_type, (constraint, preference)) = copy_three(
            alloc,
            &self.service_type,
            &self.constraint,
            &self.preference,
        )?;
        let (policies, desired) = copy_two(alloc, &self.policies, &self.desired)?;
        Ok(Query {
            service_type,
            constraint,
            preference,
            policies,
            desired,
            how_many: self.how_many,
        })
    }
}

impl Twin for Look {
    fn copy(&self, alloc: Global) -> Result<Look, Memory> {
        match self {
            Look::Describe { id } => Ok(Look::Describe {
                id: id.copy(alloc)?,
            }),
            Look::DescribeLink { name } => Ok(Look::DescribeLink {
                name: name.copy(alloc)?,
            }),
            Look::ListLinks => Ok(Look::ListLinks),
            Look::DescribeProxy { id } => Ok(Look::DescribeProxy {
                id: id.copy(alloc)?,
            }),
            Look::ListOffers { how_many } => Ok(Look::ListOffers {
                how_many: *how_many,
            }),
            Look::ListProxies { how_many } => Ok(Look::ListProxies {
                how_many: *how_many,
            }),
            Look::ListTypes { which } => Ok(Look::ListTypes {
                which: which.copy(alloc)?,
            }),
            Look::DescribeType { name } => Ok(Look::DescribeType {
                name: name.copy(alloc)?,
            }),
            Look::FullyDescribeType { name } => Ok(Look::FullyDescribeType {
                name: name.copy(alloc)?,
            }),
            Look::Get(attribute) => Ok(Look::Get(*attribute)),
        }
    }
}
