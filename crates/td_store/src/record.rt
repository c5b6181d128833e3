//! What is kept of an offer and of a link. Their larger parts are shared, so that a query's copies of them take no
//! memory but for their places.

ghost use Rattle.std.specs.Prelude.{◌≡◌, IfOk};

use std::alloc::Global;
use td_cdr::{List, Memory, Shared, Text, Twin};
use td_value::{FollowOption, Ior, Policy, Property};

/// An offer with its number, and the incarnation that its type had when it was exported (module
/// CosTrading, interface Register).
pub struct OfferRecord {
    /// The offer's number at this trader.
    pub number: u32,
    /// The object that is offered; of a proxy offer, the Lookup to which queries are passed on.
    pub reference: Shared<Ior>,
    pub service_type: Shared<Text>,
    pub incarnation: u64,
    pub properties: Shared<List<Property>>,
    /// What a proxy offer has besides.
    pub proxy: Option<Shared<ProxyPart>>,
}

// By hand, since a derived drop is written out at each exit, and proved again in each crate above.
impl Drop for OfferRecord {
    fn drop(self) {
        let OfferRecord {
            number: _number,
            reference: _reference,
            service_type: _service_type,
            incarnation: _incarnation,
            properties: _properties,
            proxy: _proxy,
        } = self;
    }
}

/// What a proxy offer has besides an offer (module CosTrading, interface Proxy).
#[derive(Drop)]
pub struct ProxyPart {
    pub if_match_all: bool,
    pub recipe: Text,
    pub policies: List<Policy>,
}

/// A link to another trader (module CosTrading, interface Link).
pub struct LinkRecord {
    pub name: Shared<Text>,
    /// The Lookup of the other trader.
    pub target: Shared<Ior>,
    /// The Register of the other trader.
    pub register: Shared<Ior>,
    pub def_pass_on: FollowOption,
    pub limiting: FollowOption,
}

impl Drop for LinkRecord {
    fn drop(self) {
        let LinkRecord {
            name: _name,
            target: _target,
            register: _register,
            def_pass_on: _def_pass_on,
            limiting: _limiting,
        } = self;
    }
}

impl Twin for OfferRecord {
    fn copy(&self, alloc: Global) -> Result<OfferRecord, Memory> {
        let reference = self.reference.copy(alloc)?;
        let service_type = self.service_type.copy(alloc)?;
        let properties = self.properties.copy(alloc)?;
        let proxy = copy_proxy(alloc, &self.proxy)?;
        Ok(OfferRecord {
            number: self.number,
            reference,
            service_type,
            incarnation: self.incarnation,
            properties,
            proxy,
        })
    }
}

/// One owner more of what a proxy offer has besides.
pub(crate) fn copy_proxy(
    alloc: Global,
    proxy: &Option<Shared<ProxyPart>>,
) -> Result<Option<Shared<ProxyPart>>, Memory>
    ensures { IfOk result (λ twin. twin ≡ proxy.now) }
{
    match proxy {
        None => Ok(None),
        Some(part) => Ok(Some(part.copy(alloc)?)),
    }
}

impl Twin for ProxyPart {
    fn copy(&self, alloc: Global) -> Result<ProxyPart, Memory> {
        Ok(ProxyPart {
            if_match_all: self.if_match_all,
            recipe: self.recipe.copy(alloc)?,
            policies: self.policies.copy(alloc)?,
        })
    }
}

impl Twin for LinkRecord {
    fn copy(&self, alloc: Global) -> Result<LinkRecord, Memory> {
        Ok(LinkRecord {
            name: self.name.copy(alloc)?,
            target: self.target.copy(alloc)?,
            register: self.register.copy(alloc)?,
            def_pass_on: self.def_pass_on,
            limiting: self.limiting,
        })
    }
}
