//! The attributes of a trader (OMG's Trading Object Service, "Attributes").

ghost use Rattle.std.specs.Prelude.{◌≡◌, IfOk};
ghost use Rattle.td_policy.specs.Attributes.{default_attributes, own_references, with_references};

use std::alloc::Global;
use td_cdr::{Memory, Octets, Shared, Text, Twin};
use td_value::{FollowOption, Ior};

/// The attributes of a trader, each by its name in the standard. What a trader's type repository
/// tells of itself (incarnation) isn't among them. The references are shared, since each query has a copy.
pub struct Attributes {
    /// The trader's own Lookup.
    pub lookup_if: Shared<Ior>,
    /// Its Register.
    pub register_if: Shared<Ior>,
    /// Its Link.
    pub link_if: Shared<Ior>,
    /// Its Proxy.
    pub proxy_if: Shared<Ior>,
    /// Its Admin.
    pub admin_if: Shared<Ior>,
    pub supports_modifiable_properties: bool,
    pub supports_dynamic_properties: bool,
    pub supports_proxy_offers: bool,
    /// The repository of the types of its offers.
    pub type_repos: Shared<Ior>,
    /// How many offers a query searches where it doesn't say.
    pub def_search_card: u32,
    /// How many offers a query searches at most.
    pub max_search_card: u32,
    /// How many offers a query matches where it doesn't say.
    pub def_match_card: u32,
    /// How many offers a query matches at most.
    pub max_match_card: u32,
    /// How many offers a query returns where it doesn't say.
    pub def_return_card: u32,
    /// How many offers a query returns at most.
    pub max_return_card: u32,
    /// How many items stand in a list at most, where the rest is left to an iterator.
    pub max_list: u32,
    /// Over how many links a query goes where it doesn't say.
    pub def_hop_count: u32,
    /// Over how many links a query goes at most.
    pub max_hop_count: u32,
    /// How far a query follows links where it doesn't say.
    pub def_follow_policy: FollowOption,
    /// How far a query follows links at most.
    pub max_follow_policy: FollowOption,
    /// How far a link may let itself be followed at most.
    pub max_link_follow_policy: FollowOption,
    /// How the identifiers begin that the trader gives to queries without one.
    pub request_id_stem: Octets,
}

// By hand, since a derived drop is written out at each exit, and proved again in each crate above.
impl Drop for Attributes {
    fn drop(self) {
        let Attributes {
            lookup_if: _lookup_if,
            register_if: _register_if,
            link_if: _link_if,
            proxy_if: _proxy_if,
            admin_if: _admin_if,
            supports_modifiable_properties: _supports_modifiable_properties,
            supports_dynamic_properties: _supports_dynamic_properties,
            supports_proxy_offers: _supports_proxy_offers,
            type_repos: _type_repos,
            def_search_card: _def_search_card,
            max_search_card: _max_search_card,
            def_match_card: _def_match_card,
            max_match_card: _max_match_card,
            def_return_card: _def_return_card,
            max_return_card: _max_return_card,
            max_list: _max_list,
            def_hop_count: _def_hop_count,
            max_hop_count: _max_hop_count,
            def_follow_policy: _def_follow_policy,
            max_follow_policy: _max_follow_policy,
            max_link_follow_policy: _max_link_follow_policy,
            request_id_stem: _request_id_stem,
        } = self;
    }
}

impl Attributes {
    /// The references.
    fn copy_references(&self, alloc: Global) -> Result<OwnReferences, Memory>
        ensures { IfOk result (λ own. own ≡ own_references self.now) }
    {
        Ok(OwnReferences {
            lookup: self.lookup_if.copy(alloc)?,
            register: self.register_if.copy(alloc)?,
            link: self.link_if.copy(alloc)?,
            proxy: self.proxy_if.copy(alloc)?,
            admin: self.admin_if.copy(alloc)?,
            types: self.type_repos.copy(alloc)?,
        })
    }

    /// The same attributes, with these references and this stem.
    fn with(&self, own: OwnReferences, stem: Octets) -> Attributes
        ensures { result ≡ with_references self.now own stem }
    {
        Attributes {
            lookup_if: own.lookup,
            register_if: own.register,
            link_if: own.link,
            proxy_if: own.proxy,
            admin_if: own.admin,
            supports_modifiable_properties: self.supports_modifiable_properties,
            supports_dynamic_properties: self.supports_dynamic_properties,
            supports_proxy_offers: self.supports_proxy_offers,
            type_repos: own.types,
            def_search_card: self.def_search_card,
            max_search_card: self.max_search_card,
            def_match_card: self.def_match_card,
            max_match_card: self.max_match_card,
            def_return_card: self.def_return_card,
            max_return_card: self.max_return_card,
            max_list: self.max_list,
            def_hop_count: self.def_hop_count,
            max_hop_count: self.max_hop_count,
            def_follow_policy: self.def_follow_policy,
            max_follow_policy: self.max_follow_policy,
            max_link_follow_policy: self.max_link_follow_policy,
            request_id_stem: stem,
        }
    }
}

impl Twin for Attributes {
    fn copy(&self, alloc: Global) -> Result<Attributes, Memory> {
        let own = self.copy_references(alloc)?;
        let stem = self.request_id_stem.copy(alloc)?;
        Ok(self.with(own, stem))
    }
}

/// The references of a trader's own objects.
#[derive(Drop)]
pub struct OwnReferences {
    pub lookup: Shared<Ior>,
    pub register: Shared<Ior>,
    pub link: Shared<Ior>,
    pub proxy: Shared<Ior>,
    pub admin: Shared<Ior>,
    /// The type repository.
    pub types: Shared<Ior>,
}

/// The attributes of a new trader: all kinds of offers are supported, every rule is `always`, and
/// the stem is the trader's name.
///
/// # Errors
///
/// `Memory` only when out of memory; the references are then dropped.
pub fn default_attributes(
    alloc: Global,
    name: &Text,
    own: OwnReferences,
) -> Result<Attributes, Memory>
    ensures { IfOk result (λ a. a ≡ default_attributes name.now own) }
{
    let stem = Octets::from_slice(alloc, name.as_slice())?;
    Ok(with_stem(own, stem))
}

/// The attributes of a new trader, with this stem.
fn with_stem(own: OwnReferences, stem: Octets) -> Attributes
    ensures { result ≡ default_attributes stem own }
{
    Attributes {
        lookup_if: own.lookup,
        register_if: own.register,
        link_if: own.link,
        proxy_if: own.proxy,
        admin_if: own.admin,
        supports_modifiable_properties: true,
        supports_dynamic_properties: true,
        supports_proxy_offers: true,
        type_repos: own.types,
        def_search_card: 10000,
        max_search_card: 1000000,
        def_match_card: 1000,
        max_match_card: 1000000,
        def_return_card: 1000,
        max_return_card: 1000000,
        max_list: 100,
        def_hop_count: 5,
        max_hop_count: 10,
        def_follow_policy: FollowOption::Always,
        max_follow_policy: FollowOption::Always,
        max_link_follow_policy: FollowOption::Always,
        request_id_stem: stem,
    }
}
