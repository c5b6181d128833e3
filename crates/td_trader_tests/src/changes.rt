//! Each kind of change and look: what it comes to, and what it is refused for.

ghost use Rattle.std.specs.Prelude.{◌≡◌, []};

use crate::lines::{NEW, Start, follows, is_answer, is_shown};
use crate::opening::empty_store;
use std::alloc::Global;
use std::process::Abort;
use std::test::Fail;
use td_cdr::{Memory, Text};
use td_changes::{apply, seek};
use td_ops::{Attribute, Change, Look, NumberAttribute};
use td_store::Store;

/// An ordinary offer 7 and a proxy offer 8 of the type Printer, and the link `b`.
pub const KEPT: Start = Start {
    last_offer: 6,
    lines: "add_type Printer;IDL:Printer:1.0; => incarnation 1
export IDL:Printer:1.0;Printer; => id 7
export_proxy @IDL:L:1.0;Printer;;TRUE;$*; => id 8
add_link b;@IDL:L:1.0;if_no_local;always;IDL:R:1.0 => done",
    ..NEW
};

const ATTRIBUTES: &str = "set_max_list 7 => number 100
set_max_list 8 => number 7
_get_max_list => number 8
set_supports_proxy_offers FALSE => TRUE
_get_supports_proxy_offers => FALSE
set_max_follow_policy local_only => always
_get_max_follow_policy => local_only";

#[test]
fn the_old_value_is_answered(rt: HostRuntime) -> Result<(), Fail> {
    follows(&rt, rt.alloc(), NEW, ATTRIBUTES)
}

const STEMS: &str = "set_request_id_stem 7*65 => IMP_LIMIT
_get_request_id_stem => stem A
set_request_id_stem 7*64 => stem A
_get_request_id_stem => stem 7*64";

#[test]
fn a_stem_is_at_most_64_octets(rt: HostRuntime) -> Result<(), Fail> {
    follows(&rt, rt.alloc(), NEW, STEMS)
}

/// Changes and looks at a store, each by one call.
#[test]
fn a_store_is_changed_and_looked_at(rt: HostRuntime) -> Result<(), Fail> {
    let alloc = rt.alloc();
    assert!(rt; changed_and_looked_at(alloc)?);
    Ok(())
}

fn changed_and_looked_at(alloc: Global) -> Result<bool, Memory> {
    let mut store = empty_store(alloc, 0)?;
    let passed = refused_then_changed(alloc, &mut store);
    drop(store);
    passed
}

/// A look is answered with max_list, too.
fn refused_then_changed(alloc: Global, store: &mut Store) -> Result<bool, Memory>
    requires { store.old.offers ≡ [] }
{
    let name = Text::from_slice(alloc, b"b")?;
    Ok(
        is_answer(
            apply(alloc, store, Change::RemoveLink { name }),
            "/Link/UnknownLinkName:1.0",
        ) && reads(alloc, store, 100, "number 100")
            && is_answer(
                apply(
                    alloc,
                    store,
                    Change::SetNumber {
                        attribute: NumberAttribute::MaxList,
                        value: 7,
                    },
                ),
                "number 100",
            )
            && reads(alloc, store, 7, "number 7"),
    )
}

fn reads(alloc: Global, store: &Store, max_list: u32, content: &str) -> bool {
    let look = Look::Get(Attribute::Number(NumberAttribute::MaxList));
    is_shown(seek(alloc, store, &look), max_list, content)
}

/// A trader that accepts no change more: each kind answers IMP_LIMIT where nothing else refuses it, and else its first
/// cause.
const BARRED: Start = Start { changes: 4, ..KEPT };

const OFFERS_BARRED: &str = "export IDL:Printer:1.0;Printer; => IMP_LIMIT
export IDL:Printer:1.0;Scanner; => /UnknownServiceType:1.0
withdraw 7 => IMP_LIMIT
withdraw 9 => /UnknownOfferId:1.0
modify 7;; => IMP_LIMIT
modify 07;; => /IllegalOfferId:1.0
withdraw_using_constraint Printer; => IMP_LIMIT
withdraw_using_constraint Printer;1 == 2 => /Register/NoMatchingOffers:1.0
list_offers => ids 7
list_proxies => ids 8";

#[test]
fn changes_of_offers(rt: HostRuntime) -> Result<(), Fail> {
    follows(&rt, rt.alloc(), BARRED, OFFERS_BARRED)
}

const LINKS_BARRED: &str = "add_link c;@IDL:L:1.0;local_only;local_only;IDL:R:1.0 => IMP_LIMIT
add_link b;@IDL:L:1.0;local_only;local_only;IDL:R:1.0 => /Link/DuplicateLinkName:1.0
remove_link b => IMP_LIMIT
remove_link c => /Link/UnknownLinkName:1.0
modify_link b;local_only;local_only => IMP_LIMIT
modify_link c;local_only;local_only => /Link/UnknownLinkName:1.0
export_proxy @IDL:L:1.0;Printer;;TRUE;$*; => IMP_LIMIT
withdraw_proxy 8 => IMP_LIMIT
withdraw_proxy 7 => /Proxy/NotProxyOfferId:1.0";

#[test]
fn changes_of_links_and_proxy_offers(rt: HostRuntime) -> Result<(), Fail> {
    follows(&rt, rt.alloc(), BARRED, LINKS_BARRED)
}

const ATTRIBUTES_BARRED: &str = "set_supports_proxy_offers FALSE => IMP_LIMIT
set_max_list 7 => IMP_LIMIT
set_max_follow_policy local_only => IMP_LIMIT
set_request_id_stem C => IMP_LIMIT
_get_supports_proxy_offers => TRUE";

#[test]
fn attributes(rt: HostRuntime) -> Result<(), Fail> {
    follows(&rt, rt.alloc(), BARRED, ATTRIBUTES_BARRED)
}

const TYPES_BARRED: &str = "mask_type Printer => IMP_LIMIT
remove_type Printer => IMP_LIMIT
remove_type Scanner => /UnknownServiceType:1.0";

/// A trader that accepts no change more, whose type is masked.
const MASKED: Start = Start {
    last_offer: 0,
    changes: 2,
    lines: "add_type Printer;IDL:Printer:1.0; => incarnation 1
mask_type Printer => done",
};

#[test]
fn changes_of_types(rt: HostRuntime) -> Result<(), Fail> {
    let alloc = rt.alloc();
    follows(&rt, alloc, BARRED, TYPES_BARRED)?;
    follows(&rt, alloc, MASKED, "unmask_type Printer => IMP_LIMIT")
}

/// What is refused is at fault with all that is refused later, too.
const LINKED: &str = "add_link b c;@IDL:L:1.0;always;if_no_local => /Link/IllegalLinkName:1.0
add_link b;@IDL:L:1.0;always;if_no_local => /Link/DuplicateLinkName:1.0
add_link c;@IDL:L:1.0;always;if_no_local => /InvalidLookupRef:1.0
add_link c;;always;if_no_local;IDL:R:1.0 => /InvalidLookupRef:1.0
set_max_link_follow_policy local_only => always
add_link c;@IDL:L:1.0;always;if_no_local;IDL:R:1.0 => /Link/DefaultFollowTooPermissive:1.0
add_link c;@IDL:L:1.0;always;always;IDL:R:1.0 => /Link/LimitingFollowTooPermissive:1.0
set_max_link_follow_policy always => local_only
add_link c;@IDL:L:1.0;always;always;IDL:R:1.0 => done
add_link c;@IDL:L:1.0;always;always;IDL:R:1.0 => /Link/DuplicateLinkName:1.0
describe_link c => rules always always
modify_link b;local_only;if_no_local => done
describe_link b => rules local_only if_no_local
set_max_link_follow_policy local_only => always
modify_link b c;always;if_no_local => /Link/IllegalLinkName:1.0
modify_link d;always;if_no_local => /Link/UnknownLinkName:1.0
modify_link b;always;if_no_local => /Link/DefaultFollowTooPermissive:1.0
modify_link b;local_only;always => /Link/LimitingFollowTooPermissive:1.0
describe_link b => rules local_only if_no_local";

#[test]
fn a_link_is_added_and_given_other_rules(rt: HostRuntime) -> Result<(), Fail> {
    follows(&rt, rt.alloc(), KEPT, LINKED)
}

/// The limit comes last.
const FULL: &str = "links 1023 => done
add_link one_more;@IDL:L:1.0;always;if_no_local;IDL:R:1.0 => /Link/DefaultFollowTooPermissive:1.0
add_link one_more;@IDL:L:1.0;always;always;IDL:R:1.0 => IMP_LIMIT";

#[test]
fn there_are_at_most_1024_links(rt: HostRuntime) -> Result<(), Fail> {
    follows(&rt, rt.alloc(), KEPT, FULL)
}

const UNLINKED: &str = "describe_link b => rules if_no_local always
describe_link c => /Link/UnknownLinkName:1.0
list_links => names b
remove_link b c => /Link/IllegalLinkName:1.0
remove_link b => done
remove_link b => /Link/UnknownLinkName:1.0
list_links => names";

#[test]
fn a_link_is_described_and_removed(rt: HostRuntime) -> Result<(), Fail> {
    follows(&rt, rt.alloc(), KEPT, UNLINKED)
}

/// Where proxy offers aren't supported, that comes before all else.
const PROXIED: &str = "describe_proxy 8 => proxy Printer;$*
describe_proxy 08 => /IllegalOfferId:1.0
describe_proxy 9 => /UnknownOfferId:1.0
describe_proxy 7 => /Proxy/NotProxyOfferId:1.0
list_offers => ids 7
list_proxies => ids 8
withdraw_proxy 08 => /IllegalOfferId:1.0
withdraw_proxy 9 => /UnknownOfferId:1.0
withdraw_proxy 7 => /Proxy/NotProxyOfferId:1.0
withdraw_proxy 8 => done
withdraw_proxy 8 => /UnknownOfferId:1.0
set_supports_proxy_offers FALSE => TRUE
withdraw_proxy 08 => NO_IMPLEMENT
describe_proxy 08 => NO_IMPLEMENT
list_proxies => /NotImplemented:1.0";

#[test]
fn a_proxy_offer_is_described_and_withdrawn(rt: HostRuntime) -> Result<(), Fail> {
    follows(&rt, rt.alloc(), KEPT, PROXIED)
}

const TYPES: &str = "add_type Printer;IDL:Printer:1.0; => incarnation 1
add_type Printer;IDL:Printer:1.0; => Repos/ServiceTypeRepository/ServiceTypeExists:1.0
mask_type Printer => done
mask_type Printer => Repos/ServiceTypeRepository/AlreadyMasked:1.0
unmask_type Printer => done
list_types 0 => names Printer
describe_type Printer => type IDL:Printer:1.0
fully_describe_type Printer => type IDL:Printer:1.0
remove_type Printer => done
remove_type Printer => /UnknownServiceType:1.0
add_type Printer;IDL:Printer:1.0; => incarnation 2";

#[test]
fn a_type_comes_and_goes(rt: HostRuntime) -> Result<(), Fail> {
    follows(&rt, rt.alloc(), NEW, TYPES)
}

/// What is at fault with the type comes before what is at fault with the constraint.
const CONSTRAINTS: &str = "withdraw_using_constraint Prin ter;and => /IllegalServiceType:1.0
withdraw_using_constraint Scanner;and => /UnknownServiceType:1.0
add_type Scanner;IDL:Printer:1.0; => incarnation 2
withdraw_using_constraint Scanner;and => /IllegalConstraint:1.0
withdraw_using_constraint Printer;and => /IllegalConstraint:1.0
withdraw_using_constraint Printer;exist Colour => /Register/NoMatchingOffers:1.0
describe 7 => offer Printer
withdraw_using_constraint Printer;not exist Colour => done
describe 7 => /UnknownOfferId:1.0
describe_proxy 8 => proxy Printer;$*
withdraw_using_constraint Printer; => /Register/NoMatchingOffers:1.0";

#[test]
fn offers_are_withdrawn_by_a_constraint(rt: HostRuntime) -> Result<(), Fail> {
    follows(&rt, rt.alloc(), KEPT, CONSTRAINTS)
}
