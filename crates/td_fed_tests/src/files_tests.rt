//! Files: what they open, and why they are refused.

use crate::checking::{Case, check};
use std::alloc::Global;
use std::process::Abort;
use std::test::Fail;
use td_file::{FileFault, LineCause};

// ---- what is opened

/// Files, with `|` for each line feed, and of each trader its name, and how many types, offers, proxy offers and links
/// it has.
const WHOLE: &str = "address h 9 => none
address h 9|trader A => A 0 0 0 0
address h 9|trader A|link l B always always|trader B|link l A always always => A 0 0 0 1, B 0 0 0 1
address h 9|trader A|link l A always always => A 0 0 0 1
address h 9|trader A|type C -|offer C ref:x,h,1,k|trader B|type C -|offer C ref:x,h,1,k|offer C ref:x,h,1,k \
=> A 1 1 0 0, B 1 2 0 0
address h 9|trader A|type C -|proxy C ref:x,h,1,k all $*|offer C ref:x,h,1,k|with short X 1 => A 1 1 1 0
address h 9|trader A|link l ref:x,h,9,l ref:x,h,9,r always always => A 0 0 0 1";

#[test]
fn whole_files(rt: HostRuntime) -> Result<(), Fail> {
    check(&rt, rt.alloc(), Case::File, WHOLE)
}

const GROUP: &str = "GROUP => A 2 2 1 2, B 2 1 0 1, C 1 0 unsupported 2";

/// The third trader has no proxy offers to list.
#[test]
fn group_of_three(rt: HostRuntime) -> Result<(), Fail> {
    check(&rt, rt.alloc(), Case::File, GROUP)
}

const CITIES: &str = "CITIES => North 4 200 0 1, South 4 1 0 1, East 4 1 0 1";

#[test]
fn three_cities(rt: HostRuntime) -> Result<(), Fail> {
    check(&rt, rt.alloc(), Case::File, CITIES)
}

const OBJECTS: &str = "GROUP;1 get lookup_if => IDL:omg.org/CosTrading/Lookup:1.0 host 2809 B/L
GROUP;1 get register_if => IDL:omg.org/CosTrading/Register:1.0 host 2809 B/R
GROUP;1 get link_if => IDL:omg.org/CosTrading/Link:1.0 host 2809 B/K
GROUP;1 get proxy_if => IDL:omg.org/CosTrading/Proxy:1.0 host 2809 B/P
GROUP;1 get admin_if => IDL:omg.org/CosTrading/Admin:1.0 host 2809 B/A
GROUP;1 get type_repos => IDL:omg.org/CosTradingRepos/ServiceTypeRepository:1.0 host 2809 B/T";

/// Each trader tells the references of its own objects.
#[test]
fn own_objects(rt: HostRuntime) -> Result<(), Fail> {
    check(&rt, rt.alloc(), Case::Look, OBJECTS)
}

const LINKS: &str = "GROUP;0 link next => IDL:omg.org/CosTrading/Lookup:1.0 host 2809 B/L;\
IDL:omg.org/CosTrading/Register:1.0 host 2809 B/R;if_no_local always
GROUP;0 link out => IDL:L:1.0 h 9 l;IDL:R:1.0 h 9 r;local_only if_no_local";

/// A link to a trader that comes later has its Lookup and its own Register, an outside one those of its line.
#[test]
fn links_of_the_first(rt: HostRuntime) -> Result<(), Fail> {
    check(&rt, rt.alloc(), Case::Look, LINKS)
}

const SETTINGS: &str = "GROUP;address => host 2809
GROUP;seed => 0 1 2 3 4 5 6 7 8 9 10 11 12 13 14 15 16 17 18 19 20 21 22 23 24 25 26 27 28 29 30 31
GROUP;0 get request_id_stem => 0 255
GROUP;1 get request_id_stem => 66
GROUP;1 get max_list => 100
GROUP;2 get max_list => 7";

/// What a line sets stands, and all else is as it is where nothing is set.
#[test]
fn settings(rt: HostRuntime) -> Result<(), Fail> {
    check(&rt, rt.alloc(), Case::Look, SETTINGS)
}

const OFFERS: &str = "GROUP;0 offer 2 => Device
GROUP;0 proxy 3 => Printer;Cost < $(Cost)";

/// Numbers go from 1 in the order of the lines.
#[test]
fn offers_of_the_first(rt: HostRuntime) -> Result<(), Fail> {
    check(&rt, rt.alloc(), Case::Look, OFFERS)
}

const VERSIONS: &str = "address h 9|trader A;address => h 9
address h 9|iiop 0|trader A;address => h 9
address h 9|iiop 1|trader A;address => h 9/1
address h 9|iiop 1|trader A;0 get lookup_if => IDL:omg.org/CosTrading/Lookup:1.0 h 9/1 A/L
address h 9|iiop 1|trader A;0 get type_repos => IDL:omg.org/CosTradingRepos/ServiceTypeRepository:1.0 h 9/1 A/T
address h 9|iiop 1|trader A|link l A always always;0 link l => IDL:omg.org/CosTrading/Lookup:1.0 h 9/1 A/L;\
IDL:omg.org/CosTrading/Register:1.0 h 9/1 A/R;always always
address h 9|iiop 1|trader A|link l ref:x,h,9,A/L ref:y,h,9,A/R always always;0 link l => x h 9 A/L;y h 9 A/R;\
always always";

/// The server's own references have the version that the file tells, and others are kept as they are given.
#[test]
fn versions(rt: HostRuntime) -> Result<(), Fail> {
    check(&rt, rt.alloc(), Case::Look, VERSIONS)
}

// ---- what is refused

/// Files, with `|` for each line feed, the line at which they are refused, and why. The operation refuses an entry.
const REJECTED: &str = "address h 9|trader A|type B -|type B - => 4 rejected
address h 9|trader A|type B - C => 3 rejected
address h 9|trader A|type B - C|type C - => 3 rejected
address h 9|trader A|type B\0 - => 3 rejected
address h 9|trader A|type B -|prop normal short 1x => 3 rejected
address h 9|trader A|type B -|prop normal short X|prop normal short X|type C - => 3 rejected
address h 9|trader A|interface a|interface b|type B a|type C b B => 6 rejected
address h 9|trader A|offer B ref:x,h,1,k => 3 rejected
address h 9|trader A|type B -|trader C|offer B ref:x,h,1,k => 5 rejected
address h 9|trader A|type B -|offer B IOR:00000000000000010000000000000000 => 4 rejected
address h 9|trader A|type B -|prop mandatory ulong X|offer B ref:x,h,1,k => 5 rejected
address h 9|trader A|type B -|prop mandatory ulong X|offer B ref:x,h,1,k|with short X 1 => 5 rejected
address h 9|trader A|type B -|offer B ref:x,h,1,k|with short X 1|with short X 2 => 4 rejected
address h 9|trader A|interface a|interface b|type B a|offer B ref:b,h,1,k => 6 rejected
address h 9|trader A|set supports_dynamic_properties FALSE|type B -|prop normal short X|\
offer B ref:x,h,1,k|dynamic short X ref:e,h,1,e => 6 rejected
address h 9|trader A|type B -|prop normal short X|offer B ref:x,h,1,k|dynamic long X ref:e,h,1,e => 5 rejected
address h 9|trader A|proxy B ref:x,h,1,k all $* => 3 rejected
address h 9|trader A|type B -|proxy B IOR:00000000000000010000000000000000 all $* => 4 rejected
address h 9|trader A|type B -|proxy B ref:x,h,1,k match $(1) => 4 rejected
address h 9|trader A|set supports_proxy_offers FALSE|type B -|proxy B ref:x,h,1,k all $* => 5 rejected
address h 9|trader A|trader B|link l A always always|link l B always always => 5 rejected
address h 9|trader A|link l\0 A always always => 3 rejected
address h 9|trader A|link l A always local_only => 3 rejected
address h 9|trader A|set max_link_follow_policy local_only|link l A local_only always => 4 rejected
address h 9|trader A|link l ref:x,h,9,l IOR:00000000000000010000000000000000 always always => 3 rejected
address h 9|trader A|link l IOR:000000000000000278000000000000010000000100000000 ref:x,h,9,r always always => 3 rejected
address h 9|trader A|link l IOR:00000000000000010000000000000000 ref:x,h,9,r always always => 3 rejected";

#[test]
fn rejected_entries(rt: HostRuntime) -> Result<(), Fail> {
    check(&rt, rt.alloc(), Case::File, REJECTED)
}

/// Links to traders that the file doesn't have are refused last; until then they count as added. Of two causes in one
/// entry the lines' own comes before what the operation refuses, and the first entry that is refused is answered.
const ORDERED: &str = "address h 9|trader A|link l B always always => 3 name
address h 9|trader A|link l B always always|trader C => 3 name
address h 9|trader A|trader B|link l C always always|trader D|link m E always always => 4 name
address h 9|trader A|link l B always always|type C -|type C - => 5 rejected
address h 9|trader A|link l B always always|link l A always always => 4 rejected
address h 9|trader A|link l B always local_only => 3 rejected
address h 9|trader A|link l B always always|link m A often always => 4 name
address h 9|trader A|link l B always always|foo => 4 words
address h 9|trader A|offer B ref:x,h,1,k|with real X 1 => 3 name
address h 9|trader A|type B - C|prop fast short X => 3 name
address h 9|trader A|offer B ref:x,h,1,k|with short X x => 3 value
address h 9|trader A|type B -|type B -|foo => 4 rejected
address h 9|trader A|type B -|type B -|trader C|type D -|type D - => 4 rejected
address h 9|trader A|trader B|type C - D|trader E|type F - G => 4 rejected
address h 9|trader A|trader A => 3 twice
address h 9|trader A|offer B x => 3 reference
address h 70000 => 1 number
trader A => 1 place
# only => 1 place
 => 1 place";

#[test]
fn first_refusals(rt: HostRuntime) -> Result<(), Fail> {
    check(&rt, rt.alloc(), Case::File, ORDERED)
}

/// A stem of 64 octets, and one of 65.
const STEMS: &str =
    "address h 9|trader A|stem 0f0f0f0f0f0f0f0f0f0f0f0f0f0f0f0f0f0f0f0f0f0f0f0f0f0f0f0f0f0f0f0f\
0f0f0f0f0f0f0f0f0f0f0f0f0f0f0f0f0f0f0f0f0f0f0f0f0f0f0f0f0f0f0f0f => A 0 0 0 0
address h 9|trader A|stem 0f0f0f0f0f0f0f0f0f0f0f0f0f0f0f0f0f0f0f0f0f0f0f0f0f0f0f0f0f0f0f0f\
0f0f0f0f0f0f0f0f0f0f0f0f0f0f0f0f0f0f0f0f0f0f0f0f0f0f0f0f0f0f0f0f0f => 3 rejected";

#[test]
fn stems(rt: HostRuntime) -> Result<(), Fail> {
    check(&rt, rt.alloc(), Case::File, STEMS)
}

fn is_printed(alloc: Global) -> bool {
    match format!(in alloc; "{}", FileFault::Line(7, LineCause::Rejected)) {
        Ok(text) => text.as_str() == "line 7: rejected",
        Err(_) => false,
    }
}

/// Faults as they are printed.
#[test]
fn printed_faults(rt: HostRuntime) -> Result<(), Fail> {
    assert!(rt; is_printed(rt.alloc()));
    Ok(())
}
