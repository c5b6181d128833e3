//! Lists that are cut: the ids of offers, and offers.

use crate::auditing::PRINTERS;
use crate::checking::check;
use std::process::Abort;
use std::test::Fail;

/// Ids, whole and cut by how many are asked for and by max_list. The reference of the iterator is any, of at most 4,096
/// bytes, and is nil exactly where nothing is left.
const IDS: &str = "yes 1 <= look A $list-request $list
no 1 differs <= look A $list-request $list-any
no 1 differs <= look A $list-request $list-one-any
yes 1 <= look A $list-one-request $list-one-any
no 1 differs <= look A $list-one-request $list-one-nil
no 1 differs <= look A $list-one-request $list
yes 1 <= look A $list-one-request $list-one-4096
no 1 differs <= look A $list-one-request $list-one-4097
yes 2 <= change A $set-request $set/look A $list-request $list-one-any
no 2 differs <= change A $set-request $set/look A $list-request $list
yes 1 <= look A $list-none-request $list-none-any
no 1 differs <= look A $list-none-request $list-one-any";

#[test]
fn ids(rt: HostRuntime) -> Result<(), Fail> {
    check(&rt, rt.alloc(), PRINTERS, IDS)
}

/// Offers, by how_many and by the max_list with which the query ended.
const OFFERS: &str = "yes 2 <= ask A $query-one/reply 0 $found-one-any
no 2 differs <= ask A $query-one/reply 0 $found-one-nil
no 2 differs <= ask A $query-one/reply 0 $found
no 2 differs <= ask A $query/reply 0 $found-one-any
no 2 differs <= ask A $query/reply 0 $found-any
yes 2 <= ask A $query-one/reply 0 $found-one-4096
no 2 differs <= ask A $query-one/reply 0 $found-one-4097
yes 3 <= change A $set-request $set/ask A $query/reply 0 $found-one-any
no 3 differs <= change A $set-request $set/ask A $query/reply 0 $found
yes 3 <= ask A $query/change A $set-request $set/reply 0 $found
yes 3 <= ask A $query-one/reply 0 $found-one-any/reply 0 $found-one-4096";

#[test]
fn offers(rt: HostRuntime) -> Result<(), Fail> {
    check(&rt, rt.alloc(), PRINTERS, OFFERS)
}
