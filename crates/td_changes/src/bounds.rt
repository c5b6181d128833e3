//! How much a trader takes.

/// How many changes are accepted at most, whatever the bound of a trader.
pub const MOST_CHANGES: usize = 1_000_000;

/// The limits of one trader between its opening and its end.
#[derive(Clone, Copy, Debug)]
pub struct Bounds {
    /// How many identifiers of queries it remembers, from 1 to 4,096.
    pub ring: u32,
    /// How many changes it accepts; more than 1,000,000 are never accepted.
    pub changes: u64,
    /// How many searches it begins, at most 2^40.
    pub begins: u64,
}
