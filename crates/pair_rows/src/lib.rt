// Rows of pair tables in lent memory: what a row stands for, and where a key stands.

#![tactic(auto)]

mod rows;
mod search;

ghost use Rattle.std.specs.Prelude.{◌≡◌};
ghost use Rattle.pairs.specs.Table.{capacity};

// What a lent row stands for.
pub use crate::rows::{cid_of, pair_of};

// What the passes of `pair_sweeps` and the calls of `pair_tables` are made of; no other crate uses these.
pub use crate::rows::{pair_row, source_row};
pub use crate::search::{
    find_source, has_pair, least_reading, place_of, same_key, skip_before, source_place,
};

// How many pairs a table holds, and how many CIDs it lists.
pub const PAIRS: usize = 1024;

// [CID high, CID low, universe * 256 + sequence, reading]
pub type PairRow = [u64; 4];

// [CID high, CID low]
pub type SourceRow = [u64; 2];

pub type PairRows = [PairRow; PAIRS];

pub type SourceRows = [SourceRow; PAIRS];

// The number that the definitions speak of is the one that the rows have.
pub fn capacity() -> usize
    ensures { result ≡ capacity }
{
    PAIRS
}
