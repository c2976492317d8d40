// What is read off the lent rows: where a key stands, and which CIDs have a pair.
ghost use Rattle.std.specs.Prelude.{◌≡◌, ◌+◌, ◌≤◌, take, drop};
ghost use Rattle.laws.specs.Place.{place, prefix};
ghost use Rattle.rules.specs.Cid.{before};
ghost use Rattle.pairs.specs.Table.{capacity, key, key_of, key_before, itself, has};
ghost use Rattle.pair_rows.specs.View.{pairs_of, listed_sources_of, same_key, lower, last_reading, source_at, row_before};

use crate::rows::{cid_of, pair_of};
use crate::{PairRows, SourceRows};
use pairs::Pair;
use rules::Cid;

#[tactic(auto, using(crate::specs::Rows::key_before_by))]
fn key_before(pair: Pair, cid: Cid, universe: u16) -> bool
    ensures { result ≡ key_before (key_of pair) (key cid universe) }
{
    pair.cid.is_before(cid) || !cid.is_before(pair.cid) && pair.universe < universe
}

pub fn same_key(pair: Pair, cid: Cid, universe: u16) -> bool
    ensures { result ≡ same_key pair cid universe }
{
    pair.cid.is_same(cid) && pair.universe == universe
}

// How many pairs stand before the key. A walk, since halving would ask for pairs in order, which no caller is asked for.
pub fn place_of(pairs: &PairRows, n: usize, cid: Cid, universe: u16) -> usize
    requires { n ≤ capacity }
    ensures { (result ≤ n) × (result ≡ place key_before key_of (key cid universe) (pairs_of n pairs.now)) }
{
    pairs[..n]
        .iter()
        .take_while(|row| key_before(pair_of(**row), cid, universe))
        .count()
}

// How many CIDs stand before this one.
pub fn source_place(sources: &SourceRows, n: usize, cid: Cid) -> usize
    requires { n ≤ capacity }
    ensures { (result ≤ n) × (result ≡ place before itself cid (listed_sources_of n sources.now)) }
{
    sources[..n]
        .iter()
        .take_while(|row| cid_of(**row).is_before(cid))
        .count()
}

// Where the CID is listed.
pub fn find_source(sources: &SourceRows, n: usize, cid: Cid) -> Option<usize>
    requires { n ≤ capacity }
    ensures { result ≡ source_at cid (listed_sources_of n sources.now) }
{
    let i = source_place(sources, n, cid);
    if i < n && cid_of(sources[i]).is_same(cid) {
        Some(i)
    } else {
        None
    }
}

// Whether the CID has a pair.
pub fn has_pair(pairs: &PairRows, n: usize, cid: Cid) -> bool
    requires { n ≤ capacity }
    ensures { result ≡ has (pairs_of n pairs.now) cid }
{
    pairs[..n].iter().any(|row| pair_of(*row).cid.is_same(cid))
}

// The least reading of the pairs; the largest number if there are none.
pub fn least_reading(pairs: &PairRows, n: usize) -> u64
    requires { n ≤ capacity }
    ensures { result ≡ lower last_reading (pairs_of n pairs.now) }
{
    pairs[..n]
        .iter()
        .fold(u64::MAX, |least, row| least.min(pair_of(*row).reading))
}

// From place j on, the first pair whose CID is not before this one.
pub fn skip_before(pairs: &PairRows, n: usize, j: usize, cid: Cid) -> usize
    requires { (n ≤ capacity) × (j ≤ n) }
    ensures { (result ≤ n) × (result ≡ j + prefix (row_before cid) (drop j (take n pairs.now))) }
{
    j + pairs[j..n]
        .iter()
        .take_while(|row| pair_of(**row).cid.is_before(cid))
        .count()
}
