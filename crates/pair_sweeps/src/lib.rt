// The passes of a sweep over the lent rows of a pair table: what stays, what is noted, which CIDs have a pair.
// For `pair_tables`.

#![tactic(auto)]

ghost use Rattle.std.specs.Prelude.{◌≡◌, not, map, ◌≤◌, take, drop};
ghost use Rattle.laws.specs.Table.{keep, Ascending};
ghost use Rattle.pairs.specs.Table.{capacity, key_of, key_before, has, live, lowest, last_noted, noted};
ghost use Rattle.pair_rows.specs.View.{pair_of, pairs_of, listed_sources_of, lonely, starts, lapsed, note_of, later_note, Walkable};

use pair_rows::{PairRows, SourceRows, cid_of, pair_of, skip_before};
use pairs::{Pair, SweepAnswer};
use rules::{Cid, is_expired};

pub fn is_live(pair: Pair, reading: u64) -> bool
    ensures { result ≡ live reading pair }
{
    !is_expired(reading, pair.reading)
}

// Of the first n pairs those that are live; how many.
pub fn keep_live(pairs: &mut PairRows, n: usize, reading: u64) -> usize
    requires { n ≤ capacity }
    ensures { (result ≤ n) × (pairs_of result pairs.new ≡ keep (live reading) (pairs_of n pairs.old)) }
{
    let mut kept = 0;
    for i in 0..n {
        if is_live(pair_of(pairs[i]), reading) {
            if kept < i {
                pairs[kept] = pairs[i];
            }
            kept += 1;
        }
    }
    kept
}

// Whether the pair at place j has this CID.
pub fn starts_with(pairs: &PairRows, n: usize, j: usize, cid: Cid) -> bool
    requires { n ≤ capacity }
    ensures { result ≡ starts cid (drop j (take n pairs.now)) }
{
    j < n && pair_of(pairs[j]).cid.is_same(cid)
}

// Of the first m CIDs those that have a pair, by one walk along both lists; how many.
pub fn keep_sources(pairs: &PairRows, n: usize, sources: &mut SourceRows, m: usize) -> usize
    requires { Walkable n pairs.now m sources.old }
    ensures { (result ≤ m)
        × (listed_sources_of result sources.new ≡ keep (has (pairs_of n pairs.now)) (listed_sources_of m sources.old)) }
{
    let mut kept = 0;
    let mut j = 0;
    for i in 0..m {
        let cid = cid_of(sources[i]);
        j = skip_before(pairs, n, j, cid);
        if starts_with(pairs, n, j, cid) {
            if kept < i {
                sources[kept] = sources[i];
            }
            kept += 1;
        }
    }
    kept
}

// Whether each of the first m CIDs has a pair, by the same walk.
pub fn all_paired(pairs: &PairRows, n: usize, sources: &SourceRows, m: usize) -> bool
    requires { Walkable n pairs.now m sources.now }
    ensures { result ≡ not (lonely (pairs_of n pairs.now) (listed_sources_of m sources.now)) }
{
    let mut j = 0;
    for i in 0..m {
        let cid = cid_of(sources[i]);
        j = skip_before(pairs, n, j, cid);
        if !starts_with(pairs, n, j, cid) {
            return false;
        }
    }
    true
}

// Whether this is an expired pair of the CID.
pub fn is_lapsed(pair: Pair, cid: Cid, reading: u64) -> bool
    ensures { result ≡ lapsed reading cid pair }
{
    pair.cid.is_same(cid) && is_expired(reading, pair.reading)
}

// Of the pairs from place j on the CID's expired one of lowest universe. A pair after the CID ends the walk.
pub fn lowest_expired(pairs: &PairRows, n: usize, j: usize, cid: Cid, reading: u64) -> SweepAnswer
    requires { (n ≤ capacity) × (j ≤ n) × Ascending key_before key_of (pairs_of n pairs.now) }
    ensures { result ≡ note_of (lowest reading (map pair_of (drop j (take n pairs.now))) cid) }
{
    for i in j..n {
        let pair = pair_of(pairs[i]);
        if cid.is_before(pair.cid) {
            return SweepAnswer::Quiet;
        }
        if is_lapsed(pair, cid, reading) {
            return SweepAnswer::TimedOut(pair.cid, pair.universe);
        }
    }
    SweepAnswer::Quiet
}

// Of two notes the later one.
pub fn later_note(a: SweepAnswer, b: SweepAnswer) -> SweepAnswer
    ensures { result ≡ later_note a b }
{
    match b {
        SweepAnswer::Quiet => a,
        SweepAnswer::TimedOut(_, _) => b,
    }
}

// What the last of the m sources that has an expired pair notes, by one walk along both lists.
pub fn last_note(
    pairs: &PairRows,
    n: usize,
    sources: &SourceRows,
    m: usize,
    reading: u64,
) -> SweepAnswer
    requires { Walkable n pairs.now m sources.now }
    ensures { result ≡ note_of (last_noted reading (pairs_of n pairs.now) (listed_sources_of m sources.now)) }
{
    let mut last = SweepAnswer::Quiet;
    let mut j = 0;
    for i in 0..m {
        let cid = cid_of(sources[i]);
        j = skip_before(pairs, n, j, cid);
        last = later_note(last, lowest_expired(pairs, n, j, cid, reading));
    }
    last
}

// Nothing if the first source has no expired pair; else what the last one notes.
pub fn note(pairs: &PairRows, n: usize, sources: &SourceRows, m: usize, reading: u64) -> SweepAnswer
    requires { Walkable n pairs.now m sources.now }
    ensures { result ≡ note_of (noted reading (pairs_of n pairs.now) (listed_sources_of m sources.now)) }
{
    if m == 0 {
        return SweepAnswer::Quiet;
    }
    match lowest_expired(pairs, n, 0, cid_of(sources[0]), reading) {
        SweepAnswer::Quiet => SweepAnswer::Quiet,
        SweepAnswer::TimedOut(_, _) => last_note(pairs, n, sources, m, reading),
    }
}
