// Document 01, 'Pair tables': what a pair and the answers are. What a table of pairs is, and what each call makes of it, is said in specs/Table.antt.

#![tactic(auto)]

ghost use Rattle.std.specs.Prelude.{◌≡◌};
ghost use Rattle.rules.specs.Sequence.{sequence_told};
ghost use Rattle.pairs.specs.Table.{reached, check_sequence, accepted, number_of, values_of};

use rules::{Cid, SequenceAnswer, sequence_answer, sequence_difference};
use settings::SourceLimit;

// A pair with what its last arrival left.
#[derive(Clone, Copy)]
pub struct Pair {
    pub cid: Cid,
    pub universe: u16,
    pub sequence: u8,
    pub reading: u64,
}

// What an arrival answers.
#[derive(Clone, Copy)]
pub enum Checked {
    Accepted,
    // Number 4.
    UniverseTimeout(Cid, u16),
    // Number 6.
    SourcesExceeded(usize),
    // Number 7, late: arriving, last, difference.
    OutOfSequence(u8, u8, i8),
    // Number 10.
    PairsFull,
    // Number 21: arriving, last, difference.
    Repeated(u8, u8, i8),
}

// What a sweep answers.
#[derive(Clone, Copy)]
pub enum SweepAnswer {
    Quiet,
    // Number 4.
    TimedOut(Cid, u16),
}

// The number of listed CIDs is at the limit. Called by `pair_tables`.
pub fn is_reached(limit: SourceLimit, n: usize) -> bool
    ensures { result ≡ reached limit n }
{
    match limit {
        SourceLimit::Unlimited => false,
        SourceLimit::AtMost(most) => most as usize <= n,
    }
}

// Rule 4 for a pair that is held: what the sequence rule answers of the arriving number and the last.
pub fn check_sequence(arriving: u8, last: u8) -> Checked
    ensures value { result ≡ check_sequence arriving last }
    ensures told { (number_of result, values_of result) ≡ sequence_told arriving last }
{
    let difference = sequence_difference(arriving, last);
    match sequence_answer(difference) {
        SequenceAnswer::Accepted => Checked::Accepted,
        SequenceAnswer::Repeated => Checked::Repeated(arriving, last, difference),
        SequenceAnswer::Late => Checked::OutOfSequence(arriving, last, difference),
    }
}

// Nothing stopped the arrival.
pub fn is_accepted(answer: Checked) -> bool
    ensures { result ≡ accepted answer }
{
    matches!(answer, Checked::Accepted)
}
