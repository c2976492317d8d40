// Document 01, 'Pair tables': pairs of a CID and a universe with their last sequence number and reading, and the CIDs that count as sources.
// A table is a small header by value; its rows lie in memory that the caller lends to every call, and are changed in place.
#![tactic(auto)]

// What every call of a table is lent.
ghost use Rattle.std.specs.Prelude.{◌≡◌, true, false, not, ◌&&◌, ◌≤◌, ℕ};
ghost use Rattle.laws.specs.Table.{remove};
ghost use Rattle.rules.specs.Age.{expired};
ghost use Rattle.rules.specs.Cid.{before};
ghost use Rattle.pairs.specs.Table.{capacity, key, itself, sweep, admit, check};
ghost use Rattle.pair_rows.specs.View.{pairs_of, listed_sources_of, found_at};
ghost use Rattle.pair_tables.specs.Promises.{table_before, Leaves};
ghost use Rattle.pair_tables.specs.View.{answered, removal, renewed, quiet, reading_noted, Kept, Emptied, Unmoved, PairsKept, Stored, Admitted, Judged, RenewsPair, Renews, NewPair, KnownPair, NewSource, arriving};

use laws::{After, insert_at, remove_at};
pub use pair_rows::{PairRows, SourceRows};
use pair_rows::{
    PAIRS, find_source, has_pair, least_reading, pair_of, pair_row, place_of, same_key,
    source_place, source_row,
};
use pair_sweeps::{all_paired, keep_live, keep_sources, note};
use pairs::{Checked, Pair, SweepAnswer, check_sequence, is_accepted, is_reached};
use rules::{Cid, DataSequence, SyncSequence, is_expired};
use settings::SourceLimit;
use std::marker::PhantomData;

// What a table says of its lent rows: how many pairs and sources are in use, a reading that no pair is older than, and whether each listed CID is
// known to have a pair.
#[derive(Clone, Copy)]
pub struct PairTable {
    pub count: usize,
    pub source_count: usize,
    pub oldest: u64,
    pub tidy: bool,
}

// The CID taken off the list; how many are left.
fn drop_source(sources: &mut SourceRows, n: usize, cid: Cid) -> usize
    requires { n ≤ capacity }
    ensures { (result ≤ n) × (listed_sources_of result sources.new ≡ remove before itself cid (listed_sources_of n sources.old)) }
{
    let Some(at) = find_source(sources, n, cid) else {
        return n;
    };
    remove_at(sources, n, at);
    n - 1
}

impl PairTable {
    // No pairs and no sources, whatever the rows hold.
    fn new() -> PairTable
        ensures { Emptied result }
    {
        PairTable {
            count: 0,
            source_count: 0,
            oldest: u64::MAX,
            tidy: true,
        }
    }

    fn find(self, pairs: &PairRows, cid: Cid, universe: u16) -> Option<usize>
        requires { self.count ≤ capacity }
        ensures { result ≡ found_at (key cid universe) (pairs_of self.count pairs.now) }
    {
        let i = place_of(pairs, self.count, cid, universe);
        if i < self.count && same_key(pair_of(pairs[i]), cid, universe) {
            Some(i)
        } else {
            None
        }
    }

    // The pair goes, and its CID with its last pair. The answer: it was there.
    fn remove(
        self,
        pairs: &mut PairRows,
        sources: &mut SourceRows,
        cid: Cid,
        universe: u16,
    ) -> After<PairTable, bool>
        requires { Kept self pairs.old sources.old }
        ensures { Leaves result.left pairs sources result.answer (removal (key cid universe) (table_before self pairs sources)) }
    {
        let Some(at) = self.find(pairs, cid, universe) else {
            return After {
                left: self,
                answer: false,
            };
        };
        remove_at(pairs, self.count, at);
        let count = self.count - 1;
        if has_pair(pairs, count, cid) {
            After {
                left: PairTable { count, ..self },
                answer: true,
            }
        } else {
            let source_count = drop_source(sources, self.source_count, cid);
            After {
                left: PairTable {
                    count,
                    source_count,
                    ..self
                },
                answer: true,
            }
        }
    }

    // No pair can be expired and no CID be without a pair.
    fn is_idle(self, reading: u64) -> bool
        ensures { result ≡ self.tidy && not (expired reading self.oldest) }
    {
        self.tidy && !is_expired(reading, self.oldest)
    }

    // By its notes alone, a sweep has nothing to do.
    fn is_quiet(self, announce: bool, reading: u64) -> bool
        ensures { result ≡ quiet announce reading self }
    {
        if announce {
            !is_expired(reading, self.oldest)
        } else {
            self.is_idle(reading)
        }
    }

    // The header with its notes made anew from the rows.
    fn renew_notes(self, pairs: &PairRows, sources: &SourceRows) -> PairTable
        requires { Kept self pairs.now sources.now }
        ensures { result ≡ renewed self pairs.now sources.now }
    {
        PairTable {
            oldest: least_reading(pairs, self.count),
            tidy: self.tidy || all_paired(pairs, self.count, sources, self.source_count),
            ..self
        }
    }

    // All expired pairs go, and every CID without a pair. Rows are written only if there are such.
    fn sweep_expired(
        self,
        pairs: &mut PairRows,
        sources: &mut SourceRows,
        reading: u64,
    ) -> After<PairTable, SweepAnswer>
        requires { Kept self pairs.old sources.old }
        ensures view { Leaves result.left pairs sources result.answer (answered (sweep false reading (table_before self pairs sources))) }
        ensures quiet { Unmoved self pairs.old sources.old reading pairs.new sources.new }
    {
        if self.is_idle(reading) {
            return After {
                left: self,
                answer: SweepAnswer::Quiet,
            };
        }
        let renewed = self.renew_notes(pairs, sources);
        if renewed.is_idle(reading) {
            return After {
                left: renewed,
                answer: SweepAnswer::Quiet,
            };
        }
        let count = keep_live(pairs, self.count, reading);
        let oldest = least_reading(pairs, count);
        let source_count = keep_sources(pairs, count, sources, self.source_count);
        After {
            left: PairTable {
                count,
                source_count,
                oldest,
                tidy: true,
            },
            answer: SweepAnswer::Quiet,
        }
    }

    // The pair of the last source noted goes, and is told; where none is noted the header's notes are made anew.
    fn sweep_announced(
        self,
        pairs: &mut PairRows,
        sources: &mut SourceRows,
        reading: u64,
    ) -> After<PairTable, SweepAnswer>
        requires { Kept self pairs.old sources.old }
        ensures view { Leaves result.left pairs sources result.answer (answered (sweep true reading (table_before self pairs sources))) }
        ensures quiet { Unmoved self pairs.old sources.old reading pairs.new sources.new }
    {
        if !is_expired(reading, self.oldest) {
            return After {
                left: self,
                answer: SweepAnswer::Quiet,
            };
        }
        match note(pairs, self.count, sources, self.source_count, reading) {
            SweepAnswer::Quiet => After {
                left: self.renew_notes(pairs, sources),
                answer: SweepAnswer::Quiet,
            },
            SweepAnswer::TimedOut(cid, universe) => After {
                left: self.remove(pairs, sources, cid, universe).left,
                answer: SweepAnswer::TimedOut(cid, universe),
            },
        }
    }

    fn sweep(
        self,
        pairs: &mut PairRows,
        sources: &mut SourceRows,
        announce: bool,
        reading: u64,
    ) -> After<PairTable, SweepAnswer>
        requires { Kept self pairs.old sources.old }
        ensures view { Leaves result.left pairs sources result.answer (answered (sweep announce reading (table_before self pairs sources))) }
        ensures quiet { Unmoved self pairs.old sources.old reading pairs.new sources.new }
    {
        if announce {
            self.sweep_announced(pairs, sources, reading)
        } else {
            self.sweep_expired(pairs, sources, reading)
        }
    }

    // The header with a pair of this reading in its rows.
    fn note_reading(self, reading: u64) -> PairTable
        ensures { result ≡ reading_noted reading self }
    {
        PairTable {
            oldest: self.oldest.min(reading),
            ..self
        }
    }

    // A pair that is not held goes in at its place.
    fn store_new(self, pairs: &mut PairRows, pair: Pair) -> PairTable
        requires { NewPair self pairs.old pair }
        ensures { Stored self pairs.old result pairs.new pair }
    {
        let at = place_of(pairs, self.count, pair.cid, pair.universe);
        insert_at(pairs, self.count, at, pair_row(pair));
        PairTable {
            count: self.count + 1,
            oldest: self.oldest.min(pair.reading),
            ..self
        }
    }

    // Rule 4 for a pair that is held.
    fn check_known(self, pairs: &PairRows, at: usize, pair: Pair) -> Checked
        requires { KnownPair self pairs.now at pair }
        ensures { Judged pair (pairs_of self.count pairs.now) result }
    {
        let held = pair_of(pairs[at]);
        check_sequence(pair.sequence, held.sequence)
    }

    // A pair takes the place of the one with its key.
    fn store_known(self, pairs: &mut PairRows, at: usize, pair: Pair) -> PairTable
        requires { KnownPair self pairs.old at pair }
        ensures rows { Stored self pairs.old result pairs.new pair }
        ensures header { result ≡ reading_noted pair.reading self }
    {
        pairs[at] = pair_row(pair);
        self.note_reading(pair.reading)
    }

    // A pair that is held and whose number follows takes its place; otherwise all is left.
    fn renew_pair(self, pairs: &mut PairRows, pair: Pair) -> bool
        requires { PairsKept self pairs.old }
        ensures { RenewsPair self pairs.old pair pairs.new result }
    {
        let Some(at) = self.find(pairs, pair.cid, pair.universe) else {
            return false;
        };
        if is_accepted(self.check_known(pairs, at, pair)) {
            self.store_known(pairs, at, pair);
            true
        } else {
            false
        }
    }

    // An arrival that no sweep precedes and nothing stops: the pair is held, its CID listed, its number follows. Otherwise all is left.
    fn renew(self, pairs: &mut PairRows, sources: &SourceRows, announce: bool, pair: Pair) -> bool
        requires { Kept self pairs.old sources.now }
        ensures { Renews announce pair self pairs.old sources.now pairs.new result }
    {
        self.is_quiet(announce, pair.reading)
            && find_source(sources, self.source_count, pair.cid).is_some()
            && self.renew_pair(pairs, pair)
    }

    // Rules 3 to 5 for the pairs: full, refused, or stored.
    fn admit_pair(self, pairs: &mut PairRows, pair: Pair) -> After<PairTable, Checked>
        requires { PairsKept self pairs.old }
        ensures { Admitted self pairs.old result.left pairs.new result.answer pair }
    {
        let Some(at) = self.find(pairs, pair.cid, pair.universe) else {
            if PAIRS <= self.count {
                return After {
                    left: self,
                    answer: Checked::PairsFull,
                };
            }
            return After {
                left: self.store_new(pairs, pair),
                answer: Checked::Accepted,
            };
        };
        let answer = self.check_known(pairs, at, pair);
        if is_accepted(answer) {
            After {
                left: self.store_known(pairs, at, pair),
                answer: Checked::Accepted,
            }
        } else {
            After { left: self, answer }
        }
    }

    // Rules 2 to 5 for a CID that is not listed.
    fn admit_source(
        self,
        pairs: &mut PairRows,
        sources: &mut SourceRows,
        limit: SourceLimit,
        pair: Pair,
    ) -> After<PairTable, Checked>
        requires { NewSource self pairs.old sources.old pair }
        ensures { Leaves result.left pairs sources result.answer (admit limit pair (table_before self pairs sources)) }
    {
        let n = self.source_count;
        if is_reached(limit, n) {
            return After {
                left: self,
                answer: Checked::SourcesExceeded(n),
            };
        }
        if PAIRS <= n {
            return After {
                left: self,
                answer: Checked::PairsFull,
            };
        }
        let arrival = self.admit_pair(pairs, pair);
        if is_accepted(arrival.answer) {
            let at = source_place(sources, n, pair.cid);
            insert_at(sources, n, at, source_row(pair.cid));
            After {
                left: PairTable {
                    source_count: n + 1,
                    ..arrival.left
                },
                answer: Checked::Accepted,
            }
        } else {
            arrival
        }
    }

    // Rules 2 to 5, on the table as swept.
    fn admit(
        self,
        pairs: &mut PairRows,
        sources: &mut SourceRows,
        limit: SourceLimit,
        pair: Pair,
    ) -> After<PairTable, Checked>
        requires { Kept self pairs.old sources.old }
        ensures { Leaves result.left pairs sources result.answer (admit limit pair (table_before self pairs sources)) }
    {
        if find_source(sources, self.source_count, pair.cid).is_some() {
            self.admit_pair(pairs, pair)
        } else {
            self.admit_source(pairs, sources, limit, pair)
        }
    }

    // An arrival: sweep, then rules 2 to 5. The pair carries the arriving sequence number and the reading.
    fn check_seq_number(
        self,
        pairs: &mut PairRows,
        sources: &mut SourceRows,
        limit: SourceLimit,
        announce: bool,
        pair: Pair,
    ) -> After<PairTable, Checked>
        requires { Kept self pairs.old sources.old }
        ensures { Leaves result.left pairs sources result.answer (check limit announce pair (table_before self pairs sources)) }
    {
        let swept = self.sweep(pairs, sources, announce, pair.reading);
        match swept.answer {
            SweepAnswer::Quiet => swept.left.admit(pairs, sources, limit, pair),
            SweepAnswer::TimedOut(cid, universe) => After {
                left: swept.left,
                answer: Checked::UniverseTimeout(cid, universe),
            },
        }
    }
}

// A sequence number of one kind of packet.
pub trait SequenceNumber: Copy {
    ghost value: { Self → ℕ };

    fn number(self) -> u8
        ensures { result ≡ value self };
}

impl SequenceNumber for DataSequence {
    ghost value = { λ s. s.0 };

    fn number(self) -> u8 {
        let DataSequence(number) = self;
        number
    }
}

impl SequenceNumber for SyncSequence {
    ghost value = { λ s. s.0 };

    fn number(self) -> u8 {
        let SyncSequence(number) = self;
        number
    }
}

// The table of one kind of packet: only a sequence number of that kind enters it.
#[derive(Clone, Copy)]
pub struct TableOf<S> {
    pub table: PairTable,
    pub kind: PhantomData<S>,
}

// The table of data packets.
pub type DataTable = TableOf<DataSequence>;

// The table of synchronisation packets.
pub type SyncTable = TableOf<SyncSequence>;

impl<S: SequenceNumber> TableOf<S> {
    pub fn of(table: PairTable) -> TableOf<S>
        ensures { result.table ≡ table }
    {
        TableOf {
            table,
            kind: PhantomData,
        }
    }

    pub fn new() -> TableOf<S>
        ensures { Emptied result.table }
    {
        TableOf {
            table: PairTable::new(),
            kind: PhantomData,
        }
    }

    pub fn clear(self) -> TableOf<S>
        ensures { Emptied result.table }
    {
        TableOf {
            table: PairTable::new(),
            ..self
        }
    }

    pub fn find(self, pairs: &PairRows, cid: Cid, universe: u16) -> Option<usize>
        requires { self.table.count ≤ capacity }
        ensures { result ≡ found_at (key cid universe) (pairs_of self.table.count pairs.now) }
    {
        self.table.find(pairs, cid, universe)
    }

    // By its notes alone, a sweep has nothing to do.
    pub fn is_quiet(self, announce: bool, reading: u64) -> bool
        ensures { result ≡ quiet announce reading self.table }
    {
        self.table.is_quiet(announce, reading)
    }

    pub fn sweep(
        self,
        pairs: &mut PairRows,
        sources: &mut SourceRows,
        announce: bool,
        reading: u64,
    ) -> After<TableOf<S>, SweepAnswer>
        requires { Kept self.table pairs.old sources.old }
        ensures view { Leaves result.left.table pairs sources result.answer (answered (sweep announce reading (table_before self.table pairs sources))) }
        ensures quiet { Unmoved self.table pairs.old sources.old reading pairs.new sources.new }
    {
        let swept = self.table.sweep(pairs, sources, announce, reading);
        After {
            left: TableOf {
                table: swept.left,
                ..self
            },
            answer: swept.answer,
        }
    }

    // The answer: the pair was there.
    pub fn remove(
        self,
        pairs: &mut PairRows,
        sources: &mut SourceRows,
        cid: Cid,
        universe: u16,
    ) -> After<TableOf<S>, bool>
        requires { Kept self.table pairs.old sources.old }
        ensures { Leaves result.left.table pairs sources result.answer (removal (key cid universe) (table_before self.table pairs sources)) }
    {
        let removed = self.table.remove(pairs, sources, cid, universe);
        After {
            left: TableOf {
                table: removed.left,
                ..self
            },
            answer: removed.answer,
        }
    }

    // The commonest arrival; `note_reading` gives the header that then goes with the rows. Otherwise all is left.
    pub fn renew(
        self,
        pairs: &mut PairRows,
        sources: &SourceRows,
        announce: bool,
        cid: Cid,
        universe: u16,
        sequence: S,
        reading: u64,
    ) -> bool
        requires { Kept self.table pairs.old sources.now }
        ensures { Renews announce (arriving cid universe (S.value sequence) reading) self.table
            pairs.old sources.now pairs.new result }
    {
        let pair = Pair {
            cid,
            universe,
            sequence: sequence.number(),
            reading,
        };
        self.table.renew(pairs, sources, announce, pair)
    }

    // The header with a pair of this reading in its rows.
    pub fn note_reading(self, reading: u64) -> TableOf<S>
        ensures { result.table ≡ reading_noted reading self.table }
    {
        TableOf {
            table: self.table.note_reading(reading),
            ..self
        }
    }

    pub fn check_seq_number(
        self,
        pairs: &mut PairRows,
        sources: &mut SourceRows,
        limit: SourceLimit,
        announce: bool,
        cid: Cid,
        universe: u16,
        sequence: S,
        reading: u64,
    ) -> After<TableOf<S>, Checked>
        requires { Kept self.table pairs.old sources.old }
        ensures { Leaves result.left.table pairs sources result.answer
            (check limit announce (arriving cid universe (S.value sequence) reading) (table_before self.table pairs sources)) }
    {
        let pair = Pair {
            cid,
            universe,
            sequence: sequence.number(),
            reading,
        };
        if self.table.renew(pairs, sources, announce, pair) {
            After {
                left: self.note_reading(reading),
                answer: Checked::Accepted,
            }
        } else {
            let arrival = self
                .table
                .check_seq_number(pairs, sources, limit, announce, pair);
            After {
                left: TableOf {
                    table: arrival.left,
                    ..self
                },
                answer: arrival.answer,
            }
        }
    }
}
