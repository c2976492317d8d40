// Both pair tables, as the crate's `SequenceNumbering`: data and synchronisation are counted apart.

#![tactic(auto)]

ghost use Rattle.std.specs.Prelude.{◌≡◌};
ghost use Rattle.pairs.specs.Table.{key};
ghost use Rattle.sequences.specs.Sequences.{timeouts, removed};
ghost use Rattle.sequences.specs.Promises.{sequence_rows_in, sequence_rows};
ghost use Rattle.sequences.specs.View.{numbers_of, quiet, Kept, Follows, Unmoved, Emptied, answered};

use laws::After;
use pair_rows::{PairRows, SourceRows};
use pair_tables::{DataTable, SyncTable};
use pairs::SweepAnswer;
use rules::Cid;

#[derive(Clone, Copy)]
pub struct SequenceNumbering {
    pub data: DataTable,
    pub sync: SyncTable,
}

impl SequenceNumbering {
    pub fn new() -> SequenceNumbering
        ensures { Emptied result }
    {
        SequenceNumbering {
            data: DataTable::new(),
            sync: SyncTable::new(),
        }
    }

    pub fn clear(self) -> SequenceNumbering
        ensures { Emptied result }
    {
        SequenceNumbering {
            data: self.data.clear(),
            sync: self.sync.clear(),
        }
    }

    // By the notes of both tables, `check_timeouts` has nothing to do.
    pub fn is_quiet(self, announce: bool, reading: u64) -> bool
        ensures { result ≡ quiet announce reading self }
    {
        self.data.is_quiet(announce, reading) && self.sync.is_quiet(announce, reading)
    }

    // The data table is swept, then the synchronisation table; number 4 ends it.
    pub fn check_timeouts(
        self,
        data_pairs: &mut PairRows,
        data_sources: &mut SourceRows,
        sync_pairs: &mut PairRows,
        sync_sources: &mut SourceRows,
        announce: bool,
        reading: u64,
    ) -> After<SequenceNumbering, SweepAnswer>
        requires { Kept self (sequence_rows_in data_pairs data_sources sync_pairs sync_sources) }
        ensures view { let m = sequence_rows data_pairs data_sources sync_pairs sync_sources in
            Follows result.left m.exit result.answer (answered (timeouts announce reading (numbers_of self m.entry))) }
        ensures quiet { let m = sequence_rows data_pairs data_sources sync_pairs sync_sources in
            Unmoved self m.entry reading m.exit }
    {
        let data = self.data.sweep(data_pairs, data_sources, announce, reading);
        match data.answer {
            SweepAnswer::Quiet => {
                let sync = self.sync.sweep(sync_pairs, sync_sources, announce, reading);
                After {
                    left: SequenceNumbering {
                        data: data.left,
                        sync: sync.left,
                    },
                    answer: sync.answer,
                }
            }
            SweepAnswer::TimedOut(cid, universe) => After {
                left: SequenceNumbering {
                    data: data.left,
                    ..self
                },
                answer: SweepAnswer::TimedOut(cid, universe),
            },
        }
    }

    // A stream that ends: its pair leaves the data table, and only if it was there the synchronisation table too.
    pub fn remove_seq_numbers(
        self,
        data_pairs: &mut PairRows,
        data_sources: &mut SourceRows,
        sync_pairs: &mut PairRows,
        sync_sources: &mut SourceRows,
        cid: Cid,
        universe: u16,
    ) -> SequenceNumbering
        requires { Kept self (sequence_rows_in data_pairs data_sources sync_pairs sync_sources) }
        ensures view { let m = sequence_rows data_pairs data_sources sync_pairs sync_sources in
            numbers_of result m.exit ≡ removed (key cid universe) (numbers_of self m.entry) }
        ensures kept { let m = sequence_rows data_pairs data_sources sync_pairs sync_sources in
            Kept result m.exit }
    {
        let data = self.data.remove(data_pairs, data_sources, cid, universe);
        if data.answer {
            let sync = self.sync.remove(sync_pairs, sync_sources, cid, universe);
            SequenceNumbering {
                data: data.left,
                sync: sync.left,
            }
        } else {
            SequenceNumbering {
                data: data.left,
                ..self
            }
        }
    }
}
