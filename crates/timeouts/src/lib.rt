// The poll: both pair tables and the waiting data, swept.

#![tactic(auto)]

ghost use Rattle.std.specs.Prelude.{◌≡◌};
ghost use Rattle.waiting_store.specs.Entries.{Kept as WaitingKept};
ghost use Rattle.sequences.specs.Promises.{sequence_rows_in, sequence_rows};
ghost use Rattle.sequences.specs.View.{Kept as SequencesKept};
ghost use Rattle.timeouts.specs.View.{Polls, idle};

use pair_rows::{PairRows, SourceRows};
use pairs::SweepAnswer;
use sequences::SequenceNumbering;
use settings::Settings;
use waiting_calls::Waiting;
use waiting_store::EntryRows;

// Two states and an answer: three names read plainer than an `After` of a pair.
#[derive(Clone, Copy)]
pub struct Polled {
    pub sequences: SequenceNumbering,
    pub waiting: Waiting,
    pub answer: SweepAnswer,
}

// By the notes of both tables no pair goes, and nothing waits: a poll changes nothing.
pub fn is_idle(
    sequences: SequenceNumbering,
    waiting: Waiting,
    settings: Settings,
    reading: u64,
) -> bool
    ensures { result ≡ idle settings reading sequences waiting.count }
{
    sequences.is_quiet(settings.announce_timeout, reading) && waiting.count == 0
}

// Both pair tables are swept, then the waiting data; number 4 ends it.
pub fn poll(
    sequences: SequenceNumbering,
    waiting: Waiting,
    data_pairs: &mut PairRows,
    data_sources: &mut SourceRows,
    sync_pairs: &mut PairRows,
    sync_sources: &mut SourceRows,
    rows: &mut EntryRows,
    store: &mut [u8],
    settings: Settings,
    reading: u64,
) -> Polled
    requires { SequencesKept sequences (sequence_rows_in data_pairs data_sources sync_pairs sync_sources)
        × WaitingKept waiting.count rows.old store.old }
    ensures { let m = sequence_rows data_pairs data_sources sync_pairs sync_sources in
        Polls settings reading
        sequences m.entry waiting.count rows.old store.old
        result.sequences m.exit result.waiting.count rows.new store.new result.answer }
{
    if sequences.is_quiet(settings.announce_timeout, reading) {
        let left = waiting.check_waiting_data_timeouts(rows, store, reading);
        return Polled {
            sequences,
            waiting: left,
            answer: SweepAnswer::Quiet,
        };
    }
    let checked = sequences.check_timeouts(
        data_pairs,
        data_sources,
        sync_pairs,
        sync_sources,
        settings.announce_timeout,
        reading,
    );
    let sequences = checked.left;
    let SweepAnswer::TimedOut(cid, universe) = checked.answer else {
        return Polled {
            sequences,
            waiting: waiting.check_waiting_data_timeouts(rows, store, reading),
            answer: SweepAnswer::Quiet,
        };
    };
    Polled {
        sequences,
        waiting,
        answer: SweepAnswer::TimedOut(cid, universe),
    }
}
