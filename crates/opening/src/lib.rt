// Document 01, 'The receiver', 1 and 2 of a step: lengths, then the poll.

#![tactic(auto)]

ghost use Rattle.std.specs.Prelude.{◌≡◌, true, List, ℕ, length};
ghost use Rattle.sequences.specs.View as sequences;
ghost use Rattle.laws.specs.Lent.{untouched};
ghost use Rattle.receiver.specs.View.{Memory, with_discovery_rows, KeptWaiting, Kept};
ghost use Rattle.sequences.specs.Promises.{sequence_rows_in};
ghost use Rattle.receiver.specs.Promises.{sequences_lent, waiting_lent};
ghost use Rattle.lengths.specs.Finds.{long_of};
ghost use Rattle.lengths.specs.Space.{space_of};
ghost use Rattle.opening.specs.View.{stops, answer_of_opening, Opens, Ready};

use laws::After;
use lengths::{LengthError, test_space};
use model::StepAnswer;
use pair_rows::{PairRows, SourceRows};
use pairs::SweepAnswer;
use receiver::Receiver;
use settings::Settings;
use timeouts::{is_idle, poll};
use waiting_store::EntryRows;

// 1 and 2 of a step: lent memory, the packet's own parts, then the poll. The step ends with the answer; without one it goes on with what is left.
pub fn open(
    receiver: Receiver,
    data_pairs: &mut PairRows,
    data_sources: &mut SourceRows,
    sync_pairs: &mut PairRows,
    sync_sources: &mut SourceRows,
    rows: &mut EntryRows,
    store: &mut [u8],
    universes: &[u16],
    settings: Settings,
    reading: u64,
    part: Result<(), LengthError>,
    out: &[u8],
) -> After<Receiver, Option<StepAnswer>>
    requires sequences { sequences.Kept receiver.sequences (sequence_rows_in data_pairs data_sources sync_pairs sync_sources) }
    requires waiting { KeptWaiting receiver.waiting.count rows.old store.old }
    ensures { (rest : Memory) (sources names pages : List (List ℕ)) →
        let m = sequences_lent data_pairs data_sources sync_pairs sync_sources (waiting_lent rows store
        (untouched (with_discovery_rows sources names pages universes.now rest))) in
        Opens settings reading (long_of part) receiver m.entry out.now result.left m.exit (stops result.answer) (answer_of_opening result.answer) }
{
    if let Err(LengthError::TooShort(needed)) = test_space(out, store, universes) {
        return After {
            left: receiver,
            answer: Some(StepAnswer::TooShort(needed)),
        };
    }
    if let Err(LengthError::TooLong(length)) = part {
        return After {
            left: receiver,
            answer: Some(StepAnswer::TooLong(length)),
        };
    }
    let sequences = receiver.sequences;
    let waiting = receiver.waiting;
    if is_idle(sequences, waiting, settings, reading) {
        return After {
            left: receiver,
            answer: None,
        };
    }
    // The sweeps are those of `Receiver::poll`; what they answer is another enum, so each has its own test.
    let p = poll(
        sequences,
        waiting,
        data_pairs,
        data_sources,
        sync_pairs,
        sync_sources,
        rows,
        store,
        settings,
        reading,
    );
    let left = Receiver {
        sequences: p.sequences,
        waiting: p.waiting,
        ..receiver
    };
    let SweepAnswer::TimedOut(cid, universe) = p.answer else {
        return After { left, answer: None };
    };
    After {
        left,
        answer: Some(StepAnswer::UniverseTimeout(cid, universe)),
    }
}

// The lengths fit, and the poll has nothing to do: the opening would leave all and let the packet be taken.
pub fn is_ready(
    receiver: Receiver,
    store: &[u8],
    universes: &[u16],
    settings: Settings,
    reading: u64,
    part: Result<(), LengthError>,
    out: &[u8],
) -> bool
    ensures { result ≡ true → Ready settings reading (long_of part) receiver (space_of out.now store.now universes.now) }
{
    test_space(out, store, universes).is_ok()
        && part.is_ok()
        && is_idle(receiver.sequences, receiver.waiting, settings, reading)
}
