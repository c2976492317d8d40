// Document 01, 'The receiver': the receiver and every call but the step. What is small goes in and comes back by value; the memory is lent to every call.

#![tactic(auto)]

ghost use Rattle.std.specs.Prelude.{◌≡◌, length};
ghost use Rattle.listening.specs.View as listening;
ghost use Rattle.sequences.specs.View as sequences;
ghost use Rattle.model.specs.Answer.{poll_number, expiry_number, listen_number, mute_number, clear_number};
ghost use Rattle.model.specs.State.{listens};
ghost use Rattle.model.specs.Calls.{poll_call, expiry_call, listen_call, mute_call, clear_call, clear_all_call, reset_pairs_call, reset_discovery_call, reset_call};
ghost use Rattle.lengths.specs.Space.{bytes};
ghost use Rattle.laws.specs.Lent.{untouched};
ghost use Rattle.receiver.specs.View.{Memory, with_listened_rows, state_of, reading_noted, KeptWaiting, KeptDiscovery, Kept, Begins, Does, Becomes};
ghost use Rattle.sequences.specs.Promises.{sequence_rows_in};
ghost use Rattle.receiver.specs.Promises.{sequences_lent, waiting_lent, listened_lent, discovery_lent};

use discovery_calls::Discovery;
use discovery_rows::{HeadRows, NameRows, PageRows};
use laws::After;
use lengths::{LengthError, test_page_store, test_waiting_store};
use listening::{Listened, ListenedUniverses};
use model::{ClearAnswer, ExpiryAnswer, ListenAnswer, MuteAnswer, PollAnswer};
use pair_rows::{PairRows, SourceRows};
use pairs::SweepAnswer;
use sequences::SequenceNumbering;
use settings::Settings;
use timeouts::{is_idle, poll};
use waiting_calls::Waiting;
use waiting_store::EntryRows;

// The counts of every table; the tables themselves lie in the lent memory. Its parts are lent to every call one by one, as C hands them over.
#[derive(Clone, Copy)]
pub struct Receiver {
    pub sequences: SequenceNumbering,
    pub waiting: Waiting,
    pub listened: Listened,
    pub discovery: Discovery,
}

impl Receiver {
    // A fresh receiver; but for the listened universes the memory lent later may hold anything.
    pub fn new(heard: &mut ListenedUniverses) -> Receiver
        ensures { (m : Memory) → Begins result (with_listened_rows heard.new m) }
    {
        Receiver {
            sequences: SequenceNumbering::new(),
            waiting: Waiting::new(),
            listened: Listened::new(heard),
            discovery: Discovery::new(),
        }
    }

    // The sweeps that a step begins with.
    pub fn poll(
        self,
        data_pairs: &mut PairRows,
        data_sources: &mut SourceRows,
        sync_pairs: &mut PairRows,
        sync_sources: &mut SourceRows,
        rows: &mut EntryRows,
        store: &mut [u8],
        settings: Settings,
        reading: u64,
    ) -> After<Receiver, PollAnswer>
        requires sequences { sequences.Kept self.sequences (sequence_rows_in data_pairs data_sources sync_pairs sync_sources) }
        requires waiting { KeptWaiting self.waiting.count rows.old store.old }
        ensures { (rest : Memory) →
            let m = sequences_lent data_pairs data_sources sync_pairs sync_sources (waiting_lent rows store (untouched rest)) in
            Does (poll_call (length store.old) settings reading) poll_number self m.entry result.left m.exit result.answer }
    {
        if let Err(LengthError::TooShort(needed)) = test_waiting_store(store) {
            return After {
                left: self,
                answer: PollAnswer::TooShort(needed),
            };
        }
        if is_idle(self.sequences, self.waiting, settings, reading) {
            return After {
                left: self,
                answer: PollAnswer::Polled,
            };
        }
        let p = poll(
            self.sequences,
            self.waiting,
            data_pairs,
            data_sources,
            sync_pairs,
            sync_sources,
            rows,
            store,
            settings,
            reading,
        );
        let left = Receiver {
            sequences: p.sequences,
            waiting: p.waiting,
            ..self
        };
        match p.answer {
            SweepAnswer::Quiet => After {
                left,
                answer: PollAnswer::Polled,
            },
            SweepAnswer::TimedOut(cid, universe) => After {
                left,
                answer: PollAnswer::UniverseTimeout(cid, universe),
            },
        }
    }

    // The receiver with a data pair of this reading in its rows: for the short way of a step.
    pub fn note_reading(self, reading: u64) -> Receiver
        ensures { result ≡ reading_noted reading self }
    {
        Receiver {
            sequences: SequenceNumbering {
                data: self.sequences.data.note_reading(reading),
                ..self.sequences
            },
            ..self
        }
    }

    // The discovery sweep: sources as old as the settings' discovery expiry, or older, go, partial and listed.
    pub fn remove_expired_sources(
        self,
        sources: &mut HeadRows,
        names: &mut NameRows,
        pages: &mut PageRows,
        universes: &mut [u16],
        settings: Settings,
        reading: u64,
    ) -> After<Receiver, ExpiryAnswer>
        requires { KeptDiscovery self.discovery sources.old names.old pages.old universes.old }
        ensures { (rest : Memory) →
            let m = discovery_lent sources names pages universes (untouched rest) in
            Does (expiry_call (bytes universes.old) settings reading) expiry_number self m.entry result.left m.exit result.answer }
    {
        if let Err(LengthError::TooShort(needed)) = test_page_store(universes) {
            return After {
                left: self,
                answer: ExpiryAnswer::TooShort(needed),
            };
        }
        let discovery = self.discovery.remove_expired_sources(
            sources,
            names,
            pages,
            universes,
            u64::from(settings.discovery_expiry),
            reading,
        );
        After {
            left: Receiver { discovery, ..self },
            answer: ExpiryAnswer::Swept,
        }
    }

    pub fn is_listening(self, heard: &ListenedUniverses, universe: u16) -> bool
        requires { listening.Kept self.listened heard.now }
        ensures { (m : Memory) → result ≡ listens universe (state_of self (with_listened_rows heard.now m)).listened }
    {
        self.listened.is_listening(heard, universe)
    }

    // All are tested for 2 before any is added, then for 11.
    pub fn listen_universes(
        self,
        heard: &mut ListenedUniverses,
        universes: &[u16],
    ) -> After<Receiver, ListenAnswer>
        requires { listening.Kept self.listened heard.old }
        ensures { (rest : Memory) →
            let m = listened_lent heard (untouched rest) in
            Does (listen_call universes.now) listen_number self m.entry result.left m.exit result.answer }
    {
        let a = self.listened.listen_universes(heard, universes);
        After {
            left: Receiver {
                listened: a.left,
                ..self
            },
            answer: a.answer,
        }
    }

    // 2, then 3.
    pub fn mute_universe(
        self,
        heard: &mut ListenedUniverses,
        universe: u16,
    ) -> After<Receiver, MuteAnswer>
        requires { listening.Kept self.listened heard.old }
        ensures { (rest : Memory) →
            let m = listened_lent heard (untouched rest) in
            Does (mute_call universe) mute_number self m.entry result.left m.exit result.answer }
    {
        let a = self.listened.mute_universe(heard, universe);
        After {
            left: Receiver {
                listened: a.left,
                ..self
            },
            answer: a.answer,
        }
    }

    // Answers whether the universe had waiting data.
    pub fn clear_waiting_data(
        self,
        rows: &mut EntryRows,
        store: &mut [u8],
        universe: u16,
    ) -> After<Receiver, ClearAnswer>
        requires { KeptWaiting self.waiting.count rows.old store.old }
        ensures { (rest : Memory) →
            let m = waiting_lent rows store (untouched rest) in
            Does (clear_call (length store.old) universe) clear_number self m.entry result.left m.exit result.answer }
    {
        if let Err(LengthError::TooShort(needed)) = test_waiting_store(store) {
            return After {
                left: self,
                answer: ClearAnswer::TooShort(needed),
            };
        }
        let c = self.waiting.clear_waiting_data(rows, store, universe);
        After {
            left: Receiver {
                waiting: c.left,
                ..self
            },
            answer: ClearAnswer::Cleared(c.answer),
        }
    }

    // No memory is touched: the waiting data counts for nothing from now on.
    pub fn clear_all_waiting_data(self) -> Receiver
        ensures { (m : Memory) → Becomes clear_all_call self result m }
    {
        Receiver {
            waiting: self.waiting.clear_all_waiting_data(),
            ..self
        }
    }

    // Both pair tables are forgotten, with the CIDs that count as sources; the discovery lists and waiting data stay.
    pub fn reset_pairs(self) -> Receiver
        ensures { (m : Memory) → Becomes reset_pairs_call self result m }
    {
        Receiver {
            sequences: self.sequences.clear(),
            ..self
        }
    }

    // Both discovery lists are forgotten; the pair tables and waiting data stay.
    pub fn reset_discovery(self) -> Receiver
        ensures { (m : Memory) → Becomes reset_discovery_call self result m }
    {
        Receiver {
            discovery: self.discovery.clear(),
            ..self
        }
    }

    // The two in turn.
    pub fn reset_sources(self) -> Receiver
        ensures { (m : Memory) → Becomes reset_call self result m }
    {
        self.reset_pairs().reset_discovery()
    }
}
