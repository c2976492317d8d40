// Document 01, 'Waiting data': the calls over data that waits for the synchronisation of its address.

#![tactic(auto)]

ghost use Rattle.std.specs.Prelude.{◌≡◌, List, ℕ, ◌≤◌, get_or};
ghost use Rattle.merge.specs.Views.{dmx};
ghost use Rattle.waiting.specs.Waiting.{capacity, cleared};
ghost use Rattle.waiting_store.specs.Entries.{nothing, waiting_of, Kept};
ghost use Rattle.waiting_store.specs.Promises.{waiting_before};
ghost use Rattle.waiting_calls.specs.Calls.{Empty, YieldsIn, StoreCalled, ReleaseCalled, SweptCall};

use laws::After;
use merge::{DmxData, VALUES};
use settings::MergeChoice;
use waiting::{RELEASE_LENGTH, ReleaseAnswer, StoreAnswer, StoreCall, WAITING};
use waiting_joins::join_entry;
use waiting_store::{
    EntryRows, any_dropped, compact, count_of, find_universe, head_of, insert_at, remove_at,
    write_release,
};

// How many universes wait; their rows and blocks are lent to every call.
#[derive(Clone, Copy)]
pub struct Waiting {
    pub count: usize,
}

impl Waiting {
    pub fn new() -> Waiting
        ensures { Empty result.count }
    {
        Waiting { count: 0 }
    }

    pub fn clear_all_waiting_data(self) -> Waiting
        ensures { Empty result.count }
    {
        Waiting { count: 0 }
    }

    // Stored alone, or merged with what waits for its universe; a refused merge loses both. Values over 513 leave all.
    pub fn store_waiting_data(
        self,
        rows: &mut EntryRows,
        store: &mut [u8],
        choice: MergeChoice,
        packet: DmxData,
        values: &[u8],
    ) -> After<Waiting, StoreCall>
        requires { Kept self.count rows.old store.old }
        ensures { StoreCalled self.count rows.old store.old choice (dmx packet values.now)
            rows.new store.new result.left.count result.answer }
    {
        if VALUES < values.len() {
            return After {
                left: self,
                answer: StoreCall::TooLong(values.len()),
            };
        }
        let n = self.count;
        match find_universe(rows, n, packet.universe) {
            Ok(i) => {
                if join_entry(rows, store, i, choice, packet, values) {
                    After {
                        left: self,
                        answer: StoreCall::Taken(StoreAnswer::Stored),
                    }
                } else {
                    remove_at(rows, store, n, i);
                    After {
                        left: Waiting { count: n - 1 },
                        answer: StoreCall::Taken(StoreAnswer::MergeRefused),
                    }
                }
            }
            Err(i) => {
                if WAITING <= n {
                    After {
                        left: self,
                        answer: StoreCall::Taken(StoreAnswer::WaitingFull),
                    }
                } else {
                    insert_at(rows, store, n, i, packet, values);
                    After {
                        left: Waiting { count: n + 1 },
                        answer: StoreCall::Taken(StoreAnswer::Stored),
                    }
                }
            }
        }
    }

    // What waits for this universe goes; answers whether there was any.
    pub fn clear_waiting_data(
        self,
        rows: &mut EntryRows,
        store: &mut [u8],
        universe: u16,
    ) -> After<Waiting, bool>
        requires { Kept self.count rows.old store.old }
        ensures view { let ds = waiting_before self.count rows store in
            YieldsIn rows store result.left.count (cleared universe ds).0 }
        ensures answer { let ds = waiting_before self.count rows store in
            result.answer ≡ (cleared universe ds).1 }
    {
        let n = self.count;
        match find_universe(rows, n, universe) {
            Ok(i) => {
                remove_at(rows, store, n, i);
                After {
                    left: Waiting { count: n - 1 },
                    answer: true,
                }
            }
            Err(_) => After {
                left: self,
                answer: false,
            },
        }
    }

    // The sweep by age. It looks first: where nothing is expired, nothing is written.
    pub fn check_waiting_data_timeouts(
        self,
        rows: &mut EntryRows,
        store: &mut [u8],
        reading: u64,
    ) -> Waiting
        requires { Kept self.count rows.old store.old }
        ensures { SweptCall self.count rows.old store.old reading
            rows.new store.new result.count }
    {
        let is_fresh = |d: DmxData| !rules::is_expired(reading, d.recv_timestamp);
        if any_dropped(rows, self.count, is_fresh) {
            Waiting {
                count: compact(rows, store, self.count, is_fresh),
            }
        } else {
            self
        }
    }

    // All data of one address leaves, by ascending universe; what is not expired goes to the output as records. An output
    // that is too short leaves all.
    pub fn rtrv_waiting_data(
        self,
        rows: &mut EntryRows,
        store: &mut [u8],
        address: u16,
        reading: u64,
        out: &mut [u8],
    ) -> After<Waiting, ReleaseAnswer>
        requires { Kept self.count rows.old store.old }
        ensures { ReleaseCalled self.count rows.old store.old reading address out.old
            rows.new store.new out.new result.left.count result.answer }
    {
        if out.len() < RELEASE_LENGTH {
            return After {
                left: self,
                answer: ReleaseAnswer::OutputShort(RELEASE_LENGTH),
            };
        }
        let n = self.count;
        let w = write_release(rows, store, n, address, reading, out);
        let count = compact(rows, store, n, |d| d.sync_uni != address);
        After {
            left: Waiting { count },
            answer: ReleaseAnswer::Released(w.records, w.bytes),
        }
    }

    // For a dump: the header of the i-th universe that waits; past the last, a header of zeros.
    pub fn waiting_data(self, rows: &EntryRows, i: usize) -> DmxData
        requires { self.count ≤ capacity }
        ensures { (store : List ℕ) → result ≡ (get_or (waiting_of self.count rows.now store) i nothing).head }
    {
        if i < self.count {
            head_of(rows[i])
        } else {
            head_of([0; 9])
        }
    }

    // And its values, where they lie; past the last, none.
    pub fn waiting_values<'a>(self, rows: &EntryRows, store: &'a [u8], i: usize) -> &'a [u8]
        requires { Kept self.count rows.now store.now }
        ensures { result.now ≡ (get_or (waiting_of self.count rows.now store.now) i nothing).values }
    {
        if i < self.count {
            let start = i * VALUES;
            &store[start..start + count_of(rows[i])]
        } else {
            &store[..0]
        }
    }
}
