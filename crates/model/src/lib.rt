// The answers of the receiver's calls. What each call does is defined in specs/; this crate has no functions.
// Each is an enum of its own and no Result: its definition gives the number and the values of each case, of a stop as of a success.

#![tactic(auto)]

use rules::Cid;

// A step on a packet.
#[derive(Clone, Copy)]
pub enum StepAnswer {
    Nothing,
    // Records and bytes of the release.
    Released(usize, usize),
    // 1: the length.
    TooLong(usize),
    // 2
    IllegalUniverse(u16),
    // 4
    UniverseTimeout(Cid, u16),
    // 5
    UniverseTerminated(Cid, u16),
    // 6: the number of sources.
    SourcesExceeded(usize),
    // 7, late: arriving, last, difference.
    OutOfSequence(u8, u8, i8),
    // 8
    DmxMergeError,
    // 9: the name is the packet's own.
    SourceDiscovered,
    // 10
    PairsFull,
    // 11
    ListenedFull,
    // 12
    WaitingFull,
    // 13
    PagesFull,
    // 15: the length needed.
    TooShort(usize),
    // 21: arriving, last, difference.
    Repeated(u8, u8, i8),
}

// A poll.
#[derive(Clone, Copy)]
pub enum PollAnswer {
    Polled,
    // 4
    UniverseTimeout(Cid, u16),
    // 15
    TooShort(usize),
}

// The discovery sweep.
#[derive(Clone, Copy)]
pub enum ExpiryAnswer {
    Swept,
    // 15
    TooShort(usize),
}

// `listen_universes`
#[derive(Clone, Copy)]
pub enum ListenAnswer {
    Listening,
    // 2: the first illegal universe.
    IllegalUniverse(u16),
    // 11
    ListenedFull,
}

// `mute_universe`
#[derive(Clone, Copy)]
pub enum MuteAnswer {
    Muted,
    // 2
    IllegalUniverse(u16),
    // 3
    UniverseNotRegistered(u16),
}

// `clear_waiting_data`
#[derive(Clone, Copy)]
pub enum ClearAnswer {
    // Whether the universe had waiting data.
    Cleared(bool),
    // 15
    TooShort(usize),
}
