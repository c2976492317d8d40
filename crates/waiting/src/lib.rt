// Document 01, 'Waiting data' and 'Released bytes': what the calls over waiting data answer. What they mean stands in specs/.

#![tactic(auto)]

ghost use Rattle.std.specs.Prelude.{◌≡◌};
ghost use Rattle.waiting.specs.Waiting.{capacity, store_length};
ghost use Rattle.waiting.specs.Records.{most_bytes};

use merge::VALUES;

// What storing answers. Here and below an enum of its own, in place of Result: document 01 has each answer's cases tell its number and
// its values.
#[derive(Clone, Copy)]
pub enum StoreAnswer {
    Stored,
    // Number 8: both packets are lost.
    MergeRefused,
    // Number 12: 64 other universes wait.
    WaitingFull,
}

// What a call of `store_waiting_data` answers.
#[derive(Clone, Copy)]
pub enum StoreCall {
    Taken(StoreAnswer),
    // Number 1: values over 513.
    TooLong(usize),
}

// What a call of `rtrv_waiting_data` answers.
#[derive(Clone, Copy)]
pub enum ReleaseAnswer {
    // The records and bytes that the output has.
    Released(usize, usize),
    // Number 15: the length needed.
    OutputShort(usize),
}

// Universes that can wait.
pub const WAITING: usize = 64;

// The store that a caller lends: a block of bytes for the values of each.
pub const STORE_LENGTH: usize = WAITING * VALUES;

// The output that a release needs: for each a record of 35 bytes and its values.
pub const RELEASE_LENGTH: usize = WAITING * (35 + VALUES);

// The constants are the definitions' numbers.
pub fn capacity() -> usize
    ensures { result ≡ capacity }
{
    WAITING
}

pub fn store_length() -> usize
    ensures { result ≡ store_length }
{
    STORE_LENGTH
}

pub fn release_length() -> usize
    ensures { result ≡ most_bytes }
{
    RELEASE_LENGTH
}
