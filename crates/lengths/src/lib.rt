// Document 01, 'The receiver', 1: the lengths that a step tests before all else, and those that a further call tests.

#![tactic(auto)]

ghost use Rattle.std.specs.Prelude.{◌≡◌, length, cond, ltb};
ghost use Rattle.std.proofs.Math.Option.{some, none};
ghost use Rattle.rules.specs.Answer.{first_of};
ghost use Rattle.model.specs.Packet.{over};
ghost use Rattle.model.specs.Step.{too_short, short, waiting_bytes, page_bytes};
ghost use Rattle.merge.specs.Merge.{most_values};
ghost use Rattle.waiting.specs.Records.{most_bytes};
ghost use Rattle.discovery.specs.Discovery.{most_name, most_universes};
ghost use Rattle.lengths.specs.Space.{space_of, bytes, shortage, excess};

use discovery::{NAME, PAGE_UNIVERSES, POOL};
use merge::VALUES;
use waiting::{RELEASE_LENGTH, STORE_LENGTH};

// A universe takes two bytes.
const PAGE_BYTES: usize = POOL * 2;

// What is wrong with a length.
#[derive(Clone, Copy, Debug, PartialEq, Eq)]
pub enum LengthError {
    // 1: the length.
    TooLong(usize),
    // 15: the bytes needed.
    TooShort(usize),
}

// Too short below the bytes needed.
fn at_least(room: usize, needed: usize) -> Result<(), LengthError>
    ensures { result ≡ shortage (short needed room) }
{
    if room < needed {
        Err(LengthError::TooShort(needed))
    } else {
        Ok(())
    }
}

// Too long above the most.
fn at_most(length: usize, most: usize) -> Result<(), LengthError>
    ensures { result ≡ excess (cond (ltb most length) (some length) none) }
{
    if most < length {
        Err(LengthError::TooLong(length))
    } else {
        Ok(())
    }
}

// The memory lent to a step: output, waiting values, page universes, in this order.
#[tactic(auto, unfolding(model::specs::Step::too_short))]
pub fn test_space(out: &[u8], waiting: &[u8], pages: &[u16]) -> Result<(), LengthError>
    ensures { result ≡ shortage (too_short (space_of out.now waiting.now pages.now)) }
{
    at_least(out.len(), RELEASE_LENGTH)?;
    test_waiting_store(waiting)?;
    test_page_store(pages)
}

// The waiting values lent to a poll or to `clear_waiting_data`.
pub fn test_waiting_store(store: &[u8]) -> Result<(), LengthError>
    ensures { result ≡ shortage (short waiting_bytes (length store.now)) }
{
    at_least(store.len(), STORE_LENGTH)
}

// The page universes lent to the discovery sweep.
pub fn test_page_store(universes: &[u16]) -> Result<(), LengthError>
    ensures { result ≡ shortage (short page_bytes (bytes universes.now)) }
{
    at_least(universes.len() * 2, PAGE_BYTES)
}

// The values of a data packet.
#[tactic(auto, unfolding(model::specs::Packet::over))]
pub fn test_values(values: &[u8]) -> Result<(), LengthError>
    ensures { result ≡ excess (over most_values values.now) }
{
    at_most(values.len(), VALUES)
}

// The name and the list of a discovery packet, name before list.
#[tactic(auto, unfolding(model::specs::Packet::over))]
pub fn test_announcement(name: &[u8], list: &[u16]) -> Result<(), LengthError>
    ensures { result ≡ excess (first_of (over most_name name.now) (over most_universes list.now)) }
{
    at_most(name.len(), NAME)?;
    at_most(list.len(), PAGE_UNIVERSES)
}
