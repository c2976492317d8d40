// A packet joined with the entry that waits for its universe, by the merge choice.

#![tactic(auto)]

ghost use Rattle.std.specs.Prelude.{◌≤◌, ◌<◌, length, get_or, set};
ghost use Rattle.merge.specs.Merge.{htp_merge, preferred, most_values};
ghost use Rattle.merge.specs.Views.{dmx};
ghost use Rattle.waiting.specs.Waiting.{capacity, merged};
ghost use Rattle.waiting_store.specs.Entries.{nothing, Room};
ghost use Rattle.waiting_store.specs.Promises.{entries_before, Become};
ghost use Rattle.waiting_joins.specs.Joins.{JoinedIn};

use merge::{Choice, DmxData, HtpAnswer, VALUES};
use settings::MergeChoice;
use waiting_store::{EntryRows, count_of, head_of, write_entry};

// The packet joins the entry at place i by priority: that entry stays, or the packet takes its place.
fn choose_entry(rows: &mut EntryRows, store: &mut [u8], i: usize, packet: DmxData, values: &[u8])
    requires { Room rows.old store.old × (i < capacity) × (length values.now ≤ most_values) }
    ensures { let es = entries_before rows store in
        Become rows store (set es i (preferred (get_or es i nothing) (dmx packet values.now))) }
{
    let e = head_of(rows[i]);
    let start = i * VALUES;
    let waits = &store[start..start + count_of(rows[i])];
    let c = merge_calls::discard_lowest_priority_then_previous(e, waits, packet, values);
    // The winner's values, where they lie: the older's stay there, and only the newer's are written to the store.
    let n = merge_calls::chosen_values(c, waits, values).len();
    match c {
        Choice::Newer => write_entry(rows, store, i, packet, &values[..n]),
        Choice::Older | Choice::TooLong(_) => {}
    }
}

// The packet joins the entry at place i by highest value; a refused merge changes nothing and answers false.
fn blend_entry(
    rows: &mut EntryRows,
    store: &mut [u8],
    i: usize,
    packet: DmxData,
    values: &[u8],
) -> bool
    requires { Room rows.old store.old × (i < capacity) × (length values.now ≤ most_values) }
    ensures { let es = entries_before rows store in
        JoinedIn rows store i (htp_merge (get_or es i nothing) (dmx packet values.now)) result }
{
    let e = head_of(rows[i]);
    let start = i * VALUES;
    let waits = &store[start..start + count_of(rows[i])];
    let mut block = [0u8; VALUES];
    match merge_calls::htp_dmx_merge(e, waits, packet, values, &mut block) {
        HtpAnswer::Merged(d, m) => {
            write_entry(rows, store, i, d, &block[..m]);
            true
        }
        HtpAnswer::TooLong(_) | HtpAnswer::Refused | HtpAnswer::OutputShort(_) => false,
    }
}

// The packet joins the entry at place i by the merge choice.
// For `waiting_calls`.
pub fn join_entry(
    rows: &mut EntryRows,
    store: &mut [u8],
    i: usize,
    choice: MergeChoice,
    packet: DmxData,
    values: &[u8],
) -> bool
    requires { Room rows.old store.old × (i < capacity) × (length values.now ≤ most_values) }
    ensures { let es = entries_before rows store in
        JoinedIn rows store i (merged choice (get_or es i nothing) (dmx packet values.now)) result }
{
    match choice {
        MergeChoice::DiscardLowestPriorityThenPrevious => {
            choose_entry(rows, store, i, packet, values);
            true
        }
        MergeChoice::HtpDmxMerge => blend_entry(rows, store, i, packet, values),
    }
}
