// Document 01, 'Merging': the two merge choices over data with all seven fields, as code over lent lists.

#![tactic(auto)]

ghost use Rattle.std.specs.Prelude.{◌≡◌, [], ◌≤◌, length};
ghost use Rattle.laws.specs.Parts.{pasted};
ghost use Rattle.merge.specs.Merge.{too_long, mergeable, highest, blended, htp_answer, htp_output, choice, chosen};
ghost use Rattle.merge.specs.Merge.{htp_number_of, htp_values_of, htp_told, choice_number_of, choice_values_of, choice_told};
ghost use Rattle.merge.specs.Views.{dmx};

use merge::{Choice, DmxData, HtpAnswer, SourceCid, VALUES};
use std::cmp::Ordering;

// The length of a list over 513, the older's first.
#[tactic(auto, unfolding(merge::specs::Merge::too_long))]
fn too_long(older_values: &[u8], newer_values: &[u8]) -> Option<usize>
    ensures { result ≡ too_long older_values.now newer_values.now }
{
    if VALUES < older_values.len() {
        Some(older_values.len())
    } else if VALUES < newer_values.len() {
        Some(newer_values.len())
    } else {
        None
    }
}

// The larger value at each place of the shorter list, then the longer list's tail.
fn write_highest(shorter: &[u8], longest: &[u8], out: &mut [u8])
    requires { (length shorter.now ≤ length longest.now) × (length longest.now ≤ length out.old) }
    ensures { out.new ≡ pasted out.old 0 (highest shorter.now longest.now) }
{
    let n = shorter.len();
    for i in 0..n {
        out[i] = shorter[i].max(longest[i]);
    }
    laws::paste(out, n, &longest[n..]);
}

// Both have values, and universe, first value and address agree.
#[tactic(auto, unfolding(merge::specs::Merge::mergeable, merge::specs::Merge::same_start))]
fn is_mergeable(older: DmxData, older_values: &[u8], newer: DmxData, newer_values: &[u8]) -> bool
    ensures { result ≡ mergeable (dmx older older_values.now) (dmx newer newer_values.now) }
{
    match (older_values, newer_values) {
        ([first, ..], [other, ..]) => {
            first == other && older.universe == newer.universe && older.sync_uni == newer.sync_uni
        }
        _ => false,
    }
}

// The header of two data of equal priority: no CID, preview if either has it, the rest the older's.
#[tactic(auto, unfolding(merge::specs::Merge::blended))]
fn blended_data(older: DmxData, newer: DmxData) -> DmxData
    ensures { result ≡ (blended (dmx older []) (dmx newer [])).head }
{
    DmxData {
        src_cid: SourceCid::Merged,
        preview: older.preview || newer.preview,
        ..older
    }
}

// Merging by highest value; the merged values go to the output.
#[tactic(auto, using(merge::proofs::AnswersLaws::htp_told_is, merge::proofs::Laws::length_highest, crate::specs::Returns::highest_other), unfolding(merge::specs::Merge::htp_answer, merge::specs::Merge::htp_output, merge::specs::Merge::htp_merge, merge::specs::Merge::htp_with, merge::specs::Merge::joined, merge::specs::Merge::blended))]
pub fn htp_dmx_merge(
    older: DmxData,
    older_values: &[u8],
    newer: DmxData,
    newer_values: &[u8],
    out: &mut [u8],
) -> HtpAnswer
    ensures answer { result ≡ htp_answer (length out.old)
        (dmx older older_values.now) (dmx newer newer_values.now) }
    ensures output { out.new ≡ htp_output result
        (dmx older older_values.now) (dmx newer newer_values.now) out.old }
    ensures told { (htp_number_of result, htp_values_of result) ≡ htp_told (length out.old)
        (dmx older older_values.now) (dmx newer newer_values.now) }
{
    if let Some(n) = too_long(older_values, newer_values) {
        return HtpAnswer::TooLong(n);
    }
    if !is_mergeable(older, older_values, newer, newer_values) {
        return HtpAnswer::Refused;
    }
    let needed = older_values.len().max(newer_values.len());
    if out.len() < needed {
        return HtpAnswer::OutputShort(needed);
    }
    match older.priority.cmp(&newer.priority) {
        Ordering::Greater => {
            laws::paste(out, 0, older_values);
            HtpAnswer::Merged(older, older_values.len())
        }
        Ordering::Less => {
            laws::paste(out, 0, newer_values);
            HtpAnswer::Merged(newer, newer_values.len())
        }
        Ordering::Equal => {
            if older_values.len() < newer_values.len() {
                write_highest(older_values, newer_values, out);
            } else {
                write_highest(newer_values, older_values, out);
            }
            HtpAnswer::Merged(blended_data(older, newer), needed)
        }
    }
}

// The choice by priority: the older wins only by a higher one.
#[tactic(auto, using(merge::proofs::AnswersLaws::choice_told_is), unfolding(merge::specs::Merge::choice))]
pub fn discard_lowest_priority_then_previous(
    older: DmxData,
    older_values: &[u8],
    newer: DmxData,
    newer_values: &[u8],
) -> Choice
    ensures answer { result ≡ choice (dmx older older_values.now) (dmx newer newer_values.now) }
    ensures told { (choice_number_of result, choice_values_of result)
        ≡ choice_told (dmx older older_values.now) (dmx newer newer_values.now) }
{
    if let Some(n) = too_long(older_values, newer_values) {
        Choice::TooLong(n)
    } else if newer.priority < older.priority {
        Choice::Older
    } else {
        Choice::Newer
    }
}

// The winner's values, uncopied: a part of one of the two lent lists.
#[tactic(auto, unfolding(merge::specs::Merge::chosen))]
pub fn chosen_values<'a>(c: Choice, older_values: &'a [u8], newer_values: &'a [u8]) -> &'a [u8]
    ensures { result.now ≡ chosen c older_values.now newer_values.now }
{
    match c {
        Choice::Older => older_values,
        Choice::Newer => newer_values,
        Choice::TooLong(_) => &newer_values[..0],
    }
}
