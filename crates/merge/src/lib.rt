// Document 01, 'Merging': data with all seven fields, and what the two merge choices answer. What they mean stands in specs/.

#![tactic(auto)]

ghost use Rattle.std.specs.Prelude.{◌≡◌};
ghost use Rattle.merge.specs.Merge.{most_values};

use rules::Cid;

// Whose data it is: one source's, or no longer one source's.
#[derive(Clone, Copy)]
pub enum SourceCid {
    Merged,
    Of(Cid),
}

// All fields of the crate's DMXData but the values, which stand beside it as a lent part.
#[derive(Clone, Copy)]
pub struct DmxData {
    pub universe: u16,
    pub sync_uni: u16,
    pub priority: u8,
    pub src_cid: SourceCid,
    pub preview: bool,
    pub recv_timestamp: u64,
}

// What a direct highest-value merge answers. Here and below an enum of its own, in place of Option or Result: document 01 has
// each answer's cases tell its number and its values.
#[derive(Clone, Copy)]
pub enum HtpAnswer {
    // The merged data and the number of its values.
    Merged(DmxData, usize),
    // Number 1: a list over 513.
    TooLong(usize),
    // Number 8.
    Refused,
    // Number 15: the length needed.
    OutputShort(usize),
}

// What a direct choice by priority answers: which of the two wins.
#[derive(Clone, Copy)]
pub enum Choice {
    Older,
    Newer,
    // Number 1: a list over 513.
    TooLong(usize),
}

// A start code and 512 slots.
pub const VALUES: usize = 513;

// The constant is the definitions' number.
pub fn most_values() -> usize
    ensures { result ≡ most_values }
{
    VALUES
}
