// Document 02, F-6: settings in lent bytes, so that they outlive a power cycle. What a record means stands in specs/; the calls stand in `settings_calls`.

#![tactic(auto)]

// The bytes of a record of layout 2, the only one that is written.
pub const RECORD_LENGTH: usize = 14;

// The layouts that a reader knows: the first alone, or both.
#[derive(Clone, Copy)]
pub enum Layouts {
    First,
    Both,
}

// Why the writer stops. It then writes nothing.
#[derive(Clone, Copy, PartialEq, Eq)]
pub enum StoreSettingsError {
    // Number 15: fewer bytes than this are lent.
    TooShort(usize),
    // Number 14: a limit of 0.
    LimitZero,
    // Number 20: a discovery expiry under 2,500 or over 60,000.
    ExpiryOutOfRange,
}

// Why the reader stops. It then shows no setting.
#[derive(Clone, Copy, PartialEq, Eq)]
pub enum LoadSettingsError {
    // Number 22: under three bytes, a wrong mark, or fewer bytes than the layout needs.
    NoSettingsRecord,
    // Number 23: an unknown layout, or a field out of range.
    UnreadableSettingsRecord,
}
