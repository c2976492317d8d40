// Document 02, F-6: the calls that write and read a settings record.

#![tactic(auto)]

ghost use Rattle.std.specs.Prelude.{◌≡◌, ◌&&◌, [], ◌∷◌, ◌≤◌, eqb, length};
ghost use Rattle.std.proofs.Math.Option.{some};
ghost use Rattle.fields.specs.Fields.{values, decode, joined};
ghost use Rattle.settings_store.specs.Laws.{Narrow};
ghost use Rattle.settings_store.specs.Returns.{flags};
ghost use Rattle.settings_calls.specs.View.{layout_fields};
ghost use Rattle.settings_store.specs.Record.{layout_1, layout_2, merge_number, merge_of, limit_number, limit_of, zero_limit, settings_from, record_of, record_length, fields_of, shown, of_layout, Stores, Loads};

use fields::{four_bytes, two_bytes};
use settings::{MergeChoice, Settings, SourceLimit, is_expiry_in_range};
use settings_store::{Layouts, LoadSettingsError, RECORD_LENGTH, StoreSettingsError};

// The numbers of the merge choice and of the limit, in a record and through C. Functions, and no impls of From: these would have to
// stand in `settings`, which knows neither, and a limit would turn into a number unseen.

// The merge choice as a number: 0 by priority, 1 by highest value.
pub fn merge_number(choice: MergeChoice) -> u8
    ensures { result ≡ merge_number choice }
{
    match choice {
        MergeChoice::DiscardLowestPriorityThenPrevious => 0,
        MergeChoice::HtpDmxMerge => 1,
    }
}

// And back; any other number is by highest value.
pub fn merge_of(n: u8) -> MergeChoice
    ensures { result ≡ merge_of n }
{
    match n {
        0 => MergeChoice::DiscardLowestPriorityThenPrevious,
        _ => MergeChoice::HtpDmxMerge,
    }
}

// The limit as a number: 0 for none.
pub fn limit_number(limit: SourceLimit) -> u16
    ensures { result ≡ limit_number limit }
{
    match limit {
        SourceLimit::Unlimited => 0,
        SourceLimit::AtMost(n) => n,
    }
}

pub fn limit_of(n: u16) -> SourceLimit
    ensures { result ≡ limit_of n }
{
    match n {
        0 => SourceLimit::Unlimited,
        _ => SourceLimit::AtMost(n),
    }
}

// A limit that no setter leaves.
fn is_zero(limit: SourceLimit) -> bool
    ensures { result ≡ zero_limit limit }
{
    matches!(limit, SourceLimit::AtMost(0))
}

// The record of the settings.
fn record_of(s: Settings) -> [u8; RECORD_LENGTH]
    ensures { (result ≡ record_of s) × Narrow s }
{
    let limit = limit_number(s.source_limit).to_be_bytes();
    let expiry = s.discovery_expiry.to_be_bytes();
    [
        0x53,
        0x54,
        2,
        u8::from(s.process_preview_data),
        u8::from(s.announce_source_discovery),
        u8::from(s.announce_stream_termination),
        u8::from(s.announce_timeout),
        merge_number(s.merge),
        limit[0],
        limit[1],
        expiry[0],
        expiry[1],
        expiry[2],
        expiry[3],
    ]
}

// The writer. It writes layout 2 over the front of the lent bytes, and nothing where it stops.
pub fn store_settings(settings: Settings, bytes: &mut [u8]) -> Result<(), StoreSettingsError>
    ensures { Stores settings bytes.old result bytes.new }
{
    if bytes.len() < RECORD_LENGTH {
        return Err(StoreSettingsError::TooShort(RECORD_LENGTH));
    }
    if is_zero(settings.source_limit) {
        return Err(StoreSettingsError::LimitZero);
    }
    if !is_expiry_in_range(settings.discovery_expiry) {
        return Err(StoreSettingsError::ExpiryOutOfRange);
    }
    bytes[..RECORD_LENGTH].copy_from_slice(&record_of(settings));
    Ok(())
}

// Whether the five bytes that are 0 or 1 are so. Each is a setting of its own, so here and in `settings_from` they stand one by one.
fn are_flags(a: u8, b: u8, c: u8, d: u8, m: u8) -> bool
    ensures { result ≡ flags a b c d m }
{
    a <= 1 && b <= 1 && c <= 1 && d <= 1 && m <= 1
}

fn settings_from(a: u8, b: u8, c: u8, d: u8, m: u8, limit: u16, expiry: u32) -> Settings
    ensures { result ≡ settings_from (a ∷ b ∷ c ∷ d ∷ m ∷ limit ∷ expiry ∷ []) }
{
    Settings {
        process_preview_data: a == 1,
        announce_source_discovery: b == 1,
        announce_stream_termination: c == 1,
        announce_timeout: d == 1,
        merge: merge_of(m),
        source_limit: limit_of(limit),
        discovery_expiry: expiry,
    }
}

// The fields of layout 1, and this expiry behind them.
fn read_with(fields: &[u8], expiry: u32) -> Result<Settings, LoadSettingsError>
    requires { 7 ≤ length fields.now }
    ensures { result ≡ shown (joined (decode layout_1 fields.now) (values (expiry ∷ []))) }
{
    let a = fields[0];
    let b = fields[1];
    let c = fields[2];
    let d = fields[3];
    let m = fields[4];
    if !are_flags(a, b, c, d, m) {
        return Err(LoadSettingsError::UnreadableSettingsRecord);
    }
    let limit = two_bytes(fields[5], fields[6]);
    Ok(settings_from(a, b, c, d, m, limit, expiry))
}

fn read_first(fields: &[u8]) -> Result<Settings, LoadSettingsError>
    ensures { result ≡ of_layout (some layout_1) fields.now }
{
    if fields.len() < 7 {
        return Err(LoadSettingsError::NoSettingsRecord);
    }
    read_with(fields, 20000)
}

fn read_second(fields: &[u8]) -> Result<Settings, LoadSettingsError>
    ensures { result ≡ of_layout (some layout_2) fields.now }
{
    if fields.len() < 11 {
        return Err(LoadSettingsError::NoSettingsRecord);
    }
    let expiry = four_bytes(fields[7], fields[8], fields[9], fields[10]);
    if !is_expiry_in_range(expiry) {
        return Err(LoadSettingsError::UnreadableSettingsRecord);
    }
    read_with(fields, expiry)
}

// The layouts that there are.
#[derive(Clone, Copy)]
enum Layout {
    One,
    Two,
}

// The layout of this number, if the reader knows it.
fn layout_of(layouts: Layouts, n: u8) -> Option<Layout>
    ensures { layout_fields result ≡ fields_of layouts n }
{
    match (layouts, n) {
        (_, 1) => Some(Layout::One),
        (Layouts::Both, 2) => Some(Layout::Two),
        _ => None,
    }
}

fn is_marked(a: u8, b: u8) -> bool
    ensures { result ≡ (eqb a 0x53 && eqb b 0x54) }
{
    a == 0x53 && b == 0x54
}

// What stands behind the layout byte.
fn read_layout(layout: Option<Layout>, fields: &[u8]) -> Result<Settings, LoadSettingsError>
    ensures { result ≡ of_layout (layout_fields layout) fields.now }
{
    match layout {
        None => Err(LoadSettingsError::UnreadableSettingsRecord),
        Some(Layout::One) => read_first(fields),
        Some(Layout::Two) => read_second(fields),
    }
}

// The reader, by the layouts that it knows.
pub fn load_settings(layouts: Layouts, bytes: &[u8]) -> Result<Settings, LoadSettingsError>
    ensures { Loads layouts bytes.now result }
{
    if bytes.len() < 3 || !is_marked(bytes[0], bytes[1]) {
        return Err(LoadSettingsError::NoSettingsRecord);
    }
    let layout = layout_of(layouts, bytes[2]);
    read_layout(layout, &bytes[3..])
}
