// The line that each answer prints.
ghost use Rattle.std.specs.Prelude.{◌≡◌, [], ◌∷◌, take};
ghost use Rattle.rules.specs.Answer.{number, integer, source, name};
ghost use Rattle.model.specs.Answer.{poll_number, poll_values, expiry_number, expiry_values, listen_number, listen_values, mute_number, mute_values, clear_number, clear_values};
ghost use Rattle.settings.specs.Settings.{number_of, values_of};
ghost use Rattle.settings_store.specs.Record.{load_number, load_values};
ghost use Rattle.printing.specs.Text.{Ready, Tells};
ghost use Rattle.printing.specs.Answers.{answer_line, flag_line, release_line, step_line, store_line, spaced_bit, merge_text, limit_text, settings_line};

use crate::print::{
    put, put_bit, put_byte_string, put_cid, put_decimal, put_hex, put_signed, put_text,
};
use model::{ClearAnswer, ExpiryAnswer, ListenAnswer, MuteAnswer, PollAnswer, StepAnswer};
use rules::Cid;
use settings::{MergeChoice, SettingError, Settings, SourceLimit};
use settings_store::{LoadSettingsError, StoreSettingsError};
use std::io::Stdout;

// The first n elements, or all.
pub fn front<T>(elements: &[T], n: usize) -> &[T]
    ensures { result.now ≡ take n elements.now }
{
    &elements[..n.min(elements.len())]
}

// A number with no values.
pub fn put_number(to: Stdout, out: &mut [u8], at: usize, n: u64) -> usize
    requires { Ready at out.old }
    ensures { Tells (answer_line n []) out.old at out.new result }
{
    let a = put_decimal(to, out, at, n);
    put(to, out, a, b'\n')
}

// A number with a length, a count or a universe.
pub fn put_value(to: Stdout, out: &mut [u8], at: usize, n: u64, value: u64) -> usize
    requires { Ready at out.old }
    ensures { Tells (answer_line n (number value ∷ [])) out.old at out.new result }
{
    let a = put_decimal(to, out, at, n);
    let b = put(to, out, a, b' ');
    put_number(to, out, b, value)
}

// 0 with a yes or no.
pub fn put_flag(to: Stdout, out: &mut [u8], at: usize, on: bool) -> usize
    requires { Ready at out.old }
    ensures { Tells (flag_line on) out.old at out.new result }
{
    put_value(to, out, at, 0, u64::from(on))
}

// A number with a source and a universe.
fn put_pair(to: Stdout, out: &mut [u8], at: usize, n: u64, cid: Cid, universe: u16) -> usize
    requires { Ready at out.old }
    ensures { Tells (answer_line n (source cid ∷ number universe ∷ [])) out.old at out.new result }
{
    let a = put_decimal(to, out, at, n);
    let b = put(to, out, a, b' ');
    let d = put_cid(to, out, b, cid);
    let e = put(to, out, d, b' ');
    put_number(to, out, e, universe as u64)
}

// A number with the arriving sequence number, the last and the difference.
fn put_sequence(
    to: Stdout,
    out: &mut [u8],
    at: usize,
    n: u64,
    arriving: u8,
    last: u8,
    difference: i8,
) -> usize
    requires { Ready at out.old }
    ensures { Tells (answer_line n (number arriving ∷ number last ∷ integer difference ∷ [])) out.old at
        out.new result }
{
    let a = put_decimal(to, out, at, n);
    let b = put(to, out, a, b' ');
    let d = put_decimal(to, out, b, arriving as u64);
    let e = put(to, out, d, b' ');
    let f = put_decimal(to, out, e, last as u64);
    let g = put(to, out, f, b' ');
    let h = put_signed(to, out, g, difference);
    put(to, out, h, b'\n')
}

// A number with a byte string.
fn put_named(to: Stdout, out: &mut [u8], at: usize, n: u64, bytes: &[u8]) -> usize
    requires { Ready at out.old }
    ensures { Tells (answer_line n (name «bytes».now ∷ [])) out.old at out.new result }
{
    let a = put_decimal(to, out, at, n);
    let b = put(to, out, a, b' ');
    let d = put_byte_string(to, out, b, bytes);
    put(to, out, d, b'\n')
}

// A release: records, bytes and the bytes themselves.
fn put_release(
    to: Stdout,
    out: &mut [u8],
    at: usize,
    records: usize,
    bytes: usize,
    released: &[u8],
) -> usize
    requires { Ready at out.old }
    ensures { Tells (release_line records bytes released.now) out.old at out.new result }
{
    let a = put_text(to, out, at, b"0 release ");
    let b = put_decimal(to, out, a, records as u64);
    let d = put(to, out, b, b' ');
    let e = put_decimal(to, out, d, bytes as u64);
    let f = put(to, out, e, b' ');
    let g = put_hex(to, out, f, front(released, bytes));
    put(to, out, g, b'\n')
}

pub fn put_step(
    to: Stdout,
    out: &mut [u8],
    at: usize,
    answer: StepAnswer,
    own: &[u8],
    released: &[u8],
) -> usize
    requires { Ready at out.old }
    ensures { Tells (step_line own.now released.now answer) out.old at out.new result }
{
    match answer {
        StepAnswer::Nothing => put_number(to, out, at, 0),
        StepAnswer::Released(records, bytes) => put_release(to, out, at, records, bytes, released),
        StepAnswer::TooLong(n) => put_value(to, out, at, 1, n as u64),
        StepAnswer::IllegalUniverse(u) => put_value(to, out, at, 2, u64::from(u)),
        StepAnswer::UniverseTimeout(c, u) => put_pair(to, out, at, 4, c, u),
        StepAnswer::UniverseTerminated(c, u) => put_pair(to, out, at, 5, c, u),
        StepAnswer::SourcesExceeded(n) => put_value(to, out, at, 6, n as u64),
        StepAnswer::OutOfSequence(a, l, d) => put_sequence(to, out, at, 7, a, l, d),
        StepAnswer::DmxMergeError => put_number(to, out, at, 8),
        StepAnswer::SourceDiscovered => put_named(to, out, at, 9, own),
        StepAnswer::PairsFull => put_number(to, out, at, 10),
        StepAnswer::ListenedFull => put_number(to, out, at, 11),
        StepAnswer::WaitingFull => put_number(to, out, at, 12),
        StepAnswer::PagesFull => put_number(to, out, at, 13),
        StepAnswer::TooShort(n) => put_value(to, out, at, 15, n as u64),
        StepAnswer::Repeated(a, l, d) => put_sequence(to, out, at, 21, a, l, d),
    }
}

pub fn put_poll(to: Stdout, out: &mut [u8], at: usize, answer: PollAnswer) -> usize
    requires { Ready at out.old }
    ensures { Tells (answer_line (poll_number answer) (poll_values answer)) out.old at out.new result }
{
    match answer {
        PollAnswer::Polled => put_number(to, out, at, 0),
        PollAnswer::UniverseTimeout(c, u) => put_pair(to, out, at, 4, c, u),
        PollAnswer::TooShort(n) => put_value(to, out, at, 15, n as u64),
    }
}

pub fn put_expiry(to: Stdout, out: &mut [u8], at: usize, answer: ExpiryAnswer) -> usize
    requires { Ready at out.old }
    ensures { Tells (answer_line (expiry_number answer) (expiry_values answer)) out.old at out.new result }
{
    match answer {
        ExpiryAnswer::Swept => put_number(to, out, at, 0),
        ExpiryAnswer::TooShort(n) => put_value(to, out, at, 15, n as u64),
    }
}

pub fn put_listen(to: Stdout, out: &mut [u8], at: usize, answer: ListenAnswer) -> usize
    requires { Ready at out.old }
    ensures { Tells (answer_line (listen_number answer) (listen_values answer)) out.old at out.new result }
{
    match answer {
        ListenAnswer::Listening => put_number(to, out, at, 0),
        ListenAnswer::IllegalUniverse(u) => put_value(to, out, at, 2, u64::from(u)),
        ListenAnswer::ListenedFull => put_number(to, out, at, 11),
    }
}

pub fn put_mute(to: Stdout, out: &mut [u8], at: usize, answer: MuteAnswer) -> usize
    requires { Ready at out.old }
    ensures { Tells (answer_line (mute_number answer) (mute_values answer)) out.old at out.new result }
{
    match answer {
        MuteAnswer::Muted => put_number(to, out, at, 0),
        MuteAnswer::IllegalUniverse(u) => put_value(to, out, at, 2, u64::from(u)),
        MuteAnswer::UniverseNotRegistered(u) => put_value(to, out, at, 3, u64::from(u)),
    }
}

pub fn put_clear(to: Stdout, out: &mut [u8], at: usize, answer: ClearAnswer) -> usize
    requires { Ready at out.old }
    ensures { Tells (answer_line (clear_number answer) (clear_values answer)) out.old at out.new result }
{
    match answer {
        ClearAnswer::Cleared(held) => put_flag(to, out, at, held),
        ClearAnswer::TooShort(n) => put_value(to, out, at, 15, n as u64),
    }
}

// What a setter answers, by value or over a record lent.
pub fn put_setting<T: Copy>(
    to: Stdout,
    out: &mut [u8],
    at: usize,
    answer: Result<T, SettingError>,
) -> usize
    requires { Ready at out.old }
    ensures { Tells (answer_line (number_of answer) (values_of answer)) out.old at out.new result }
{
    match answer {
        Ok(_) => put_number(to, out, at, 0),
        Err(SettingError::LimitZero) => put_number(to, out, at, 14),
        Err(SettingError::ExpiryOutOfRange) => put_number(to, out, at, 20),
    }
}

// The writer's answer, with all lent bytes after 0.
pub fn put_store(
    to: Stdout,
    out: &mut [u8],
    at: usize,
    answer: Result<(), StoreSettingsError>,
    bytes: &[u8],
) -> usize
    requires { Ready at out.old }
    ensures { Tells (store_line «bytes».now answer) out.old at out.new result }
{
    match answer {
        Ok(()) => put_named(to, out, at, 0, bytes),
        Err(StoreSettingsError::TooShort(n)) => put_value(to, out, at, 15, n as u64),
        Err(StoreSettingsError::LimitZero) => put_number(to, out, at, 14),
        Err(StoreSettingsError::ExpiryOutOfRange) => put_number(to, out, at, 20),
    }
}

pub fn put_load(
    to: Stdout,
    out: &mut [u8],
    at: usize,
    answer: Result<Settings, LoadSettingsError>,
) -> usize
    requires { Ready at out.old }
    ensures { Tells (answer_line (load_number answer) (load_values answer)) out.old at out.new result }
{
    match answer {
        Ok(_) => put_number(to, out, at, 0),
        Err(LoadSettingsError::NoSettingsRecord) => put_number(to, out, at, 22),
        Err(LoadSettingsError::UnreadableSettingsRecord) => put_number(to, out, at, 23),
    }
}

fn put_spaced_bit(to: Stdout, out: &mut [u8], at: usize, on: bool) -> usize
    requires { Ready at out.old }
    ensures { Tells (spaced_bit on) out.old at out.new result }
{
    let a = put(to, out, at, b' ');
    put_bit(to, out, a, on)
}

fn put_merge(to: Stdout, out: &mut [u8], at: usize, choice: MergeChoice) -> usize
    requires { Ready at out.old }
    ensures { Tells (merge_text choice) out.old at out.new result }
{
    match choice {
        MergeChoice::DiscardLowestPriorityThenPrevious => put_text(to, out, at, b"priority"),
        MergeChoice::HtpDmxMerge => put_text(to, out, at, b"highest"),
    }
}

fn put_limit(to: Stdout, out: &mut [u8], at: usize, limit: SourceLimit) -> usize
    requires { Ready at out.old }
    ensures { Tells (limit_text limit) out.old at out.new result }
{
    match limit {
        SourceLimit::Unlimited => put_text(to, out, at, b"none"),
        SourceLimit::AtMost(n) => put_decimal(to, out, at, u64::from(n)),
    }
}

// 0 and every setting.
pub fn put_settings(to: Stdout, out: &mut [u8], at: usize, settings: Settings) -> usize
    requires { Ready at out.old }
    ensures { Tells (settings_line settings) out.old at out.new result }
{
    let a = put(to, out, at, b'0');
    let b = put_spaced_bit(to, out, a, settings.process_preview_data);
    let d = put_spaced_bit(to, out, b, settings.announce_source_discovery);
    let e = put_spaced_bit(to, out, d, settings.announce_stream_termination);
    let f = put_spaced_bit(to, out, e, settings.announce_timeout);
    let g = put(to, out, f, b' ');
    let h = put_merge(to, out, g, settings.merge);
    let i = put(to, out, h, b' ');
    let j = put_limit(to, out, i, settings.source_limit);
    let k = put(to, out, j, b' ');
    put_number(to, out, k, settings.discovery_expiry as u64)
}
