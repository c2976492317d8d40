// Document 02, F-6: the writer's stops and the reader's tests, each in its order, with number and value expected and found. Settings built by hand hold what no
// setter leaves: a limit of 0 cannot be said through C.
ghost use Rattle.std.specs.Prelude.{◌≡◌};
ghost use Rattle.settings_store.specs.Record.{store_number, load_number};

use crate::report::{Outcome, hex, report};
use settings::{MergeChoice, Settings, SourceLimit};
use settings_calls::{load_settings, store_settings};
use settings_store::{Layouts, LoadSettingsError, StoreSettingsError};
use std::io::Stdout;

fn built(limit: u16, expiry: u32) -> Settings {
    Settings {
        process_preview_data: true,
        announce_source_discovery: false,
        announce_stream_termination: true,
        announce_timeout: false,
        merge: MergeChoice::HtpDmxMerge,
        source_limit: SourceLimit::AtMost(limit),
        discovery_expiry: expiry,
    }
}

fn store_number(answer: Result<(), StoreSettingsError>) -> u64
    ensures { result ≡ store_number answer }
{
    match answer {
        Ok(()) => 0,
        Err(StoreSettingsError::TooShort(_)) => 15,
        Err(StoreSettingsError::LimitZero) => 14,
        Err(StoreSettingsError::ExpiryOutOfRange) => 20,
    }
}

fn load_number(answer: Result<Settings, LoadSettingsError>) -> u64
    ensures { result ≡ load_number answer }
{
    match answer {
        Ok(_) => 0,
        Err(LoadSettingsError::NoSettingsRecord) => 22,
        Err(LoadSettingsError::UnreadableSettingsRecord) => 23,
    }
}

impl From<Result<(), StoreSettingsError>> for Outcome {
    fn from(answer: Result<(), StoreSettingsError>) -> Outcome {
        let value = match answer {
            Err(StoreSettingsError::TooShort(n)) => n as u64,
            _ => 0,
        };
        Outcome(store_number(answer), value)
    }
}

impl From<Result<Settings, LoadSettingsError>> for Outcome {
    fn from(answer: Result<Settings, LoadSettingsError>) -> Outcome {
        Outcome(load_number(answer), 0)
    }
}

// Of sixteen bytes at most fourteen are lent, from the second on. The one before and those behind stay, and after a stop all.
fn store(
    to: Stdout,
    what: &str,
    lent: usize,
    limit: u16,
    expiry: u32,
    expected: Outcome,
) -> [u8; 16] {
    let mut bytes = [0xCC; 16];
    let answer = store_settings(built(limit, expiry), &mut bytes[1..1 + lent.min(14)]);
    report(to, what, expected, answer);
    hex(to, &bytes);
    bytes
}

fn load(to: Stdout, what: &str, layouts: Layouts, bytes: &[u8], number: u64) {
    report(to, what, Outcome(number, 0), load_settings(layouts, bytes));
}

// The writer.
fn stores(to: Stdout) {
    for (what, lent, limit, expiry, expected) in [
        (
            "settings on 13 bytes, limit 0, expiry 2,499",
            13,
            0,
            2499,
            Outcome(15, 14),
        ),
        (
            "settings on 14 bytes, limit 0, expiry 2,499",
            14,
            0,
            2499,
            Outcome(14, 0),
        ),
        (
            "settings on 14 bytes, limit 1, expiry 2,499",
            14,
            1,
            2499,
            Outcome(20, 0),
        ),
        (
            "settings on 14 bytes, limit 1, expiry 60,001",
            14,
            1,
            60001,
            Outcome(20, 0),
        ),
    ] {
        store(to, what, lent, limit, expiry, expected);
    }
    let bytes = store(
        to,
        "settings on 14 bytes, limit 513, expiry 2,500",
        14,
        513,
        2500,
        Outcome(0, 0),
    );
    load(to, "read again", Layouts::Both, &bytes[1..], 0);
    load(
        to,
        "by the reader of layout 1",
        Layouts::First,
        &bytes[1..],
        23,
    );
}

// The reader.
fn loads(to: Stdout) {
    load(to, "no byte", Layouts::Both, b"", 22);
    load(to, "the mark alone", Layouts::Both, b"ST", 22);
    load(to, "a wrong mark", Layouts::Both, b"SU\x02", 22);
    load(to, "layout 0 in three bytes", Layouts::Both, b"ST\x00", 23);
    load(to, "layout 3 in three bytes", Layouts::Both, b"ST\x03", 23);
    load(
        to,
        "layout 1, a byte short, a flag of 2",
        Layouts::Both,
        b"ST\x01\x02\x00\x00\x00\x00\x00",
        22,
    );
    load(
        to,
        "layout 1, a flag of 2",
        Layouts::Both,
        b"ST\x01\x02\x00\x00\x00\x00\x00\x00",
        23,
    );
    load(
        to,
        "layout 1, and one byte more",
        Layouts::First,
        b"ST\x01\x01\x00\x00\x00\x00\x00\x00\xCC",
        0,
    );
    load(
        to,
        "layout 2, a byte short",
        Layouts::Both,
        b"ST\x02\x00\x00\x00\x00\x00\x00\x00\x00\x00\x4E",
        22,
    );
    load(
        to,
        "layout 2, a byte short, by the reader of layout 1",
        Layouts::First,
        b"ST\x02\x00\x00\x00\x00\x00\x00\x00\x00\x00\x4E",
        23,
    );
    load(
        to,
        "layout 2, expiry 2,499",
        Layouts::Both,
        b"ST\x02\x00\x00\x00\x00\x00\x00\x00\x00\x00\x09\xC3",
        23,
    );
}

pub fn settings_records(to: Stdout) {
    stores(to);
    loads(to);
}
