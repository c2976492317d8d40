// Settings records over the C boundary: the writer's answer, and the settings that the reader leaves.
ghost use Rattle.std.specs.Prelude.{◌≡◌};
ghost use Rattle.boundary.specs.Boundary.{choices_of, stored_of, loaded_of};

use crate::{Adjusted, Answer, Choices, bare, one};
use settings::Settings;
use settings_calls::{limit_number, merge_number};
use settings_store::{LoadSettingsError, StoreSettingsError};

fn choices_of(s: Settings) -> Choices
    ensures { result ≡ choices_of s }
{
    Choices {
        process_preview_data: s.process_preview_data,
        announce_source_discovery: s.announce_source_discovery,
        announce_stream_termination: s.announce_stream_termination,
        announce_timeout: s.announce_timeout,
        merge: merge_number(s.merge),
        source_limit: limit_number(s.source_limit),
        discovery_expiry: s.discovery_expiry,
    }
}

pub fn stored(a: Result<(), StoreSettingsError>) -> Answer
    ensures { result ≡ stored_of a }
{
    match a {
        Ok(()) => bare(0),
        Err(StoreSettingsError::TooShort(n)) => one(15, n),
        Err(StoreSettingsError::LimitZero) => bare(14),
        Err(StoreSettingsError::ExpiryOutOfRange) => bare(20),
    }
}

// The settings that were read; on a stop the caller's, as they were.
pub fn loaded(choices: Choices, a: Result<Settings, LoadSettingsError>) -> Adjusted
    ensures { result ≡ loaded_of choices a }
{
    match a {
        Ok(read) => Adjusted {
            choices: choices_of(read),
            number: 0,
        },
        Err(LoadSettingsError::NoSettingsRecord) => Adjusted {
            choices,
            number: 22,
        },
        Err(LoadSettingsError::UnreadableSettingsRecord) => Adjusted {
            choices,
            number: 23,
        },
    }
}
