// Document 01, 'Settings': preview, three announcements, merge choice and source limit; document 02, F-3: the discovery expiry. The setters take a record and hand back the next; those of `settings_lent` change a record lent to them.

#![tactic(auto)]

ghost use Rattle.std.specs.Prelude.{◌≡◌};
ghost use Rattle.settings.specs.Settings.{fresh, with_preview, with_discovery, with_termination, with_timeout, with_merge, without_limit, limited, in_range, expiring, kept, Keeps, Proper};

// How a packet joins the data that waits for its universe.
#[derive(Clone, Copy)]
pub enum MergeChoice {
    DiscardLowestPriorityThenPrevious,
    HtpDmxMerge,
}

// How many sources may be counted: any number, or 1 to 65,535.
#[derive(Clone, Copy)]
pub enum SourceLimit {
    Unlimited,
    AtMost(u16),
}

#[derive(Clone, Copy)]
pub struct Settings {
    pub process_preview_data: bool,
    pub announce_source_discovery: bool,
    pub announce_stream_termination: bool,
    pub announce_timeout: bool,
    pub merge: MergeChoice,
    pub source_limit: SourceLimit,
    // The age in milliseconds at which the discovery sweep drops a source.
    pub discovery_expiry: u32,
}

// Why a setter refuses.
#[derive(Clone, Copy, PartialEq, Eq)]
pub enum SettingError {
    // Number 14: a limit of 0.
    LimitZero,
    // Number 20: an expiry under 2,500 or over 60,000.
    ExpiryOutOfRange,
}

// Whether the discovery expiry may be set to this.
pub fn is_expiry_in_range(expiry: u32) -> bool
    ensures { result ≡ in_range expiry }
{
    (2500..=60000).contains(&expiry)
}

impl Settings {
    // Preview and announcements off, merging by priority, no limit, discovery expiry 20,000.
    pub fn new() -> Settings
        ensures value { result ≡ fresh }
        ensures proper { Proper result }
    {
        Settings {
            process_preview_data: false,
            announce_source_discovery: false,
            announce_stream_termination: false,
            announce_timeout: false,
            merge: MergeChoice::DiscardLowestPriorityThenPrevious,
            source_limit: SourceLimit::Unlimited,
            discovery_expiry: 20000,
        }
    }

    pub fn set_process_preview_data(self, on: bool) -> Settings
        ensures value { result ≡ with_preview on self }
        ensures proper { Keeps self result }
    {
        Settings {
            process_preview_data: on,
            ..self
        }
    }

    pub fn set_announce_source_discovery(self, on: bool) -> Settings
        ensures value { result ≡ with_discovery on self }
        ensures proper { Keeps self result }
    {
        Settings {
            announce_source_discovery: on,
            ..self
        }
    }

    pub fn set_announce_stream_termination(self, on: bool) -> Settings
        ensures value { result ≡ with_termination on self }
        ensures proper { Keeps self result }
    {
        Settings {
            announce_stream_termination: on,
            ..self
        }
    }

    pub fn set_announce_timeout(self, on: bool) -> Settings
        ensures value { result ≡ with_timeout on self }
        ensures proper { Keeps self result }
    {
        Settings {
            announce_timeout: on,
            ..self
        }
    }

    pub fn set_merge(self, choice: MergeChoice) -> Settings
        ensures value { result ≡ with_merge choice self }
        ensures proper { Keeps self result }
    {
        Settings {
            merge: choice,
            ..self
        }
    }

    pub fn clear_source_limit(self) -> Settings
        ensures value { result ≡ without_limit self }
        ensures proper { Keeps self result }
    {
        Settings {
            source_limit: SourceLimit::Unlimited,
            ..self
        }
    }

    // A limit of 0 is refused and changes nothing.
    pub fn set_source_limit(self, limit: u16) -> Result<Settings, SettingError>
        ensures value { result ≡ limited limit self }
        ensures proper { Keeps self (kept result self) }
    {
        if limit == 0 {
            return Err(SettingError::LimitZero);
        }
        Ok(Settings {
            source_limit: SourceLimit::AtMost(limit),
            ..self
        })
    }

    // An expiry out of range is refused and changes nothing.
    pub fn set_discovery_expiry(self, expiry: u32) -> Result<Settings, SettingError>
        ensures value { result ≡ expiring expiry self }
        ensures proper { Keeps self (kept result self) }
    {
        if !is_expiry_in_range(expiry) {
            return Err(SettingError::ExpiryOutOfRange);
        }
        Ok(Settings {
            discovery_expiry: expiry,
            ..self
        })
    }
}
