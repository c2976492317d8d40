// Document 01, 'Settings': "The setters change a small settings record lent to them." Each stores what the setter by value hands back.

#![tactic(auto)]

ghost use Rattle.std.specs.Prelude.{◌≡◌};
ghost use Rattle.settings.specs.Settings.{with_preview, with_discovery, with_termination, with_timeout, with_merge, without_limit, limited, expiring, kept, told, Keeps};

use settings::{MergeChoice, SettingError, Settings};

pub fn set_process_preview_data(s: &mut Settings, on: bool)
    ensures s_after { s.new ≡ with_preview on s.old }
    ensures proper { Keeps s.old s.new }
{
    *s = s.set_process_preview_data(on);
}

pub fn set_announce_source_discovery(s: &mut Settings, on: bool)
    ensures s_after { s.new ≡ with_discovery on s.old }
    ensures proper { Keeps s.old s.new }
{
    *s = s.set_announce_source_discovery(on);
}

pub fn set_announce_stream_termination(s: &mut Settings, on: bool)
    ensures s_after { s.new ≡ with_termination on s.old }
    ensures proper { Keeps s.old s.new }
{
    *s = s.set_announce_stream_termination(on);
}

pub fn set_announce_timeout(s: &mut Settings, on: bool)
    ensures s_after { s.new ≡ with_timeout on s.old }
    ensures proper { Keeps s.old s.new }
{
    *s = s.set_announce_timeout(on);
}

pub fn set_merge(s: &mut Settings, choice: MergeChoice)
    ensures s_after { s.new ≡ with_merge choice s.old }
    ensures proper { Keeps s.old s.new }
{
    *s = s.set_merge(choice);
}

pub fn clear_source_limit(s: &mut Settings)
    ensures s_after { s.new ≡ without_limit s.old }
    ensures proper { Keeps s.old s.new }
{
    *s = s.clear_source_limit();
}

// A limit of 0 gives 14 and leaves the record as it was.
pub fn set_source_limit(s: &mut Settings, limit: u16) -> Result<(), SettingError>
    ensures s_after { (s.new ≡ kept (limited limit s.old) s.old) × (result ≡ told (limited limit s.old)) }
    ensures proper { Keeps s.old s.new }
{
    *s = s.set_source_limit(limit)?;
    Ok(())
}

// An expiry out of range gives 20 and leaves the record as it was.
pub fn set_discovery_expiry(s: &mut Settings, expiry: u32) -> Result<(), SettingError>
    ensures s_after { (s.new ≡ kept (expiring expiry s.old) s.old) × (result ≡ told (expiring expiry s.old)) }
    ensures proper { Keeps s.old s.new }
{
    *s = s.set_discovery_expiry(expiry)?;
    Ok(())
}
