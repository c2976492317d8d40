// A command carried out: the receiver's call, and the line of its answer.
ghost use Rattle.std.specs.Prelude.{◌≡◌, [], ◌≤◌, length, take, replicate};
ghost use Rattle.settings.specs.declared.SourceLimit.TheVariants.{AtMost};
ghost use Rattle.settings.specs.Settings.{with_limit, with_expiry};
ghost use Rattle.waiting.specs.Waiting.{store_length};
ghost use Rattle.waiting_store.specs.Entries as waiting;
ghost use Rattle.listening.specs.View as listening;
ghost use Rattle.sequences.specs.View as sequences;
ghost use Rattle.discovery_calls.specs.View as discovery;
ghost use Rattle.lengths.specs.Space.{bytes};
ghost use Rattle.packets.specs.View.{packet_of, sync_of};
ghost use Rattle.model.specs.Packet.{data_packet, sync_packet, discovery_packet};
ghost use Rattle.model.specs.Calls.{poll_call, expiry_call, listen_call, mute_call, clear_call, clear_all_call};
ghost use Rattle.model.specs.Answer.{poll_number, poll_values, expiry_number, expiry_values, listen_number, listen_values, mute_number, mute_values, clear_number, clear_values};
ghost use Rattle.receiver.specs.Promises.{data_packet_lent, data_packet_lent_in, sync_packet_lent, sync_packet_lent_in, discovery_packet_lent, discovery_packet_lent_in};
ghost use Rattle.discovery.specs.Discovery.{pool_length};
ghost use Rattle.receiver.specs.View.{Memory, memory, with_sequence_rows, with_waiting_rows, with_listened_rows, with_discovery_rows, state_of, space_in, Kept, Becomes};
ghost use Rattle.packets.specs.View.{announcement_of};
ghost use Rattle.printing.specs.Text.{Ready};
ghost use Rattle.replay.specs.Session.{begun, set_to, answered, stored, restored, shown, recorded, called, changed, resetting, asked, stepped, Carries};
ghost use Rattle.model.specs.Step.{most_listened};

use discovery_rows::{HeadRows, NameRows, PageRows};
use handlers::{handle_data_packet, handle_sync_packet, handle_universe_discovery_packet};
use listening::ListenedUniverses;
use pair_rows::{PairRows, SourceRows};
use printing::answers::{
    front, put_clear, put_expiry, put_flag, put_listen, put_load, put_mute, put_number, put_poll,
    put_setting, put_settings, put_step, put_store,
};
use receiver::Receiver;
use script::parse::{DataLine, PageLine, Reset, SettingsLine, SyncLine};
use settings::{SettingError, Settings, SourceLimit};
use settings_calls::{load_settings, store_settings};
use settings_store::Layouts;
use std::io::Stdout;
use waiting_store::EntryRows;

// What one command leaves for the next: the receiver, its settings, and how much is still to be written out.
#[derive(Clone, Copy)]
pub struct Session {
    pub receiver: Receiver,
    pub settings: Settings,
    pub at: usize,
}

pub fn begin(session: Session, heard: &mut ListenedUniverses, to: Stdout, out: &mut [u8]) -> Session
    requires { (length heard.old ≡ most_listened) × Ready session.at out.old }
    ensures { (m : Memory) → Carries session m out.old begun result (with_listened_rows heard.new m)
        out.new }
{
    let receiver = Receiver::new(heard);
    let settings = Settings::new();
    let at = put_number(to, out, session.at, 0);
    Session {
        receiver,
        settings,
        at,
    }
}

// The settings are set; nothing can stop it.
pub fn set(session: Session, settings: Settings, to: Stdout, out: &mut [u8]) -> Session
    requires { Ready session.at out.old }
    ensures { (m : Memory) → Carries session m out.old (set_to settings (state_of session.receiver m)) result m
        out.new }
{
    let at = put_number(to, out, session.at, 0);
    Session {
        settings,
        at,
        ..session
    }
}

// The settings are set or, where the setter refuses, left.
pub fn set_answered(
    session: Session,
    answer: Result<Settings, SettingError>,
    to: Stdout,
    out: &mut [u8],
) -> Session
    requires { Ready session.at out.old }
    ensures { (m : Memory) → Carries session m out.old (answered answer session.settings (state_of session.receiver m)) result m
        out.new }
{
    let settings = answer.unwrap_or(session.settings);
    let at = put_setting(to, out, session.at, answer);
    Session {
        settings,
        at,
        ..session
    }
}

// Any limit, past the setter.
pub fn with_raw_limit(s: Settings, limit: u16) -> Settings
    ensures { result ≡ with_limit (AtMost limit) s }
{
    Settings {
        source_limit: SourceLimit::AtMost(limit),
        ..s
    }
}

// Any expiry, past the setter.
pub fn with_raw_expiry(s: Settings, expiry: u32) -> Settings
    ensures { result ≡ with_expiry expiry s }
{
    Settings {
        discovery_expiry: expiry,
        ..s
    }
}

// The writer on lent bytes; the settings are left.
fn store(session: Session, lent: &mut [u8], to: Stdout, out: &mut [u8]) -> Session
    requires { Ready session.at out.old }
    ensures { (m : Memory) → Carries session m out.old
        (stored lent.old session.settings (state_of session.receiver m)) result m out.new }
{
    let answer = store_settings(session.settings, lent);
    let at = put_store(to, out, session.at, answer, lent);
    Session { at, ..session }
}

// As many bytes as a length of eight bits can ask for, each of them cc; the script asks for 64 at most.
fn blank() -> [u8; 255]
    ensures { result ≡ replicate 255 0xCC }
{
    [0xCC; 255]
}

// The writer on so many of them.
fn store_on(session: Session, len: u8, to: Stdout, out: &mut [u8]) -> Session
    requires { Ready session.at out.old }
    ensures { (m : Memory) → Carries session m out.old
        (stored (replicate len 0xCC) session.settings (state_of session.receiver m)) result m out.new }
{
    let mut lent = blank();
    store(session, &mut lent[..len as usize], to, out)
}

// The reader over the lent bytes; where it stops the settings are those of before.
fn load(session: Session, layouts: Layouts, bytes: &[u8], to: Stdout, out: &mut [u8]) -> Session
    requires { Ready session.at out.old }
    ensures { (m : Memory) → Carries session m out.old
        (restored layouts «bytes».now session.settings (state_of session.receiver m)) result m out.new }
{
    let answer = load_settings(layouts, bytes);
    let settings = answer.unwrap_or(session.settings);
    let at = put_load(to, out, session.at, answer);
    Session {
        settings,
        at,
        ..session
    }
}

fn tell(session: Session, to: Stdout, out: &mut [u8]) -> Session
    requires { Ready session.at out.old }
    ensures { (m : Memory) → Carries session m out.old
        (shown session.settings (state_of session.receiver m)) result m out.new }
{
    let at = put_settings(to, out, session.at, session.settings);
    Session { at, ..session }
}

// The settings are written, read or shown.
pub fn carry_settings(
    session: Session,
    line: SettingsLine,
    bytes: &[u8],
    to: Stdout,
    out: &mut [u8],
) -> Session
    requires { Ready session.at out.old }
    ensures { (m : Memory) → Carries session m out.old
        (recorded «bytes».now line session.settings (state_of session.receiver m)) result m out.new }
{
    match line {
        SettingsLine::Store(len) => store_on(session, len, to, out),
        SettingsLine::Load(n, layouts) => load(session, layouts, front(bytes, n), to, out),
        SettingsLine::Show => tell(session, to, out),
    }
}

pub fn listen(
    session: Session,
    heard: &mut ListenedUniverses,
    list: &[u16],
    n: usize,
    to: Stdout,
    out: &mut [u8],
) -> Session
    requires { listening.Kept session.receiver.listened heard.old × Ready session.at out.old }
    ensures { (m : Memory) → Carries session (with_listened_rows heard.old m) out.old
        (called (listen_call (take n list.now)) listen_number listen_values session.settings
        (state_of session.receiver (with_listened_rows heard.old m))) result (with_listened_rows heard.new m)
        out.new }
{
    let a = session.receiver.listen_universes(heard, front(list, n));
    let at = put_listen(to, out, session.at, a.answer);
    Session {
        receiver: a.left,
        at,
        ..session
    }
}

pub fn mute(
    session: Session,
    heard: &mut ListenedUniverses,
    universe: u16,
    to: Stdout,
    out: &mut [u8],
) -> Session
    requires { listening.Kept session.receiver.listened heard.old × Ready session.at out.old }
    ensures { (m : Memory) → Carries session (with_listened_rows heard.old m) out.old
        (called (mute_call universe) mute_number mute_values session.settings
        (state_of session.receiver (with_listened_rows heard.old m))) result (with_listened_rows heard.new m)
        out.new }
{
    let a = session.receiver.mute_universe(heard, universe);
    let at = put_mute(to, out, session.at, a.answer);
    Session {
        receiver: a.left,
        at,
        ..session
    }
}

pub fn ask(
    session: Session,
    heard: &ListenedUniverses,
    universe: u16,
    to: Stdout,
    out: &mut [u8],
) -> Session
    requires { listening.Kept session.receiver.listened heard.now × Ready session.at out.old }
    ensures { (m : Memory) → Carries session (with_listened_rows heard.now m) out.old
        (asked universe session.settings (state_of session.receiver (with_listened_rows heard.now m))) result
        (with_listened_rows heard.now m) out.new }
{
    let held = session.receiver.is_listening(heard, universe);
    let at = put_flag(to, out, session.at, held);
    Session { at, ..session }
}

pub fn poll(
    session: Session,
    data_pairs: &mut PairRows,
    data_sources: &mut SourceRows,
    sync_pairs: &mut PairRows,
    sync_sources: &mut SourceRows,
    rows: &mut EntryRows,
    store: &mut [u8],
    reading: u64,
    to: Stdout,
    out: &mut [u8],
) -> Session
    requires { sequences.Kept session.receiver.sequences
        (sequences.lent data_pairs.old data_sources.old sync_pairs.old sync_sources.old) ×
        (store_length ≤ length store.old → waiting.Kept session.receiver.waiting.count rows.old store.old) × Ready
        session.at out.old }
    ensures { (m : Memory) → Carries session
        (with_sequence_rows (sequences.lent data_pairs.old data_sources.old sync_pairs.old
        sync_sources.old) (with_waiting_rows rows.old store.old m)) out.old
        (called (poll_call (length store.old) session.settings reading) poll_number poll_values session.settings
        (state_of session.receiver (with_sequence_rows (sequences.lent data_pairs.old data_sources.old
        sync_pairs.old sync_sources.old)
        (with_waiting_rows rows.old store.old m)))) result
        (with_sequence_rows (sequences.lent data_pairs.new data_sources.new sync_pairs.new
        sync_sources.new) (with_waiting_rows rows.new store.new m)) out.new }
{
    let a = session.receiver.poll(
        data_pairs,
        data_sources,
        sync_pairs,
        sync_sources,
        rows,
        store,
        session.settings,
        reading,
    );
    let at = put_poll(to, out, session.at, a.answer);
    Session {
        receiver: a.left,
        at,
        ..session
    }
}

pub fn sweep(
    session: Session,
    sources: &mut HeadRows,
    names: &mut NameRows,
    pages: &mut PageRows,
    universes: &mut [u16],
    reading: u64,
    to: Stdout,
    out: &mut [u8],
) -> Session
    requires { (pool_length ≤ length universes.old → discovery.Kept session.receiver.discovery sources.old names.old
        pages.old universes.old) × Ready session.at out.old }
    ensures { (m : Memory) → Carries session
        (with_discovery_rows sources.old names.old pages.old universes.old m)
        out.old (called (expiry_call (bytes universes.old) session.settings reading) expiry_number expiry_values
        session.settings (state_of session.receiver (with_discovery_rows sources.old names.old
        pages.old universes.old m))) result
        (with_discovery_rows sources.new names.new pages.new universes.new m)
        out.new }
{
    let a = session.receiver.remove_expired_sources(
        sources,
        names,
        pages,
        universes,
        session.settings,
        reading,
    );
    let at = put_expiry(to, out, session.at, a.answer);
    Session {
        receiver: a.left,
        at,
        ..session
    }
}

pub fn clear(
    session: Session,
    rows: &mut EntryRows,
    store: &mut [u8],
    universe: u16,
    to: Stdout,
    out: &mut [u8],
) -> Session
    requires { (store_length ≤ length store.old → waiting.Kept session.receiver.waiting.count rows.old store.old) ×
        Ready session.at out.old }
    ensures { (m : Memory) → Carries session (with_waiting_rows rows.old store.old m)
        out.old (called (clear_call (length store.old) universe) clear_number clear_values session.settings
        (state_of session.receiver (with_waiting_rows rows.old store.old m))) result
        (with_waiting_rows rows.new store.new m) out.new }
{
    let a = session.receiver.clear_waiting_data(rows, store, universe);
    let at = put_clear(to, out, session.at, a.answer);
    Session {
        receiver: a.left,
        at,
        ..session
    }
}

pub fn clear_all(session: Session, to: Stdout, out: &mut [u8]) -> Session
    requires { Ready session.at out.old }
    ensures { (m : Memory) → Carries session m out.old
        (changed clear_all_call session.settings (state_of session.receiver m)) result m out.new }
{
    let receiver = session.receiver.clear_all_waiting_data();
    let at = put_number(to, out, session.at, 0);
    Session {
        receiver,
        at,
        ..session
    }
}

fn forget(receiver: Receiver, reset: Reset) -> Receiver
    ensures { (m : Memory) → Becomes (resetting reset) receiver result m }
{
    match reset {
        Reset::Sources => receiver.reset_sources(),
        Reset::Pairs => receiver.reset_pairs(),
        Reset::Discovery => receiver.reset_discovery(),
    }
}

pub fn reset(session: Session, reset: Reset, to: Stdout, out: &mut [u8]) -> Session
    requires { Ready session.at out.old }
    ensures { (m : Memory) → Carries session m out.old
        (changed (resetting reset) session.settings (state_of session.receiver m)) result m out.new }
{
    let receiver = forget(session.receiver, reset);
    let at = put_number(to, out, session.at, 0);
    Session {
        receiver,
        at,
        ..session
    }
}

pub fn step_data(
    session: Session,
    data_pairs: &mut PairRows,
    data_sources: &mut SourceRows,
    sync_pairs: &mut PairRows,
    sync_sources: &mut SourceRows,
    rows: &mut EntryRows,
    store: &mut [u8],
    heard: &mut ListenedUniverses,
    sources: &HeadRows,
    names: &NameRows,
    pages: &mut PageRows,
    universes: &mut [u16],
    line: DataLine,
    bytes: &[u8],
    released: &mut [u8],
    to: Stdout,
    out: &mut [u8],
) -> Session
    requires { Kept session.receiver (data_packet_lent_in data_pairs data_sources sync_pairs sync_sources rows store heard
        sources names pages universes) × Ready session.at out.old }
    ensures { let m = data_packet_lent data_pairs data_sources sync_pairs sync_sources rows store heard sources names pages universes in
        Carries session m.entry out.old
        (stepped (space_in m.entry released.old) released.old [] line.«now»
        (data_packet (packet_of line.packet (take line.count «bytes».now))) session.settings
        (state_of session.receiver m.entry)) result m.exit out.new }
{
    let a = handle_data_packet(
        session.receiver,
        data_pairs,
        data_sources,
        sync_pairs,
        sync_sources,
        rows,
        store,
        heard,
        sources,
        names,
        pages,
        universes,
        session.settings,
        line.now,
        line.packet,
        front(bytes, line.count),
        released,
    );
    let at = put_step(to, out, session.at, a.answer, b"", released);
    Session {
        receiver: a.left,
        at,
        ..session
    }
}

pub fn step_sync(
    session: Session,
    data_pairs: &mut PairRows,
    data_sources: &mut SourceRows,
    sync_pairs: &mut PairRows,
    sync_sources: &mut SourceRows,
    rows: &mut EntryRows,
    store: &mut [u8],
    heard: &ListenedUniverses,
    sources: &HeadRows,
    names: &NameRows,
    pages: &PageRows,
    universes: &[u16],
    line: SyncLine,
    released: &mut [u8],
    to: Stdout,
    out: &mut [u8],
) -> Session
    requires { Kept session.receiver (sync_packet_lent_in data_pairs data_sources sync_pairs sync_sources rows store heard
        sources names pages universes) × Ready session.at out.old }
    ensures { let m = sync_packet_lent data_pairs data_sources sync_pairs sync_sources rows store heard sources names pages universes in
        Carries session m.entry out.old
        (stepped (space_in m.entry released.old) released.old [] line.«now»
        (sync_packet (sync_of line.packet)) session.settings (state_of session.receiver m.entry)) result m.exit
        out.new }
{
    let a = handle_sync_packet(
        session.receiver,
        data_pairs,
        data_sources,
        sync_pairs,
        sync_sources,
        rows,
        store,
        heard,
        sources,
        names,
        pages,
        universes,
        session.settings,
        line.now,
        line.packet,
        released,
    );
    let at = put_step(to, out, session.at, a.answer, b"", released);
    Session {
        receiver: a.left,
        at,
        ..session
    }
}

pub fn step_discovery(
    session: Session,
    data_pairs: &mut PairRows,
    data_sources: &mut SourceRows,
    sync_pairs: &mut PairRows,
    sync_sources: &mut SourceRows,
    rows: &mut EntryRows,
    store: &mut [u8],
    heard: &ListenedUniverses,
    sources: &mut HeadRows,
    names: &mut NameRows,
    pages: &mut PageRows,
    universes: &mut [u16],
    line: PageLine,
    bytes: &[u8],
    list: &[u16],
    released: &[u8],
    to: Stdout,
    out: &mut [u8],
) -> Session
    requires { Kept session.receiver (discovery_packet_lent_in data_pairs data_sources sync_pairs sync_sources rows store heard
        sources names pages universes) × Ready session.at out.old }
    ensures { let m = discovery_packet_lent data_pairs data_sources sync_pairs sync_sources rows store heard sources names pages universes in
        Carries session m.entry out.old
        (stepped (space_in m.entry released.now) released.now
        (take line.name «bytes».now) line.«now»
        (discovery_packet (announcement_of line.packet (take line.name «bytes».now)
        (take line.count list.now))) session.settings (state_of session.receiver m.entry)) result m.exit
        out.new }
{
    let name = front(bytes, line.name);
    let a = handle_universe_discovery_packet(
        session.receiver,
        data_pairs,
        data_sources,
        sync_pairs,
        sync_sources,
        rows,
        store,
        heard,
        sources,
        names,
        pages,
        universes,
        session.settings,
        line.now,
        line.packet,
        name,
        front(list, line.count),
        released,
    );
    let at = put_step(to, out, session.at, a.answer, name, released);
    Session {
        receiver: a.left,
        at,
        ..session
    }
}
