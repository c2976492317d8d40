// The receiver for programs in C and Rust: headers, settings, packets and answers are structs of numbers, by value; the memory is lent to every call.
// The C interface: the lent parts are parameters one by one, and their names, types and order stay.

#![tactic(auto)]

ghost use Rattle.std.specs.Prelude.{◌≡◌, length};
ghost use Rattle.settings.specs.Settings.{fresh, with_preview, with_discovery, with_termination, with_timeout, with_merge, without_limit, limited, expiring, kept, number_of};
ghost use Rattle.settings_store.specs.declared.Layouts.TheVariants.{First, Both};
ghost use Rattle.settings_store.specs.Record.{merge_of};
ghost use Rattle.listening.specs.View as listening;
ghost use Rattle.sequences.specs.View as sequences;
ghost use Rattle.model.specs.Packet.{data_packet, sync_packet, discovery_packet};
ghost use Rattle.model.specs.Answer.{poll_number, poll_values, expiry_number, expiry_values, listen_number, listen_values, mute_number, mute_values, clear_number, clear_values};
ghost use Rattle.model.specs.State.{listens};
ghost use Rattle.model.specs.Calls.{poll_call, expiry_call, listen_call, mute_call, clear_call, clear_all_call, reset_pairs_call, reset_discovery_call, reset_call};
ghost use Rattle.lengths.specs.Space.{bytes};
ghost use Rattle.laws.specs.Lent.{untouched};
ghost use Rattle.receiver.specs.View.{Memory, with_listened_rows, state_of, KeptWaiting, KeptDiscovery, Kept, Begins, Becomes};
ghost use Rattle.sequences.specs.Promises.{sequence_rows_in};
ghost use Rattle.receiver.specs.Promises.{data_packet_lent_in, data_packet_lent, sync_packet_lent_in, sync_packet_lent, discovery_packet_lent_in, discovery_packet_lent, sequences_lent, waiting_lent, listened_lent, discovery_lent};
ghost use Rattle.boundary.specs.Boundary.{receiver_of, settings_of, packet_in, sync_in, announced_in};
ghost use Rattle.tamburelvi.specs.Promises.{Replies, Answers, StoresSettings, LoadsSettings};

pub mod read_outs;

use boundary::records::{loaded, stored};
use boundary::{
    Adjusted, Answer, Choices, Data, Header, Page, Reply, Sync, cleared, data_of, discovery_of,
    header_of, heard_answer, muted, polled, receiver_of, settings_of, step_reply, swept, sync_of,
    with_discovery_expiry, with_source_limit,
};
use discovery_rows::{HeadRows, NameRows, PageRows};
use handlers::{handle_data_packet, handle_sync_packet, handle_universe_discovery_packet};
use listening::ListenedUniverses;
use pair_rows::{PairRows, SourceRows};
use receiver::Receiver;
use settings_calls::{load_settings, store_settings};
use settings_store::Layouts;
use waiting_store::EntryRows;

// A step on a data packet.
#[unsafe(no_mangle)]
pub extern "C" fn tamburelvi_handle_data_packet(
    header: Header,
    data_pairs: &mut PairRows,
    data_sources: &mut SourceRows,
    sync_pairs: &mut PairRows,
    sync_sources: &mut SourceRows,
    rows: &mut EntryRows,
    store: &mut [u8],
    heard: &mut ListenedUniverses,
    sources: &HeadRows,
    names: &NameRows,
    pages: &mut PageRows,
    universes: &mut [u16],
    choices: Choices,
    reading: u64,
    data: Data,
    values: &[u8],
    out: &mut [u8],
) -> Reply
    requires { Kept (receiver_of header)
        (data_packet_lent_in data_pairs data_sources sync_pairs sync_sources rows store heard sources names pages universes) }
    ensures { let m = data_packet_lent data_pairs data_sources sync_pairs sync_sources rows store heard sources names pages universes in
        Replies (settings_of choices) reading (data_packet (packet_in «data» values.now))
        header m.entry out.old result m.exit out.new }
{
    step_reply(handle_data_packet(
        receiver_of(header),
        data_pairs,
        data_sources,
        sync_pairs,
        sync_sources,
        rows,
        store,
        heard,
        sources,
        names,
        pages,
        universes,
        settings_of(choices),
        reading,
        data_of(data),
        values,
        out,
    ))
}

// A step on a synchronisation packet.
#[unsafe(no_mangle)]
pub extern "C" fn tamburelvi_handle_sync_packet(
    header: Header,
    data_pairs: &mut PairRows,
    data_sources: &mut SourceRows,
    sync_pairs: &mut PairRows,
    sync_sources: &mut SourceRows,
    rows: &mut EntryRows,
    store: &mut [u8],
    heard: &ListenedUniverses,
    sources: &HeadRows,
    names: &NameRows,
    pages: &PageRows,
    universes: &[u16],
    choices: Choices,
    reading: u64,
    sync: Sync,
    out: &mut [u8],
) -> Reply
    requires { Kept (receiver_of header)
        (sync_packet_lent_in data_pairs data_sources sync_pairs sync_sources rows store heard sources names pages universes) }
    ensures { let m = sync_packet_lent data_pairs data_sources sync_pairs sync_sources rows store heard sources names pages universes in
        Replies (settings_of choices) reading (sync_packet (sync_in sync))
        header m.entry out.old result m.exit out.new }
{
    step_reply(handle_sync_packet(
        receiver_of(header),
        data_pairs,
        data_sources,
        sync_pairs,
        sync_sources,
        rows,
        store,
        heard,
        sources,
        names,
        pages,
        universes,
        settings_of(choices),
        reading,
        sync_of(sync),
        out,
    ))
}

// A step on a discovery packet, with its name and its universes.
#[unsafe(no_mangle)]
pub extern "C" fn tamburelvi_handle_universe_discovery_packet(
    header: Header,
    data_pairs: &mut PairRows,
    data_sources: &mut SourceRows,
    sync_pairs: &mut PairRows,
    sync_sources: &mut SourceRows,
    rows: &mut EntryRows,
    store: &mut [u8],
    heard: &ListenedUniverses,
    sources: &mut HeadRows,
    names: &mut NameRows,
    pages: &mut PageRows,
    universes: &mut [u16],
    choices: Choices,
    reading: u64,
    page: Page,
    name: &[u8],
    list: &[u16],
    out: &[u8],
) -> Reply
    requires { Kept (receiver_of header)
        (discovery_packet_lent_in data_pairs data_sources sync_pairs sync_sources rows store heard sources names pages universes) }
    ensures { let m = discovery_packet_lent data_pairs data_sources sync_pairs sync_sources rows store heard sources names pages universes in
        Replies (settings_of choices) reading (discovery_packet (announced_in page name.now list.now))
        header m.entry out.now result m.exit out.now }
{
    step_reply(handle_universe_discovery_packet(
        receiver_of(header),
        data_pairs,
        data_sources,
        sync_pairs,
        sync_sources,
        rows,
        store,
        heard,
        sources,
        names,
        pages,
        universes,
        settings_of(choices),
        reading,
        discovery_of(page),
        name,
        list,
        out,
    ))
}

// The sweeps that a step begins with.
#[unsafe(no_mangle)]
pub extern "C" fn tamburelvi_poll(
    header: Header,
    data_pairs: &mut PairRows,
    data_sources: &mut SourceRows,
    sync_pairs: &mut PairRows,
    sync_sources: &mut SourceRows,
    rows: &mut EntryRows,
    store: &mut [u8],
    choices: Choices,
    reading: u64,
) -> Reply
    requires sequences { sequences.Kept (receiver_of header).sequences (sequence_rows_in data_pairs data_sources sync_pairs sync_sources) }
    requires waiting { KeptWaiting (receiver_of header).waiting.count rows.old store.old }
    ensures { (rest : Memory) →
        let m = sequences_lent data_pairs data_sources sync_pairs sync_sources (waiting_lent rows store (untouched rest)) in
        Answers (poll_call (length store.old) (settings_of choices) reading) poll_number poll_values header m.entry result m.exit }
{
    let h = receiver_of(header).poll(
        data_pairs,
        data_sources,
        sync_pairs,
        sync_sources,
        rows,
        store,
        settings_of(choices),
        reading,
    );
    Reply {
        header: header_of(h.left),
        answer: polled(h.answer),
    }
}

// The discovery sweep, by the settings' discovery expiry.
#[unsafe(no_mangle)]
pub extern "C" fn tamburelvi_remove_expired_sources(
    header: Header,
    sources: &mut HeadRows,
    names: &mut NameRows,
    pages: &mut PageRows,
    universes: &mut [u16],
    choices: Choices,
    reading: u64,
) -> Reply
    requires { KeptDiscovery (receiver_of header).discovery sources.old names.old pages.old universes.old }
    ensures { (rest : Memory) →
        let m = discovery_lent sources names pages universes (untouched rest) in
        Answers (expiry_call (bytes universes.old) (settings_of choices) reading) expiry_number expiry_values header m.entry result m.exit }
{
    let h = receiver_of(header).remove_expired_sources(
        sources,
        names,
        pages,
        universes,
        settings_of(choices),
        reading,
    );
    Reply {
        header: header_of(h.left),
        answer: swept(h.answer),
    }
}

// Listens to all of the universes, or to none.
#[unsafe(no_mangle)]
pub extern "C" fn tamburelvi_listen_universes(
    header: Header,
    heard: &mut ListenedUniverses,
    list: &[u16],
) -> Reply
    requires { listening.Kept (receiver_of header).listened heard.old }
    ensures { (rest : Memory) →
        let m = listened_lent heard (untouched rest) in
        Answers (listen_call list.now) listen_number listen_values header m.entry result m.exit }
{
    let h = receiver_of(header).listen_universes(heard, list);
    Reply {
        header: header_of(h.left),
        answer: heard_answer(h.answer),
    }
}

// Listens to the universe no longer.
#[unsafe(no_mangle)]
pub extern "C" fn tamburelvi_mute_universe(
    header: Header,
    heard: &mut ListenedUniverses,
    universe: u16,
) -> Reply
    requires { listening.Kept (receiver_of header).listened heard.old }
    ensures { (rest : Memory) →
        let m = listened_lent heard (untouched rest) in
        Answers (mute_call universe) mute_number mute_values header m.entry result m.exit }
{
    let h = receiver_of(header).mute_universe(heard, universe);
    Reply {
        header: header_of(h.left),
        answer: muted(h.answer),
    }
}

// Forgets the universe's waiting data; answers whether there was any.
#[unsafe(no_mangle)]
pub extern "C" fn tamburelvi_clear_waiting_data(
    header: Header,
    rows: &mut EntryRows,
    store: &mut [u8],
    universe: u16,
) -> Reply
    requires { KeptWaiting (receiver_of header).waiting.count rows.old store.old }
    ensures { (rest : Memory) →
        let m = waiting_lent rows store (untouched rest) in
        Answers (clear_call (length store.old) universe) clear_number clear_values header m.entry result m.exit }
{
    let h = receiver_of(header).clear_waiting_data(rows, store, universe);
    Reply {
        header: header_of(h.left),
        answer: cleared(h.answer),
    }
}

// A fresh receiver; but for the listened universes the memory may hold anything.
#[unsafe(no_mangle)]
pub extern "C" fn tamburelvi_new(heard: &mut ListenedUniverses) -> Header
    ensures { (m : Memory) → Begins (receiver_of result) (with_listened_rows heard.new m) }
{
    header_of(Receiver::new(heard))
}

#[unsafe(no_mangle)]
pub extern "C" fn tamburelvi_is_listening(
    header: Header,
    heard: &ListenedUniverses,
    universe: u16,
) -> bool
    requires { listening.Kept (receiver_of header).listened heard.now }
    ensures { (m : Memory) → result ≡ listens universe (state_of (receiver_of header) (with_listened_rows heard.now m)).listened }
{
    receiver_of(header).is_listening(heard, universe)
}

// Forgets all waiting data.
#[unsafe(no_mangle)]
pub extern "C" fn tamburelvi_clear_all_waiting_data(header: Header) -> Header
    ensures { (m : Memory) → Becomes clear_all_call (receiver_of header) (receiver_of result) m }
{
    header_of(receiver_of(header).clear_all_waiting_data())
}

// Forgets both pair tables; the discovery lists and waiting data stay.
#[unsafe(no_mangle)]
pub extern "C" fn tamburelvi_reset_pairs(header: Header) -> Header
    ensures { (m : Memory) → Becomes reset_pairs_call (receiver_of header) (receiver_of result) m }
{
    header_of(receiver_of(header).reset_pairs())
}

// Forgets both discovery lists; the pair tables and waiting data stay.
#[unsafe(no_mangle)]
pub extern "C" fn tamburelvi_reset_discovery(header: Header) -> Header
    ensures { (m : Memory) → Becomes reset_discovery_call (receiver_of header) (receiver_of result) m }
{
    header_of(receiver_of(header).reset_discovery())
}

// The two in turn.
#[unsafe(no_mangle)]
pub extern "C" fn tamburelvi_reset_sources(header: Header) -> Header
    ensures { (m : Memory) → Becomes reset_call (receiver_of header) (receiver_of result) m }
{
    header_of(receiver_of(header).reset_sources())
}

// The fresh settings.
#[unsafe(no_mangle)]
pub extern "C" fn tamburelvi_fresh_settings() -> Choices
    ensures { settings_of result ≡ fresh }
{
    Choices {
        process_preview_data: false,
        announce_source_discovery: false,
        announce_stream_termination: false,
        announce_timeout: false,
        merge: 0,
        source_limit: 0,
        discovery_expiry: 20000,
    }
}

#[unsafe(no_mangle)]
pub extern "C" fn tamburelvi_set_process_preview_data(choices: Choices, on: bool) -> Choices
    ensures { settings_of result ≡ with_preview on (settings_of choices) }
{
    Choices {
        process_preview_data: on,
        ..choices
    }
}

#[unsafe(no_mangle)]
pub extern "C" fn tamburelvi_set_announce_source_discovery(choices: Choices, on: bool) -> Choices
    ensures { settings_of result ≡ with_discovery on (settings_of choices) }
{
    Choices {
        announce_source_discovery: on,
        ..choices
    }
}

#[unsafe(no_mangle)]
pub extern "C" fn tamburelvi_set_announce_stream_termination(choices: Choices, on: bool) -> Choices
    ensures { settings_of result ≡ with_termination on (settings_of choices) }
{
    Choices {
        announce_stream_termination: on,
        ..choices
    }
}

#[unsafe(no_mangle)]
pub extern "C" fn tamburelvi_set_announce_timeout(choices: Choices, on: bool) -> Choices
    ensures { settings_of result ≡ with_timeout on (settings_of choices) }
{
    Choices {
        announce_timeout: on,
        ..choices
    }
}

// 0 for the choice by priority, any other number for the highest values.
#[unsafe(no_mangle)]
pub extern "C" fn tamburelvi_set_merge(choices: Choices, merge: u8) -> Choices
    ensures { settings_of result ≡ with_merge (merge_of merge) (settings_of choices) }
{
    Choices { merge, ..choices }
}

#[unsafe(no_mangle)]
pub extern "C" fn tamburelvi_clear_source_limit(choices: Choices) -> Choices
    ensures { settings_of result ≡ without_limit (settings_of choices) }
{
    Choices {
        source_limit: 0,
        ..choices
    }
}

// A limit of 0 gives 14 and changes nothing.
#[unsafe(no_mangle)]
pub extern "C" fn tamburelvi_set_source_limit(choices: Choices, limit: u16) -> Adjusted
    ensures set { let s = settings_of choices in
        (settings_of result.choices ≡ kept (limited limit s) s) × (result.number ≡ number_of (limited limit s)) }
    ensures left { result.number ≡ 14 → result.choices ≡ choices }
{
    with_source_limit(choices, limit)
}

// An expiry under 2,500 or over 60,000 gives 20 and changes nothing.
#[unsafe(no_mangle)]
pub extern "C" fn tamburelvi_set_discovery_expiry(choices: Choices, expiry: u32) -> Adjusted
    ensures set { let s = settings_of choices in
        (settings_of result.choices ≡ kept (expiring expiry s) s) × (result.number ≡ number_of (expiring expiry s)) }
    ensures left { result.number ≡ 20 → result.choices ≡ choices }
{
    with_discovery_expiry(choices, expiry)
}

// Writes the record of the settings over the front of the lent bytes. 15 with 14 for fewer than 14 bytes, then 20 for an expiry out of range; each writes nothing. 14 cannot come: a limit of 0 is none here.
#[unsafe(no_mangle)]
pub extern "C" fn tamburelvi_store_settings(choices: Choices, bytes: &mut [u8]) -> Answer
    ensures { StoresSettings choices bytes.old result bytes.new }
{
    stored(store_settings(settings_of(choices), bytes))
}

// Reads a record of layout 1 or 2. 22 and 23 leave the settings as they were.
#[unsafe(no_mangle)]
pub extern "C" fn tamburelvi_load_settings(choices: Choices, bytes: &[u8]) -> Adjusted
    ensures { LoadsSettings Both choices bytes.now result }
{
    loaded(choices, load_settings(Layouts::Both, bytes))
}

// The reader that knows layout 1 alone: 23 for every record of layout 2.
#[unsafe(no_mangle)]
pub extern "C" fn tamburelvi_load_settings_layout_1(choices: Choices, bytes: &[u8]) -> Adjusted
    ensures { LoadsSettings First choices bytes.now result }
{
    loaded(choices, load_settings(Layouts::First, bytes))
}
