// Document 01, 'The receiver', 3 to 5 of a step: what each kind of packet does behind the opening. Crate handlers calls them in the order of a step.

#![tactic(auto)]

ghost use Rattle.std.specs.Prelude.{List, ℕ, ◌≤◌, length};
ghost use Rattle.waiting_store.specs.Entries as waiting;
ghost use Rattle.listening.specs.View as listening;
ghost use Rattle.sequences.specs.View as sequences;
ghost use Rattle.discovery_calls.specs.View as discovery;
ghost use Rattle.pair_tables.specs.View as pairs;
ghost use Rattle.model.specs.Packet.{data_packet, sync_packet, discovery_packet};
ghost use Rattle.packets.specs.View.{packet_of, sync_of, announcement_of};
ghost use Rattle.laws.specs.Lent.{untouched};
ghost use Rattle.receiver.specs.View.{Memory, Kept};
ghost use Rattle.sequences.specs.Promises.{sequence_rows_in};
ghost use Rattle.receiver.specs.Promises.{data_packet_lent, sequences_lent, data_lent, sync_lent, waiting_lent, listened_lent_shared, discovery_lent, discovery_lent_sources_shared};
ghost use Rattle.waiting.specs.Records.{most_bytes};
ghost use Rattle.merge.specs.Merge.{most_values};
ghost use Rattle.discovery.specs.Discovery.{most_name, most_universes};
ghost use Rattle.steps.specs.View.{Ends, Takes, TakesShort};

use answers::called_answer;
use arrivals::{arrive_data, arrive_sync, release_known};
use discovery_calls::Page;
use discovery_rows::{HeadRows, NameRows, PageRows};
use laws::After;
use listening::ListenedUniverses;
use model::StepAnswer;
use packets::{Course, DataPacket, DiscoveryPacket, SyncPacket, course_of, is_unwanted};
use pair_rows::{PairRows, SourceRows};
use receiver::Receiver;
use rules::Cid;
use sequences::SequenceNumbering;
use settings::Settings;
use waiting_store::EntryRows;

// What a step leaves and answers.
pub type Handled = After<Receiver, StepAnswer>;

// 3, the short way: no preview, no termination, a listened universe, and what `release_known` asks for. Answers the record's length; otherwise all is left.
pub fn take_short(
    receiver: Receiver,
    data_pairs: &mut PairRows,
    data_sources: &SourceRows,
    heard: &ListenedUniverses,
    settings: Settings,
    reading: u64,
    packet: DataPacket,
    values: &[u8],
    out: &mut [u8],
) -> Option<usize>
    requires { pairs.Kept receiver.sequences.«data».table data_pairs.old data_sources.now
        × listening.Kept receiver.listened heard.now × (most_bytes ≤ length out.old) × (length values.now ≤ most_values) }
    ensures { (rest : Memory) →
        let m = data_lent data_pairs data_sources (listened_lent_shared heard (untouched rest)) in
        TakesShort settings reading (packet_of packet values.now)
        receiver m.entry out.old m.exit out.new result }
{
    if packet.preview
        || packet.terminated
        || !receiver.listened.is_listening(heard, packet.universe)
    {
        return None;
    }
    release_known(
        receiver.sequences.data,
        receiver.waiting,
        data_pairs,
        data_sources,
        settings,
        reading,
        packet,
        values,
        out,
    )
}

// 4: a synchronisation packet.
pub fn take_sync(
    receiver: Receiver,
    sync_pairs: &mut PairRows,
    sync_sources: &mut SourceRows,
    rows: &mut EntryRows,
    store: &mut [u8],
    heard: &ListenedUniverses,
    settings: Settings,
    reading: u64,
    packet: SyncPacket,
    out: &mut [u8],
) -> Handled
    requires sync { pairs.Kept receiver.sequences.sync.table sync_pairs.old sync_sources.old }
    requires waiting { waiting.Kept receiver.waiting.count rows.old store.old }
    requires listened { listening.Kept receiver.listened heard.now }
    requires room { most_bytes ≤ length out.old }
    ensures { (rest : Memory) →
        let m = sync_lent sync_pairs sync_sources (waiting_lent rows store (listened_lent_shared heard (untouched rest))) in
        Takes settings reading (sync_packet (sync_of packet))
        receiver m.entry out.old result.left m.exit out.new result.answer }
{
    if !receiver.listened.is_listening(heard, packet.address) {
        return After {
            left: receiver,
            answer: StepAnswer::Nothing,
        };
    }
    let a = arrive_sync(
        receiver.sequences.sync,
        receiver.waiting,
        sync_pairs,
        sync_sources,
        rows,
        store,
        settings,
        reading,
        packet,
        out,
    );
    After {
        left: Receiver {
            sequences: SequenceNumbering {
                sync: a.sync,
                ..receiver.sequences
            },
            waiting: a.waiting,
            ..receiver
        },
        answer: a.answer,
    }
}

// 5: a discovery packet.
pub fn take_discovery(
    receiver: Receiver,
    sources: &mut HeadRows,
    names: &mut NameRows,
    pages: &mut PageRows,
    universes: &mut [u16],
    settings: Settings,
    reading: u64,
    packet: DiscoveryPacket,
    name: &[u8],
    list: &[u16],
) -> Handled
    requires discovery { discovery.Kept receiver.discovery sources.old names.old pages.old universes.old }
    requires name { length name.now ≤ most_name }
    requires list { length list.now ≤ most_universes }
    ensures { (rest : Memory) (out : List ℕ) →
        let m = discovery_lent sources names pages universes (untouched rest) in
        Takes settings reading (discovery_packet (announcement_of packet name.now list.now))
        receiver m.entry out result.left m.exit out result.answer }
{
    let page = Page {
        cid: packet.cid,
        page: packet.page,
        last_page: packet.last_page,
        name,
        list,
    };
    let a = receiver
        .discovery
        .page_arrives(sources, names, pages, universes, reading, page);
    After {
        left: Receiver {
            discovery: a.left,
            ..receiver
        },
        answer: called_answer(a.answer, settings),
    }
}

// A stream that ends: its pairs go, and its universe from the listed source's pages.
fn end_stream(
    receiver: Receiver,
    data_pairs: &mut PairRows,
    data_sources: &mut SourceRows,
    sync_pairs: &mut PairRows,
    sync_sources: &mut SourceRows,
    sources: &HeadRows,
    names: &NameRows,
    pages: &mut PageRows,
    universes: &mut [u16],
    cid: Cid,
    universe: u16,
) -> Receiver
    requires sequences { sequences.Kept receiver.sequences (sequence_rows_in data_pairs data_sources sync_pairs sync_sources) }
    requires discovery { discovery.Kept receiver.discovery sources.now names.now pages.old universes.old }
    ensures { (rest : Memory) →
        let m = sequences_lent data_pairs data_sources sync_pairs sync_sources (discovery_lent_sources_shared sources names pages universes (untouched rest)) in
        Ends cid universe receiver m.entry result m.exit }
{
    let sequences = receiver.sequences.remove_seq_numbers(
        data_pairs,
        data_sources,
        sync_pairs,
        sync_sources,
        cid,
        universe,
    );
    let discovery = receiver
        .discovery
        .terminate_universe(sources, names, pages, universes, cid, universe);
    Receiver {
        sequences,
        discovery,
        ..receiver
    }
}

// 3: a data packet.
pub fn take_data(
    receiver: Receiver,
    data_pairs: &mut PairRows,
    data_sources: &mut SourceRows,
    sync_pairs: &mut PairRows,
    sync_sources: &mut SourceRows,
    rows: &mut EntryRows,
    store: &mut [u8],
    heard: &mut ListenedUniverses,
    sources: &HeadRows,
    names: &NameRows,
    pages: &mut PageRows,
    universes: &mut [u16],
    settings: Settings,
    reading: u64,
    packet: DataPacket,
    values: &[u8],
    out: &mut [u8],
) -> Handled
    requires { sequences.Kept receiver.sequences (sequence_rows_in data_pairs data_sources sync_pairs sync_sources)
        × waiting.Kept receiver.waiting.count rows.old store.old
        × listening.Kept receiver.listened heard.old
        × discovery.Kept receiver.discovery sources.now names.now pages.old universes.old
        × (most_bytes ≤ length out.old) × (length values.now ≤ most_values) }
    ensures { let m = data_packet_lent data_pairs data_sources sync_pairs sync_sources rows store heard sources names pages universes in
        Takes settings reading (data_packet (packet_of packet values.now))
        receiver m.entry out.old result.left m.exit out.new result.answer }
{
    if is_unwanted(packet.preview, settings) {
        return After {
            left: receiver,
            answer: StepAnswer::Nothing,
        };
    }
    let listening = receiver.listened.is_listening(heard, packet.universe);
    match course_of(packet.terminated, listening) {
        Course::End => {
            let next = end_stream(
                receiver,
                data_pairs,
                data_sources,
                sync_pairs,
                sync_sources,
                sources,
                names,
                pages,
                universes,
                packet.cid,
                packet.universe,
            );
            if settings.announce_stream_termination {
                After {
                    left: next,
                    answer: StepAnswer::UniverseTerminated(packet.cid, packet.universe),
                }
            } else {
                After {
                    left: next,
                    answer: StepAnswer::Nothing,
                }
            }
        }
        Course::Arrive => {
            let a = arrive_data(
                receiver.sequences.data,
                receiver.waiting,
                receiver.listened,
                data_pairs,
                data_sources,
                rows,
                store,
                heard,
                settings,
                reading,
                packet,
                values,
                out,
            );
            After {
                left: Receiver {
                    sequences: SequenceNumbering {
                        data: a.data,
                        ..receiver.sequences
                    },
                    waiting: a.waiting,
                    listened: a.listened,
                    ..receiver
                },
                answer: a.answer,
            }
        }
        Course::Pass => After {
            left: receiver,
            answer: StepAnswer::Nothing,
        },
    }
}
