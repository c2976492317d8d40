// Document 01, 'The receiver': a step on each kind of packet. The opening ends it, or lets the packet be taken; the commonest data packet has a short way.

#![tactic(auto)]

ghost use Rattle.model.specs.Packet.{data_packet, sync_packet, discovery_packet};
ghost use Rattle.packets.specs.View.{packet_of, sync_of};
ghost use Rattle.laws.specs.Lent.{untouched};
ghost use Rattle.pair_rows.specs.View.{Rows};
ghost use Rattle.pair_tables.specs.View as pairs;
ghost use Rattle.listening.specs.View as listening;
ghost use Rattle.receiver.specs.View.{Memory, with_waiting_rows, with_discovery_rows, Kept};
ghost use Rattle.receiver.specs.Promises.{data_packet_lent_in, data_packet_lent, sync_packet_lent_in, sync_packet_lent, discovery_packet_lent_in, discovery_packet_lent, data_lent, listened_lent_shared};
ghost use Rattle.packets.specs.View.{announcement_of};
ghost use Rattle.handlers.specs.View.{Steps, StepsShort};

use discovery_rows::{HeadRows, NameRows, PageRows};
use laws::After;
use lengths::{test_announcement, test_values};
use listening::ListenedUniverses;
use model::StepAnswer;
use opening::{is_ready, open};
use packets::{DataPacket, DiscoveryPacket, SyncPacket};
use pair_rows::{PairRows, SourceRows};
use receiver::Receiver;
use settings::Settings;
use steps::{Handled, take_data, take_discovery, take_short, take_sync};
use waiting_store::EntryRows;

// A step on a data packet, in full: the opening, then the packet.
fn step_data(
    receiver: Receiver,
    data_pairs: &mut PairRows,
    data_sources: &mut SourceRows,
    sync_pairs: &mut PairRows,
    sync_sources: &mut SourceRows,
    rows: &mut EntryRows,
    store: &mut [u8],
    heard: &mut ListenedUniverses,
    sources: &HeadRows,
    names: &NameRows,
    pages: &mut PageRows,
    universes: &mut [u16],
    settings: Settings,
    reading: u64,
    packet: DataPacket,
    values: &[u8],
    out: &mut [u8],
) -> Handled
    requires { Kept receiver
        (data_packet_lent_in data_pairs data_sources sync_pairs sync_sources rows store heard sources names pages universes) }
    ensures { let m = data_packet_lent data_pairs data_sources sync_pairs sync_sources rows store heard sources names pages universes in
        Steps settings reading (data_packet (packet_of packet values.now))
        receiver m.entry out.old result.left m.exit out.new result.answer }
{
    let opened = open(
        receiver,
        data_pairs,
        data_sources,
        sync_pairs,
        sync_sources,
        rows,
        store,
        universes,
        settings,
        reading,
        test_values(values),
        out,
    );
    match opened.answer {
        None => take_data(
            opened.left,
            data_pairs,
            data_sources,
            sync_pairs,
            sync_sources,
            rows,
            store,
            heard,
            sources,
            names,
            pages,
            universes,
            settings,
            reading,
            packet,
            values,
            out,
        ),
        Some(answer) => After {
            left: opened.left,
            answer,
        },
    }
}

// The short way of a step on a data packet, where the opening has nothing to do. Answers the record's length; otherwise all is left.
fn step_short(
    receiver: Receiver,
    data_pairs: &mut PairRows,
    data_sources: &SourceRows,
    store: &[u8],
    heard: &ListenedUniverses,
    universes: &[u16],
    settings: Settings,
    reading: u64,
    packet: DataPacket,
    values: &[u8],
    out: &mut [u8],
) -> Option<usize>
    requires { pairs.Kept receiver.sequences.«data».table data_pairs.old data_sources.now × listening.Kept receiver.listened heard.now }
    ensures { (rest : Memory) (rows sources names pages : Rows) →
        let m = data_lent data_pairs data_sources (listened_lent_shared heard
        (untouched (with_waiting_rows rows store.now (with_discovery_rows sources names pages universes.now rest)))) in
        StepsShort settings reading (packet_of packet values.now)
        receiver m.entry out.old m.exit out.new result }
{
    if packet.address != 0
        || !is_ready(
            receiver,
            store,
            universes,
            settings,
            reading,
            test_values(values),
            out,
        )
    {
        return None;
    }
    take_short(
        receiver,
        data_pairs,
        data_sources,
        heard,
        settings,
        reading,
        packet,
        values,
        out,
    )
}

// A step on a data packet.
pub fn handle_data_packet(
    receiver: Receiver,
    data_pairs: &mut PairRows,
    data_sources: &mut SourceRows,
    sync_pairs: &mut PairRows,
    sync_sources: &mut SourceRows,
    rows: &mut EntryRows,
    store: &mut [u8],
    heard: &mut ListenedUniverses,
    sources: &HeadRows,
    names: &NameRows,
    pages: &mut PageRows,
    universes: &mut [u16],
    settings: Settings,
    reading: u64,
    packet: DataPacket,
    values: &[u8],
    out: &mut [u8],
) -> Handled
    requires { Kept receiver
        (data_packet_lent_in data_pairs data_sources sync_pairs sync_sources rows store heard sources names pages universes) }
    ensures { let m = data_packet_lent data_pairs data_sources sync_pairs sync_sources rows store heard sources names pages universes in
        Steps settings reading (data_packet (packet_of packet values.now))
        receiver m.entry out.old result.left m.exit out.new result.answer }
{
    match step_short(
        receiver,
        data_pairs,
        data_sources,
        store,
        heard,
        universes,
        settings,
        reading,
        packet,
        values,
        out,
    ) {
        Some(bytes) => After {
            left: receiver.note_reading(reading),
            answer: StepAnswer::Released(1, bytes),
        },
        None => step_data(
            receiver,
            data_pairs,
            data_sources,
            sync_pairs,
            sync_sources,
            rows,
            store,
            heard,
            sources,
            names,
            pages,
            universes,
            settings,
            reading,
            packet,
            values,
            out,
        ),
    }
}

// A step on a synchronisation packet.
pub fn handle_sync_packet(
    receiver: Receiver,
    data_pairs: &mut PairRows,
    data_sources: &mut SourceRows,
    sync_pairs: &mut PairRows,
    sync_sources: &mut SourceRows,
    rows: &mut EntryRows,
    store: &mut [u8],
    heard: &ListenedUniverses,
    sources: &HeadRows,
    names: &NameRows,
    pages: &PageRows,
    universes: &[u16],
    settings: Settings,
    reading: u64,
    packet: SyncPacket,
    out: &mut [u8],
) -> Handled
    requires { Kept receiver
        (sync_packet_lent_in data_pairs data_sources sync_pairs sync_sources rows store heard sources names pages universes) }
    ensures { let m = sync_packet_lent data_pairs data_sources sync_pairs sync_sources rows store heard sources names pages universes in
        Steps settings reading (sync_packet (sync_of packet))
        receiver m.entry out.old result.left m.exit out.new result.answer }
{
    let opened = open(
        receiver,
        data_pairs,
        data_sources,
        sync_pairs,
        sync_sources,
        rows,
        store,
        universes,
        settings,
        reading,
        Ok(()),
        out,
    );
    match opened.answer {
        None => take_sync(
            opened.left,
            sync_pairs,
            sync_sources,
            rows,
            store,
            heard,
            settings,
            reading,
            packet,
            out,
        ),
        Some(answer) => After {
            left: opened.left,
            answer,
        },
    }
}

// A step on a discovery packet.
pub fn handle_universe_discovery_packet(
    receiver: Receiver,
    data_pairs: &mut PairRows,
    data_sources: &mut SourceRows,
    sync_pairs: &mut PairRows,
    sync_sources: &mut SourceRows,
    rows: &mut EntryRows,
    store: &mut [u8],
    heard: &ListenedUniverses,
    sources: &mut HeadRows,
    names: &mut NameRows,
    pages: &mut PageRows,
    universes: &mut [u16],
    settings: Settings,
    reading: u64,
    packet: DiscoveryPacket,
    name: &[u8],
    list: &[u16],
    out: &[u8],
) -> Handled
    requires { Kept receiver
        (discovery_packet_lent_in data_pairs data_sources sync_pairs sync_sources rows store heard sources names pages universes) }
    ensures { let m = discovery_packet_lent data_pairs data_sources sync_pairs sync_sources rows store heard sources names pages universes in
        Steps settings reading (discovery_packet (announcement_of packet name.now list.now))
        receiver m.entry out.now result.left m.exit out.now result.answer }
{
    let opened = open(
        receiver,
        data_pairs,
        data_sources,
        sync_pairs,
        sync_sources,
        rows,
        store,
        universes,
        settings,
        reading,
        test_announcement(name, list),
        out,
    );
    match opened.answer {
        None => take_discovery(
            opened.left,
            sources,
            names,
            pages,
            universes,
            settings,
            reading,
            packet,
            name,
            list,
        ),
        Some(answer) => After {
            left: opened.left,
            answer,
        },
    }
}
