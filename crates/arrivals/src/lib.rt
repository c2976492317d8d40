// An arriving data packet and an arriving synchronisation packet, behind the poll: the pair table, then what an accepted packet does.

#![tactic(auto)]

ghost use Rattle.std.specs.Prelude.{◌≤◌, length};
ghost use Rattle.waiting_store.specs.Entries.{Kept as WaitingKept};
ghost use Rattle.listening.specs.View.{Kept as ListeningKept};
ghost use Rattle.pair_tables.specs.View.{Kept as TableKept};
ghost use Rattle.packets.specs.View.{packet_of, sync_of};
ghost use Rattle.acceptance.specs.View.{lent_of};
ghost use Rattle.arrivals.specs.View.{rows_of, Arrives, Synchronises, Shortens};
ghost use Rattle.waiting.specs.Records.{most_bytes};
ghost use Rattle.merge.specs.Merge.{most_values};

use acceptance::accept_data;
use answers::{release_answer, stop_answer};
use listening::{Listened, ListenedUniverses};
use model::StepAnswer;
use packets::{DataPacket, SyncPacket, dmx_data};
use pair_rows::{PairRows, SourceRows};
use pair_tables::{DataTable, SyncTable};
use pairs::is_accepted;
use settings::Settings;
use waiting_calls::Waiting;
use waiting_store::{EntryRows, write_record};

// The commonest packet: address 0, nothing waits, its pair is held and its number follows. Its record is written, and `note_reading` gives the table's header; answers the record's length. Otherwise all is left.
pub fn release_known(
    data: DataTable,
    waiting: Waiting,
    pairs: &mut PairRows,
    sources: &SourceRows,
    settings: Settings,
    reading: u64,
    packet: DataPacket,
    values: &[u8],
    out: &mut [u8],
) -> Option<usize>
    requires { TableKept «data».table pairs.old sources.now × (most_bytes ≤ length out.old) × (length values.now ≤ most_values) }
    ensures { Shortens settings reading (packet_of packet values.now) «data».table waiting.count
        pairs.old sources.now out.old pairs.new out.new result }
{
    if packet.address != 0 || waiting.count != 0 {
        return None;
    }
    if data.renew(
        pairs,
        sources,
        settings.announce_timeout,
        packet.cid,
        packet.universe,
        packet.sequence,
        reading,
    ) {
        Some(write_record(out, 0, dmx_data(packet, reading), values))
    } else {
        None
    }
}

// What an arriving data packet leaves, and what the step answers.
#[derive(Clone, Copy)]
pub struct DataArrived {
    pub data: DataTable,
    pub waiting: Waiting,
    pub listened: Listened,
    pub answer: StepAnswer,
}

// The same of a synchronisation packet.
#[derive(Clone, Copy)]
pub struct SyncArrived {
    pub sync: SyncTable,
    pub waiting: Waiting,
    pub answer: StepAnswer,
}

// A data packet for a listened universe: its sequence, then what an accepted packet does.
pub fn arrive_data(
    data: DataTable,
    waiting: Waiting,
    listened: Listened,
    pairs: &mut PairRows,
    sources: &mut SourceRows,
    rows: &mut EntryRows,
    store: &mut [u8],
    heard: &mut ListenedUniverses,
    settings: Settings,
    reading: u64,
    packet: DataPacket,
    values: &[u8],
    out: &mut [u8],
) -> DataArrived
    requires { TableKept «data».table pairs.old sources.old × WaitingKept waiting.count rows.old store.old
        × ListeningKept listened heard.old × (most_bytes ≤ length out.old) × (length values.now ≤ most_values) }
    ensures { Arrives settings reading (packet_of packet values.now)
        (rows_of «data».table pairs.old sources.old)
        (lent_of waiting.count listened rows.old store.old heard.old) out.old
        (rows_of result.«data».table pairs.new sources.new)
        (lent_of result.waiting.count result.listened rows.new store.new heard.new) out.new result.answer }
{
    let a = data.check_seq_number(
        pairs,
        sources,
        settings.source_limit,
        settings.announce_timeout,
        packet.cid,
        packet.universe,
        packet.sequence,
        reading,
    );
    if is_accepted(a.answer) {
        let r = accept_data(
            waiting, listened, rows, store, heard, settings, reading, packet, values, out,
        );
        DataArrived {
            data: a.left,
            waiting: r.waiting,
            listened: r.listened,
            answer: r.answer,
        }
    } else {
        DataArrived {
            data: a.left,
            waiting,
            listened,
            answer: stop_answer(a.answer),
        }
    }
}

// A synchronisation packet for a listened address: its sequence, then the release.
pub fn arrive_sync(
    sync: SyncTable,
    waiting: Waiting,
    pairs: &mut PairRows,
    sources: &mut SourceRows,
    rows: &mut EntryRows,
    store: &mut [u8],
    settings: Settings,
    reading: u64,
    packet: SyncPacket,
    out: &mut [u8],
) -> SyncArrived
    requires { TableKept sync.table pairs.old sources.old × WaitingKept waiting.count rows.old store.old
        × (most_bytes ≤ length out.old) }
    ensures { Synchronises settings reading (sync_of packet)
        (rows_of sync.table pairs.old sources.old)
        waiting.count rows.old store.old out.old
        (rows_of result.sync.table pairs.new sources.new)
        result.waiting.count rows.new store.new out.new result.answer }
{
    let s = sync.check_seq_number(
        pairs,
        sources,
        settings.source_limit,
        settings.announce_timeout,
        packet.cid,
        packet.address,
        packet.sequence,
        reading,
    );
    if is_accepted(s.answer) {
        let r = waiting.rtrv_waiting_data(rows, store, packet.address, reading, out);
        SyncArrived {
            sync: s.left,
            waiting: r.left,
            answer: release_answer(r.answer),
        }
    } else {
        SyncArrived {
            sync: s.left,
            waiting,
            answer: stop_answer(s.answer),
        }
    }
}
