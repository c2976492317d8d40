// A data packet whose sequence is stored: released at once, or held for its synchronisation.

#![tactic(auto)]

ghost use Rattle.std.specs.Prelude.{◌≤◌, length};
ghost use Rattle.waiting_store.specs.Entries.{Kept as WaitingKept};
ghost use Rattle.listening.specs.View.{Kept as ListeningKept};
ghost use Rattle.packets.specs.View.{packet_of};
ghost use Rattle.acceptance.specs.View.{lent_of, Releases, Holds, Accepts};
ghost use Rattle.waiting.specs.Records.{most_bytes};
ghost use Rattle.merge.specs.Merge.{most_values};

use answers::stored_answer;
use laws::After;
use listening::{Listened, ListenedUniverses};
use model::{ListenAnswer, StepAnswer};
use packets::{DataPacket, dmx_data};
use settings::Settings;
use waiting_calls::Waiting;
use waiting_store::{EntryRows, write_record};

// What an accepted packet leaves, two tables' headers, and what the step answers.
#[derive(Clone, Copy)]
pub struct Accepted {
    pub waiting: Waiting,
    pub listened: Listened,
    pub answer: StepAnswer,
}

// Address 0: this universe's waiting data goes, and the packet is released. Answers the bytes written.
fn release_packet(
    waiting: Waiting,
    rows: &mut EntryRows,
    store: &mut [u8],
    reading: u64,
    packet: DataPacket,
    values: &[u8],
    out: &mut [u8],
) -> After<Waiting, usize>
    requires { WaitingKept waiting.count rows.old store.old × (most_bytes ≤ length out.old) × (length values.now ≤ most_values) }
    ensures { Releases reading (packet_of packet values.now)
        waiting.count rows.old store.old out.old
        result.left.count rows.new store.new out.new result.answer }
{
    let c = waiting.clear_waiting_data(rows, store, packet.universe);
    After {
        left: c.left,
        answer: write_record(out, 0, dmx_data(packet, reading), values),
    }
}

// Another address: it is listened to, and the packet waits for its synchronisation.
fn hold_packet(
    waiting: Waiting,
    listened: Listened,
    rows: &mut EntryRows,
    store: &mut [u8],
    heard: &mut ListenedUniverses,
    settings: Settings,
    reading: u64,
    packet: DataPacket,
    values: &[u8],
) -> Accepted
    requires { WaitingKept waiting.count rows.old store.old × ListeningKept listened heard.old × (length values.now ≤ most_values) }
    ensures { Holds settings reading (packet_of packet values.now)
        (lent_of waiting.count listened rows.old store.old heard.old)
        (lent_of result.waiting.count result.listened rows.new store.new heard.new) result.answer }
{
    let l = listened.listen_universe(heard, packet.address);
    match l.answer {
        ListenAnswer::IllegalUniverse(universe) => Accepted {
            waiting,
            listened: l.left,
            answer: StepAnswer::IllegalUniverse(universe),
        },
        ListenAnswer::ListenedFull => Accepted {
            waiting,
            listened: l.left,
            answer: StepAnswer::ListenedFull,
        },
        ListenAnswer::Listening => {
            let s = waiting.store_waiting_data(
                rows,
                store,
                settings.merge,
                dmx_data(packet, reading),
                values,
            );
            Accepted {
                waiting: s.left,
                listened: l.left,
                answer: stored_answer(s.answer),
            }
        }
    }
}

// A data packet whose sequence is stored: released at once, or held.
pub fn accept_data(
    waiting: Waiting,
    listened: Listened,
    rows: &mut EntryRows,
    store: &mut [u8],
    heard: &mut ListenedUniverses,
    settings: Settings,
    reading: u64,
    packet: DataPacket,
    values: &[u8],
    out: &mut [u8],
) -> Accepted
    requires { WaitingKept waiting.count rows.old store.old × ListeningKept listened heard.old
        × (most_bytes ≤ length out.old) × (length values.now ≤ most_values) }
    ensures { Accepts settings reading (packet_of packet values.now)
        (lent_of waiting.count listened rows.old store.old heard.old) out.old
        (lent_of result.waiting.count result.listened rows.new store.new heard.new) out.new result.answer }
{
    if packet.address == 0 {
        let p = release_packet(waiting, rows, store, reading, packet, values, out);
        Accepted {
            waiting: p.left,
            listened,
            answer: StepAnswer::Released(1, p.answer),
        }
    } else {
        hold_packet(
            waiting, listened, rows, store, heard, settings, reading, packet, values,
        )
    }
}
