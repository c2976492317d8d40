// E1.31 6: the packets that a step takes, as the caller hands them over, and what is done with a data packet. Values, name and universes stand beside a packet as lent parts.

#![tactic(auto)]

ghost use Rattle.std.specs.Prelude.{◌≡◌, not, ◌&&◌};
ghost use Rattle.packets.specs.View.{data_of, course_of};

use merge::{DmxData, SourceCid};
use rules::{Cid, DataSequence, SyncSequence};
use settings::Settings;

// A data packet but for its values.
#[derive(Clone, Copy)]
pub struct DataPacket {
    pub cid: Cid,
    pub universe: u16,
    pub address: u16,
    pub priority: u8,
    pub sequence: DataSequence,
    pub preview: bool,
    pub terminated: bool,
    pub force_synchronization: bool,
}

#[derive(Clone, Copy)]
pub struct SyncPacket {
    pub cid: Cid,
    pub address: u16,
    pub sequence: SyncSequence,
}

// A discovery packet but for its name and its universes.
#[derive(Clone, Copy)]
pub struct DiscoveryPacket {
    pub cid: Cid,
    pub page: u8,
    pub last_page: u8,
}

// The packet's fields as data received at this reading.
pub fn dmx_data(packet: DataPacket, reading: u64) -> DmxData
    ensures { result ≡ data_of packet reading }
{
    DmxData {
        universe: packet.universe,
        sync_uni: packet.address,
        priority: packet.priority,
        src_cid: SourceCid::Of(packet.cid),
        preview: packet.preview,
        recv_timestamp: reading,
    }
}

// Preview data that is not wanted.
pub fn is_unwanted(preview: bool, settings: Settings) -> bool
    ensures { result ≡ preview && not settings.process_preview_data }
{
    preview && !settings.process_preview_data
}

// What is done with a data packet that is wanted.
#[derive(Clone, Copy)]
pub enum Course {
    End,
    Arrive,
    Pass,
}

// A termination is carried out before all else; the sequence is looked at only where the universe is listened to.
pub fn course_of(terminated: bool, listening: bool) -> Course
    ensures { result ≡ course_of terminated listening }
{
    match (terminated, listening) {
        (true, _) => Course::End,
        (false, true) => Course::Arrive,
        (false, false) => Course::Pass,
    }
}
