// A receiver with memory of its own, and its calls with made-up packets.
ghost use Rattle.receiver.specs.View.{Kept};
ghost use Rattle.trials.specs.View.{memory_in};

use crate::memory::Memory;
use handlers::{handle_data_packet, handle_universe_discovery_packet};
use laws::After;
use model::{ListenAnswer, StepAnswer};
use packets::{DataPacket, DiscoveryPacket};
use receiver::Receiver;
use rules::{Cid, DataSequence};
use settings::Settings;
use std::marker::Model;
use waiting::RELEASE_LENGTH;

#[derive(Drop)]
pub struct Rig {
    receiver: Receiver,
    memory: Memory,
    pub out: [u8; RELEASE_LENGTH],
}

// Of each rig it is known that any call may follow.
impl Model for Rig {
    ghost Value = { Unit {0} };

    ghost view = { λ r. tt };

    ghost invariant = { λ r. Kept r.receiver (memory_in r.memory) };
}

// A data packet of a source on a universe; both halves of the CID are the source's number.
pub fn data_packet(source: u64, universe: u16, address: u16) -> DataPacket {
    DataPacket {
        cid: cid(source),
        universe,
        address,
        priority: 100,
        sequence: DataSequence(0),
        preview: false,
        terminated: false,
        force_synchronization: false,
    }
}

fn cid(source: u64) -> Cid {
    Cid {
        hi: source,
        lo: source,
    }
}

impl Rig {
    pub fn new() -> Rig {
        let mut memory = Memory::new();
        let receiver = Receiver::new(&mut memory.heard);
        Rig {
            receiver,
            memory,
            out: [0; RELEASE_LENGTH],
        }
    }

    pub fn listen(&mut self, universes: &[u16]) -> ListenAnswer {
        let After { left, answer } = self
            .receiver
            .listen_universes(&mut self.memory.heard, universes);
        self.receiver = left;
        answer
    }

    pub fn reset_pairs(&mut self) {
        self.receiver = self.receiver.reset_pairs();
    }

    pub fn reset_discovery(&mut self) {
        self.receiver = self.receiver.reset_discovery();
    }

    // A data packet with two values.
    pub fn send_data(
        &mut self,
        settings: Settings,
        reading: u64,
        source: u64,
        universe: u16,
        address: u16,
    ) -> StepAnswer {
        let After { left, answer } = handle_data_packet(
            self.receiver,
            &mut self.memory.data_pairs,
            &mut self.memory.data_sources,
            &mut self.memory.sync_pairs,
            &mut self.memory.sync_sources,
            &mut self.memory.rows,
            &mut self.memory.store,
            &mut self.memory.heard,
            &self.memory.sources,
            &self.memory.names,
            &mut self.memory.pages,
            &mut self.memory.universes,
            settings,
            reading,
            data_packet(source, universe, address),
            &[0, 255],
            &mut self.out,
        );
        self.receiver = left;
        answer
    }

    // A page of a source.
    pub fn send_page(
        &mut self,
        settings: Settings,
        source: u64,
        page: u8,
        last_page: u8,
        name: &[u8],
        list: &[u16],
    ) -> StepAnswer {
        let packet = DiscoveryPacket {
            cid: cid(source),
            page,
            last_page,
        };
        let After { left, answer } = handle_universe_discovery_packet(
            self.receiver,
            &mut self.memory.data_pairs,
            &mut self.memory.data_sources,
            &mut self.memory.sync_pairs,
            &mut self.memory.sync_sources,
            &mut self.memory.rows,
            &mut self.memory.store,
            &self.memory.heard,
            &mut self.memory.sources,
            &mut self.memory.names,
            &mut self.memory.pages,
            &mut self.memory.universes,
            settings,
            0,
            packet,
            name,
            list,
            &self.out,
        );
        self.receiver = left;
        answer
    }
}
