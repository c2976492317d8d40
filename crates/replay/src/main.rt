// Reads a replay script on standard input, carries each line out on a receiver and prints the answer.

#![tactic(auto)]

mod calls;
mod dump;
mod run;

use crate::calls::Session;
use crate::run::run;
use discovery::{NAME, PAGES, POOL};
use listening::LISTENED;
use pair_rows::PAIRS;
use receiver::Receiver;
use settings::Settings;
use waiting::{RELEASE_LENGTH, STORE_LENGTH, WAITING};

fn main(rt: HostRuntime) {
    let mut data_pairs = [[0u64; 4]; PAIRS];
    let mut data_sources = [[0u64; 2]; PAIRS];
    let mut sync_pairs = [[0u64; 4]; PAIRS];
    let mut sync_sources = [[0u64; 2]; PAIRS];
    let mut rows = [[0u64; 9]; WAITING];
    let mut store = [0u8; STORE_LENGTH];
    let mut heard = [0u16; LISTENED];
    let mut sources = [[0u64; 6]; PAGES];
    let mut names = [[0u8; NAME]; PAGES];
    let mut pages = [[0u64; 5]; PAGES];
    let mut universes = [0u16; POOL];
    let mut chunk = [0u8; 65536];
    let mut text = [0u8; 8193];
    let mut bytes = [0u8; 4096];
    let mut list = [0u16; 4096];
    let mut released = [0u8; RELEASE_LENGTH];
    let mut out = [0u8; 65536];
    let receiver = Receiver::new(&mut heard);
    let session = Session {
        receiver,
        settings: Settings::new(),
        at: 0,
    };
    run(
        session,
        &mut data_pairs,
        &mut data_sources,
        &mut sync_pairs,
        &mut sync_sources,
        &mut rows,
        &mut store,
        &mut heard,
        &mut sources,
        &mut names,
        &mut pages,
        &mut universes,
        rt.stdin(),
        &mut chunk,
        &mut text,
        &mut bytes,
        &mut list,
        &mut released,
        rt.stdout(),
        &mut out,
        rt.stderr(),
    );
}
