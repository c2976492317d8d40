// The memory that a receiver is lent, all at its full length.
use discovery::{NAME, PAGES, POOL};
use discovery_rows::{HeadRows, NameRows, PageRows};
use listening::{LISTENED, ListenedUniverses};
use pair_rows::{PAIRS, PairRows, SourceRows};
use waiting::{STORE_LENGTH, WAITING};
use waiting_store::EntryRows;

#[derive(Drop)]
pub struct Memory {
    pub data_pairs: PairRows,
    pub data_sources: SourceRows,
    pub sync_pairs: PairRows,
    pub sync_sources: SourceRows,
    pub rows: EntryRows,
    pub store: [u8; STORE_LENGTH],
    pub heard: ListenedUniverses,
    pub sources: HeadRows,
    pub names: NameRows,
    pub pages: PageRows,
    pub universes: [u16; POOL],
}

impl Memory {
    pub fn new() -> Memory {
        Memory {
            data_pairs: [[0; 4]; PAIRS],
            data_sources: [[0; 2]; PAIRS],
            sync_pairs: [[0; 4]; PAIRS],
            sync_sources: [[0; 2]; PAIRS],
            rows: [[0; 9]; WAITING],
            store: [0; STORE_LENGTH],
            heard: [0; LISTENED],
            sources: [[0; 6]; PAGES],
            names: [[0; NAME]; PAGES],
            pages: [[0; 5]; PAGES],
            universes: [0; POOL],
        }
    }
}
