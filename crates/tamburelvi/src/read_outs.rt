// Read-outs: the tables by place, for a program that shows or compares them.
ghost use Rattle.std.specs.Prelude.{◌≡◌, List, [], ℕ, ◌≤◌, ◌<◌, length, take, drop, get_or};
ghost use Rattle.pair_rows.specs.View.{cid_of, pair_of, pairs_of, listed_sources_of};
ghost use Rattle.waiting_store.specs.Entries.{waiting_of, nothing};
ghost use Rattle.discovery_reads.specs.Reads.{page_of_row, SourceAt, PageAt, HeadRead};
ghost use Rattle.listening.specs.View.{listened_of};
ghost use Rattle.boundary.specs.Boundary.{receiver_of};
ghost use Rattle.reads.specs.Reads.{pair_read, cid_read, dmx_read, head_read, page_read, no_source, no_page, longest};

use boundary::Header;
use discovery_rows::{HeadRows, PageRows};
use listening::ListenedUniverses;
use pair_rows::{PairRows, SourceRows};
use reads::{
    CidRead, DmxRead, PageRead, PairRead, PartRead, SourceRead, cid_at, listened_at, page_at,
    pair_at, source_at, waiting_at, waiting_values_at,
};
use waiting_store::EntryRows;

// A pair of the data table, by its place from 0.
#[unsafe(no_mangle)]
pub extern "C" fn tamburelvi_data_pair(header: Header, data_pairs: &PairRows, at: usize) -> PairRead
    ensures { pair_read result
        ≡ get_or (pairs_of (receiver_of header).sequences.«data».table.count data_pairs.now) at (pair_of []) }
{
    pair_at(data_pairs, header.data_pairs, at)
}

// A pair of the synchronisation table; its universe is the address.
#[unsafe(no_mangle)]
pub extern "C" fn tamburelvi_sync_pair(header: Header, sync_pairs: &PairRows, at: usize) -> PairRead
    ensures { pair_read result ≡ get_or (pairs_of (receiver_of header).sequences.sync.table.count sync_pairs.now) at (pair_of []) }
{
    pair_at(sync_pairs, header.sync_pairs, at)
}

// A source that the data table counts.
#[unsafe(no_mangle)]
pub extern "C" fn tamburelvi_data_source(
    header: Header,
    data_sources: &SourceRows,
    at: usize,
) -> CidRead
    ensures { cid_read result
        ≡ get_or (listed_sources_of (receiver_of header).sequences.«data».table.source_count data_sources.now) at (cid_of []) }
{
    cid_at(data_sources, header.data_sources, at)
}

// A source that the synchronisation table counts.
#[unsafe(no_mangle)]
pub extern "C" fn tamburelvi_sync_source(
    header: Header,
    sync_sources: &SourceRows,
    at: usize,
) -> CidRead
    ensures { cid_read result
        ≡ get_or (listed_sources_of (receiver_of header).sequences.sync.table.source_count sync_sources.now) at (cid_of []) }
{
    cid_at(sync_sources, header.sync_sources, at)
}

// A listened universe, ascending.
#[unsafe(no_mangle)]
pub extern "C" fn tamburelvi_listened(header: Header, heard: &ListenedUniverses, at: usize) -> u16
    ensures { result ≡ get_or (listened_of (receiver_of header).listened heard.now) at 0 }
{
    listened_at(header, heard, at)
}

// What waits for a universe, ascending, but for its values.
#[unsafe(no_mangle)]
pub extern "C" fn tamburelvi_waiting(header: Header, rows: &EntryRows, at: usize) -> DmxRead
    ensures { (store : List ℕ) →
        dmx_read result ≡ (get_or (waiting_of (receiver_of header).waiting.count rows.now store) at nothing).head }
{
    waiting_at(header, rows, at)
}

// Where its values lie in the store.
#[unsafe(no_mangle)]
pub extern "C" fn tamburelvi_waiting_values(header: Header, rows: &EntryRows, at: usize) -> PartRead
    ensures { (store : List ℕ) →
        take result.count (drop result.start store)
        ≡ (get_or (waiting_of (receiver_of header).waiting.count rows.now store) at nothing).values }
{
    waiting_values_at(header, rows, at)
}

// The source of this mark (0 partial, 1 listed), by its place in its list; where there are not so many, the place is the number of sources, and the rest is zeros.
#[unsafe(no_mangle)]
pub extern "C" fn tamburelvi_source_at(
    header: Header,
    sources: &HeadRows,
    mark: u64,
    at: usize,
) -> SourceRead
    ensures placed { (names pages : List (List ℕ)) (universes : List ℕ) →
        SourceAt mark at result.place (receiver_of header).discovery sources.now names pages universes }
    ensures told { result.place < (receiver_of header).discovery.source_count →
        HeadRead (get_or sources.now result.place []) (head_read result) }
    ensures past { (receiver_of header).discovery.source_count ≤ result.place → result ≡ no_source result.place }
{
    source_at(header, sources, mark, at)
}

// The page of this source, by its place among the source's pages; where there are not so many, the place is the number of pages, and the rest is zeros.
#[unsafe(no_mangle)]
pub extern "C" fn tamburelvi_page_at(
    header: Header,
    pages: &PageRows,
    mark: u64,
    hi: u64,
    lo: u64,
    at: usize,
) -> PageRead
    ensures placed { (universes : List ℕ) →
        PageAt mark (record { hi = hi; lo = lo }) at result.place (receiver_of header).discovery pages.now universes }
    ensures told { result.place < (receiver_of header).discovery.page_count → (universes : List ℕ) → length universes ≤ longest →
        page_of_row pages.now universes result.place ≡ page_read result universes }
    ensures past { (receiver_of header).discovery.page_count ≤ result.place → result ≡ no_page result.place }
{
    page_at(header, pages, mark, hi, lo, at)
}
