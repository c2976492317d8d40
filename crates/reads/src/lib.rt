// Read-outs of the receiver's tables by place, as structs of numbers. The C interface has no Option: past the last there are zeros, and a
// flag says whether there is a CID.

#![tactic(auto)]

ghost use Rattle.std.specs.Prelude.{◌≡◌, List, [], ℕ, ◌≤◌, ◌<◌, length, take, drop, get_or};
ghost use Rattle.pair_rows.specs.View.{cid_of, pair_of, pairs_of, listed_sources_of};
ghost use Rattle.waiting_store.specs.Entries.{waiting_of, nothing};
ghost use Rattle.discovery_reads.specs.Reads.{page_of_row, SourceAt, PageAt, HeadRead};
ghost use Rattle.listening.specs.View.{listened_of};
ghost use Rattle.boundary.specs.Boundary.{receiver_of};
ghost use Rattle.reads.specs.Reads.{pair_read, cid_read, dmx_read, head_read, page_read, no_source, no_page, longest};

use boundary::{Header, receiver_of};
use discovery_reads::{page_head, page_start, place_of_page, source_head, source_place};
use discovery_rows::{HeadRows, PageRows};
use listening::ListenedUniverses;
use merge::{DmxData, SourceCid, VALUES};
use pair_rows::{PairRow, PairRows, SourceRow, SourceRows, cid_of, pair_of};
use rules::Cid;
use waiting::WAITING;
use waiting_calls::Waiting;
use waiting_store::{EntryRows, count_of};

// A pair with its sequence number and its reading.
#[repr(C)]
#[derive(Clone, Copy)]
pub struct PairRead {
    pub hi: u64,
    pub lo: u64,
    pub reading: u64,
    pub universe: u16,
    pub sequence: u8,
}

#[repr(C)]
#[derive(Clone, Copy)]
pub struct CidRead {
    pub hi: u64,
    pub lo: u64,
}

// Waiting data but for its values; has_cid is false where data of several sources was merged.
#[repr(C)]
#[derive(Clone, Copy)]
pub struct DmxRead {
    pub hi: u64,
    pub lo: u64,
    pub reading: u64,
    pub universe: u16,
    pub address: u16,
    pub priority: u8,
    pub preview: bool,
    pub has_cid: bool,
}

// A part of a lent memory: from start, count entries.
#[repr(C)]
#[derive(Clone, Copy)]
pub struct PartRead {
    pub start: usize,
    pub count: usize,
}

// A discovered source; its name is the first name_length bytes of the names' row at this place.
#[repr(C)]
#[derive(Clone, Copy)]
pub struct SourceRead {
    pub hi: u64,
    pub lo: u64,
    pub reading: u64,
    pub last_page: u64,
    pub name_length: u64,
    pub place: usize,
}

// A page: its universes are count entries of the pool, from start.
#[repr(C)]
#[derive(Clone, Copy)]
pub struct PageRead {
    pub number: u64,
    pub count: u64,
    pub start: usize,
    pub place: usize,
}

// The entry at this place of the first count, as far as there are so many; past the last, the one that stands for none.
fn entry_at<T: Copy>(rows: &[T], count: usize, at: usize, none: T) -> T
    ensures { result ≡ get_or (take count rows.now) at none }
{
    if at < count.min(rows.len()) {
        rows[at]
    } else {
        none
    }
}

fn read_pair(row: PairRow) -> PairRead
    ensures { pair_read result ≡ pair_of row }
{
    let pair = pair_of(row);
    PairRead {
        hi: pair.cid.hi,
        lo: pair.cid.lo,
        reading: pair.reading,
        universe: pair.universe,
        sequence: pair.sequence,
    }
}

pub fn pair_at(pairs: &PairRows, count: usize, at: usize) -> PairRead
    ensures { pair_read result ≡ get_or (pairs_of count pairs.now) at (pair_of []) }
{
    read_pair(entry_at(pairs, count, at, [0; 4]))
}

fn read_cid(row: SourceRow) -> CidRead
    ensures { cid_read result ≡ cid_of row }
{
    let cid = cid_of(row);
    CidRead {
        hi: cid.hi,
        lo: cid.lo,
    }
}

pub fn cid_at(sources: &SourceRows, count: usize, at: usize) -> CidRead
    ensures { cid_read result ≡ get_or (listed_sources_of count sources.now) at (cid_of []) }
{
    read_cid(entry_at(sources, count, at, [0; 2]))
}

// A listened universe, ascending.
pub fn listened_at(header: Header, heard: &ListenedUniverses, at: usize) -> u16
    ensures { result ≡ get_or (listened_of (receiver_of header).listened heard.now) at 0 }
{
    entry_at(heard, header.listened, at, 0)
}

fn read_dmx(d: DmxData) -> DmxRead
    ensures { dmx_read result ≡ d }
{
    let (has_cid, hi, lo) = match d.src_cid {
        SourceCid::Merged => (false, 0, 0),
        SourceCid::Of(c) => (true, c.hi, c.lo),
    };
    DmxRead {
        hi,
        lo,
        reading: d.recv_timestamp,
        universe: d.universe,
        address: d.sync_uni,
        priority: d.priority,
        preview: d.preview,
        has_cid,
    }
}

// What waits for a universe, ascending, but for its values.
pub fn waiting_at(header: Header, rows: &EntryRows, at: usize) -> DmxRead
    ensures { (store : List ℕ) →
        dmx_read result ≡ (get_or (waiting_of (receiver_of header).waiting.count rows.now store) at nothing).head }
{
    let waiting = Waiting {
        count: header.waiting.min(WAITING),
    };
    read_dmx(waiting.waiting_data(rows, at))
}

// Where its values lie in the store.
pub fn waiting_values_at(header: Header, rows: &EntryRows, at: usize) -> PartRead
    ensures { (store : List ℕ) →
        take result.count (drop result.start store)
        ≡ (get_or (waiting_of (receiver_of header).waiting.count rows.now store) at nothing).values }
{
    if at < header.waiting.min(WAITING) {
        PartRead {
            start: at * VALUES,
            count: count_of(rows[at]),
        }
    } else {
        PartRead { start: 0, count: 0 }
    }
}

// No part that a caller lends is longer.
const LONGEST: usize = 9223372036854775807;

// The source of this mark (0 partial, 1 listed), by its place in its list; where there are not so many, the place is the number of sources, and the rest is zeros.
pub fn source_at(header: Header, sources: &HeadRows, mark: u64, at: usize) -> SourceRead
    ensures placed { (names pages : List (List ℕ)) (universes : List ℕ) →
        SourceAt mark at result.place (receiver_of header).discovery sources.now names pages universes }
    ensures told { result.place < (receiver_of header).discovery.source_count →
        HeadRead (get_or sources.now result.place []) (head_read result) }
    ensures past { (receiver_of header).discovery.source_count ≤ result.place → result ≡ no_source result.place }
{
    let discovery = receiver_of(header).discovery;
    let place = source_place(discovery, sources, mark, at);
    if discovery.source_count <= place {
        return SourceRead {
            hi: 0,
            lo: 0,
            reading: 0,
            last_page: 0,
            name_length: 0,
            place,
        };
    }
    let h = source_head(sources[place]);
    SourceRead {
        hi: h.cid.hi,
        lo: h.cid.lo,
        reading: h.reading,
        last_page: h.last_page,
        name_length: h.name_length,
        place,
    }
}

// The page of this source, by its place among the source's pages; where there are not so many, the place is the number of pages, and the rest is zeros.
pub fn page_at(header: Header, pages: &PageRows, mark: u64, hi: u64, lo: u64, at: usize) -> PageRead
    ensures placed { (universes : List ℕ) →
        PageAt mark (record { hi = hi; lo = lo }) at result.place (receiver_of header).discovery pages.now universes }
    ensures told { result.place < (receiver_of header).discovery.page_count → (universes : List ℕ) → length universes ≤ longest →
        page_of_row pages.now universes result.place ≡ page_read result universes }
    ensures past { (receiver_of header).discovery.page_count ≤ result.place → result ≡ no_page result.place }
{
    let discovery = receiver_of(header).discovery;
    let place = place_of_page(discovery, pages, mark, Cid { hi, lo }, at);
    if discovery.page_count <= place {
        return PageRead {
            number: 0,
            count: 0,
            start: 0,
            place,
        };
    }
    let h = page_head(pages[place]);
    PageRead {
        number: h.number,
        count: h.count,
        start: page_start(pages, place, LONGEST),
        place,
    }
}
