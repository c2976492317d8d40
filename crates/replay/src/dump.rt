// The whole state, line by line.
ghost use Rattle.std.specs.Prelude.{◌≡◌, ◌≤◌, ◌<◌, length, take, get_or};
ghost use Rattle.pair_rows.specs.View.{pairs_of, listed_sources_of};
ghost use Rattle.pair_tables.specs.View.{table_of};
ghost use Rattle.merge.specs.Views.{dmx};
ghost use Rattle.waiting_store.specs.Entries.{waiting_of};
ghost use Rattle.waiting.specs.Waiting.{store_length};
ghost use Rattle.waiting_store.specs.Entries.{Kept as WaitingKept};
ghost use Rattle.listening.specs.View.{listened_of};
ghost use Rattle.discovery_pages.specs.Passes.{Packing};
ghost use Rattle.discovery_calls.specs.View.{Kept as DiscoveryKept, discovered_of};
ghost use Rattle.discovery_reads.specs.Reads.{pages_of, sources_of};
ghost use Rattle.replay.specs.Promises.{shared_lent, shared_lent_in};
ghost use Rattle.discovery.specs.Discovery.{pool_length};
ghost use Rattle.receiver.specs.View.{memory, state_of, Kept};
ghost use Rattle.printing.specs.Text.{Ready, Tells};
ghost use Rattle.replay.specs.Dump.{lines, spaced, pair_line, cids_text, sources_line, table_text, owner_text, waiting_line, listened_line, page_line, head_line, source_text, discovered_text, dump_text};
ghost use Rattle.replay.specs.DumpLaws.{page, first_page, first_source};
ghost use Rattle.pairs.specs.Table.{capacity as most_pairs};

use discovery_calls::Discovery;
use discovery_reads::{
    SourceHead, listed_count, page_head, page_total, page_universes, partial_count, place_of_page,
    source_head, source_place,
};
use discovery_rows::{HeadRows, NameRows, PageRows};
use listening::{Listened, ListenedUniverses};
use merge::{DmxData, SourceCid};
use pair_rows::{PairRows, SourceRows, cid_of, pair_of};
use pair_tables::PairTable;
use pairs::Pair;
use printing::answers::front;
use printing::print::{put, put_bit, put_byte_string, put_cid, put_decimal, put_list, put_text};
use receiver::Receiver;
use rules::Cid;
use std::io::Stdout;
use waiting_calls::Waiting;
use waiting_store::EntryRows;

// A space and a number.
fn put_spaced(to: Stdout, out: &mut [u8], at: usize, n: u64) -> usize
    requires { Ready at out.old }
    ensures { Tells (spaced n) out.old at out.new result }
{
    let a = put(to, out, at, b' ');
    put_decimal(to, out, a, n)
}

fn put_pair(to: Stdout, out: &mut [u8], at: usize, mark: u8, pair: Pair) -> usize
    requires { Ready at out.old }
    ensures { Tells (pair_line mark pair) out.old at out.new result }
{
    let a = put(to, out, at, mark);
    let b = put(to, out, a, b' ');
    let d = put_cid(to, out, b, pair.cid);
    let e = put_spaced(to, out, d, pair.universe as u64);
    let f = put_spaced(to, out, e, pair.sequence as u64);
    let g = put_spaced(to, out, f, pair.reading);
    put(to, out, g, b'\n')
}

fn put_pairs(to: Stdout, out: &mut [u8], at: usize, mark: u8, pairs: &PairRows, n: usize) -> usize
    requires { Ready at out.old × (n ≤ most_pairs) × (length pairs.now ≡ most_pairs) }
    ensures { Tells (lines (pair_line mark) (pairs_of n pairs.now)) out.old at out.new result }
{
    let mut a = at;
    for i in 0..n {
        a = put_pair(to, out, a, mark, pair_of(pairs[i]));
    }
    a
}

fn put_cids(to: Stdout, out: &mut [u8], at: usize, sources: &SourceRows, n: usize) -> usize
    requires { Ready at out.old × (n ≤ most_pairs) × (length sources.now ≡ most_pairs) }
    ensures { Tells (cids_text (listed_sources_of n sources.now)) out.old at out.new result }
{
    if n == 0 {
        return put(to, out, at, b'-');
    }
    let mut a = put_cid(to, out, at, cid_of(sources[0]));
    for i in 1..n {
        a = put(to, out, a, b',');
        a = put_cid(to, out, a, cid_of(sources[i]));
    }
    a
}

fn put_sources_line(
    to: Stdout,
    out: &mut [u8],
    at: usize,
    mark: u8,
    sources: &SourceRows,
    n: usize,
) -> usize
    requires { Ready at out.old × (n ≤ most_pairs) × (length sources.now ≡ most_pairs) }
    ensures { Tells (sources_line mark (listed_sources_of n sources.now)) out.old at out.new result }
{
    let a = put(to, out, at, mark);
    let b = put_text(to, out, a, b"c ");
    let d = put_cids(to, out, b, sources, n);
    put(to, out, d, b'\n')
}

pub fn put_table(
    to: Stdout,
    out: &mut [u8],
    at: usize,
    mark: u8,
    table: PairTable,
    pairs: &PairRows,
    sources: &SourceRows,
) -> usize
    requires { Ready at out.old × (table.count ≤ most_pairs) × (table.source_count ≤ most_pairs) × (length pairs.now ≡ most_pairs) ×
        (length sources.now ≡ most_pairs) }
    ensures { Tells (table_text mark (table_of table pairs.now sources.now)) out.old at
        out.new result }
{
    let a = put_pairs(to, out, at, mark, pairs, table.count);
    put_sources_line(to, out, a, mark, sources, table.source_count)
}

fn put_owner(to: Stdout, out: &mut [u8], at: usize, owner: SourceCid) -> usize
    requires { Ready at out.old }
    ensures { Tells (owner_text owner) out.old at out.new result }
{
    match owner {
        SourceCid::Merged => put(to, out, at, b'-'),
        SourceCid::Of(c) => put_cid(to, out, at, c),
    }
}

fn put_entry(to: Stdout, out: &mut [u8], at: usize, d: DmxData, values: &[u8]) -> usize
    requires { Ready at out.old }
    ensures { Tells (waiting_line (dmx d values.now)) out.old at out.new result }
{
    let a = put(to, out, at, b'w');
    let b = put_spaced(to, out, a, d.universe as u64);
    let e = put_spaced(to, out, b, d.sync_uni as u64);
    let f = put_spaced(to, out, e, d.priority as u64);
    let g = put(to, out, f, b' ');
    let h = put_bit(to, out, g, d.preview);
    let i = put(to, out, h, b' ');
    let j = put_owner(to, out, i, d.src_cid);
    let k = put_spaced(to, out, j, d.recv_timestamp);
    let l = put(to, out, k, b' ');
    let m = put_byte_string(to, out, l, values);
    put(to, out, m, b'\n')
}

pub fn put_waiting(
    to: Stdout,
    out: &mut [u8],
    at: usize,
    waiting: Waiting,
    rows: &EntryRows,
    store: &[u8],
) -> usize
    requires { Ready at out.old × WaitingKept waiting.count rows.now store.now }
    ensures { Tells (lines waiting_line (waiting_of waiting.count rows.now store.now))
        out.old at out.new result }
{
    let mut a = at;
    for i in 0..waiting.count {
        let d = waiting.waiting_data(rows, i);
        let values = waiting.waiting_values(rows, store, i);
        a = put_entry(to, out, a, d, values);
    }
    a
}

pub fn put_listened(
    to: Stdout,
    out: &mut [u8],
    at: usize,
    listened: Listened,
    heard: &ListenedUniverses,
) -> usize
    requires { Ready at out.old }
    ensures { Tells (listened_line (listened_of listened heard.now)) out.old at out.new result }
{
    let a = put_text(to, out, at, b"l ");
    let b = put_list(to, out, a, front(heard, listened.count));
    put(to, out, b, b'\n')
}

fn put_page(to: Stdout, out: &mut [u8], at: usize, letter: u8, number: u64, list: &[u16]) -> usize
    requires { Ready at out.old }
    ensures { Tells (page_line letter (page number list.now)) out.old at out.new result }
{
    let a = put(to, out, at, letter);
    let b = put(to, out, a, b'p');
    let d = put_spaced(to, out, b, number);
    let e = put(to, out, d, b' ');
    let f = put_list(to, out, e, list);
    put(to, out, f, b'\n')
}

// The k-th page of a source.
fn put_page_at(
    to: Stdout,
    out: &mut [u8],
    at: usize,
    letter: u8,
    mark: u64,
    cid: Cid,
    k: usize,
    discovery: Discovery,
    pages: &PageRows,
    universes: &[u16],
) -> usize
    requires { Ready at out.old × Packing discovery.page_count pages.now universes.now ×
        (k < length (pages_of mark cid discovery pages.now universes.now)) }
    ensures { Tells (page_line letter (get_or (pages_of mark cid discovery pages.now universes.now) k
        first_page)) out.old at out.new result }
{
    let r = place_of_page(discovery, pages, mark, cid, k);
    let head = page_head(pages[r]);
    let list = page_universes(discovery, pages, universes, r);
    put_page(to, out, at, letter, head.number, list)
}

fn put_pages(
    to: Stdout,
    out: &mut [u8],
    at: usize,
    letter: u8,
    mark: u64,
    cid: Cid,
    total: usize,
    discovery: Discovery,
    pages: &PageRows,
    universes: &[u16],
) -> usize
    requires { Ready at out.old × Packing discovery.page_count pages.now universes.now ×
        (total ≡ length (pages_of mark cid discovery pages.now universes.now)) }
    ensures { Tells (lines (page_line letter) (pages_of mark cid discovery pages.now universes.now))
        out.old at out.new result }
{
    let mut a = at;
    for k in 0..total {
        a = put_page_at(
            to, out, a, letter, mark, cid, k, discovery, pages, universes,
        );
    }
    a
}

fn put_head(
    to: Stdout,
    out: &mut [u8],
    at: usize,
    letter: u8,
    head: SourceHead,
    name_row: [u8; 63],
    total: usize,
) -> usize
    requires { Ready at out.old }
    ensures { Tells (head_line letter head.cid (take head.name_length name_row) head.last_page
        head.reading total) out.old at out.new result }
{
    let a = put(to, out, at, letter);
    let b = put(to, out, a, b' ');
    let d = put_cid(to, out, b, head.cid);
    let e = put(to, out, d, b' ');
    let name = front(&name_row, head.name_length as usize);
    let f = put_byte_string(to, out, e, name);
    let g = put_spaced(to, out, f, head.last_page);
    let h = put_spaced(to, out, g, head.reading);
    let i = put_spaced(to, out, h, total as u64);
    put(to, out, i, b'\n')
}

// The k-th source of a mark, with its pages.
fn put_source_at(
    to: Stdout,
    out: &mut [u8],
    at: usize,
    letter: u8,
    mark: u64,
    k: usize,
    discovery: Discovery,
    sources: &HeadRows,
    names: &NameRows,
    pages: &PageRows,
    universes: &[u16],
) -> usize
    requires { Ready at out.old × DiscoveryKept discovery sources.now names.now pages.now universes.now ×
        (k < length (sources_of mark discovery sources.now names.now pages.now universes.now)) }
    ensures { Tells (source_text letter (get_or
        (sources_of mark discovery sources.now names.now pages.now universes.now) k
        first_source)) out.old at out.new result }
{
    let r = source_place(discovery, sources, mark, k);
    let head = source_head(sources[r]);
    let name_row = names[r];
    let total = page_total(discovery, pages, mark, head.cid);
    let a = put_head(to, out, at, letter, head, name_row, total);
    put_pages(
        to, out, a, letter, mark, head.cid, total, discovery, pages, universes,
    )
}

fn put_sources(
    to: Stdout,
    out: &mut [u8],
    at: usize,
    letter: u8,
    mark: u64,
    count: usize,
    discovery: Discovery,
    sources: &HeadRows,
    names: &NameRows,
    pages: &PageRows,
    universes: &[u16],
) -> usize
    requires { Ready at out.old × DiscoveryKept discovery sources.now names.now pages.now universes.now ×
        (count ≡ length (sources_of mark discovery sources.now names.now pages.now universes.now)) }
    ensures { Tells (lines (source_text letter)
        (sources_of mark discovery sources.now names.now pages.now universes.now))
        out.old at out.new result }
{
    let mut a = at;
    for k in 0..count {
        a = put_source_at(
            to, out, a, letter, mark, k, discovery, sources, names, pages, universes,
        );
    }
    a
}

// Partial sources, then listed ones.
fn put_discovered(
    to: Stdout,
    out: &mut [u8],
    at: usize,
    discovery: Discovery,
    sources: &HeadRows,
    names: &NameRows,
    pages: &PageRows,
    universes: &[u16],
) -> usize
    requires { Ready at out.old × DiscoveryKept discovery sources.now names.now pages.now universes.now }
    ensures { Tells (discovered_text (discovered_of discovery sources.now names.now
        pages.now universes.now)) out.old at out.new result }
{
    let partial = partial_count(discovery, sources);
    let a = put_sources(
        to, out, at, b'p', 0, partial, discovery, sources, names, pages, universes,
    );
    let listed = listed_count(discovery, sources);
    put_sources(
        to, out, a, b'q', 1, listed, discovery, sources, names, pages, universes,
    )
}

pub fn dump(
    to: Stdout,
    out: &mut [u8],
    at: usize,
    receiver: Receiver,
    data_pairs: &PairRows,
    data_sources: &SourceRows,
    sync_pairs: &PairRows,
    sync_sources: &SourceRows,
    rows: &EntryRows,
    store: &[u8],
    heard: &ListenedUniverses,
    sources: &HeadRows,
    names: &NameRows,
    pages: &PageRows,
    universes: &[u16],
) -> usize
    requires { Ready at out.old × Kept receiver
        (shared_lent_in data_pairs data_sources sync_pairs sync_sources rows store heard sources names pages universes) ×
        (store_length ≤ length store.now) × (pool_length ≤ length universes.now) }
    ensures { let m = shared_lent data_pairs data_sources sync_pairs sync_sources rows store heard sources names pages universes in
        Tells (dump_text (state_of receiver m.entry)) out.old at out.new result }
{
    let a = put_table(
        to,
        out,
        at,
        b'd',
        receiver.sequences.data.table,
        data_pairs,
        data_sources,
    );
    let b = put_table(
        to,
        out,
        a,
        b'y',
        receiver.sequences.sync.table,
        sync_pairs,
        sync_sources,
    );
    let d = put_waiting(to, out, b, receiver.waiting, rows, store);
    let e = put_listened(to, out, d, receiver.listened, heard);
    let f = put_discovered(
        to,
        out,
        e,
        receiver.discovery,
        sources,
        names,
        pages,
        universes,
    );
    put_text(to, out, f, b".\n")
}
