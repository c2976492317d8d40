// What is known of the sources, read out for a dump: how many, which row holds which, what a row says.

#![tactic(auto)]

ghost use Rattle.std.specs.Prelude.{◌≡◌, Bool, List, [], ℕ, ◌+◌, ◌≤◌, ◌<◌, min, length, take};
ghost use Rattle.laws.specs.Table.{keep};
ghost use Rattle.discovery.specs.Discovery.{capacity};
ghost use Rattle.discovery_rows.specs.Store.{pages_at};
ghost use Rattle.discovery_rows.specs.Rows.{owned, total};
ghost use Rattle.discovery_calls.specs.View.{leaves_of, discovered_of};
ghost use Rattle.discovery_reads.specs.Reads.{nth, Tells, marked_row, page_of_row, SourceAt, PageAt, HeadRead, PageRead};

use discovery::PAGES;
use discovery_calls::Discovery;
use discovery_rows::owners::{cid_of, is_owned};
use discovery_rows::{HeadRow, HeadRows, PageRow, PageRows};
use rules::Cid;

// A count, as far as there are rows.
pub fn within(count: usize) -> usize
    ensures { result ≡ min count capacity }
{
    count.min(PAGES)
}

fn is_marked(row: &HeadRow, mark: u64) -> bool
    ensures { result ≡ marked_row mark row.now }
{
    row[0] == mark
}

// How many sources have the mark.
fn count_sources(sources: &HeadRows, count: usize, mark: u64) -> usize
    requires { count ≤ capacity }
    ensures { result ≡ length (keep (marked_row mark) (take count sources.now)) }
{
    sources[..count]
        .iter()
        .filter(|row| is_marked(*row, mark))
        .count()
}

// Where the k-th row that passes the test stands, from 0; how many rows there are if not so many pass.
fn nth_row<T, F: Fn(&T) -> bool>(rows: &[T], k: usize, test: F) -> usize
    requires { F.IsAlwaysCallable test }
    ensures { (p : T → Bool) → Tells F.Fn test p → result ≡ nth p k rows.now }
{
    let mut left = k;
    for i in 0..rows.len() {
        if test(&rows[i]) {
            if left == 0 {
                return i;
            }
            left -= 1;
        }
    }
    rows.len()
}

// Where the k-th source of the mark stands, from 0; count if there are not so many.
fn nth_source(sources: &HeadRows, count: usize, mark: u64, k: usize) -> usize
    requires { count ≤ capacity }
    ensures { result ≡ nth (marked_row mark) k (take count sources.now) }
{
    nth_row(&sources[..count], k, |row| is_marked(row, mark))
}

// How many pages the owner has.
fn count_pages(pages: &PageRows, count: usize, mark: u64, cid: Cid) -> usize
    requires { count ≤ capacity }
    ensures { result ≡ length (keep (owned mark cid) (take count pages.now)) }
{
    pages[..count]
        .iter()
        .filter(|row| is_owned(*row, mark, cid))
        .count()
}

// Where the owner's k-th page stands, from 0; count if there are not so many.
fn nth_page(pages: &PageRows, count: usize, mark: u64, cid: Cid, k: usize) -> usize
    requires { count ≤ capacity }
    ensures { result ≡ nth (owned mark cid) k (take count pages.now) }
{
    nth_row(&pages[..count], k, |row| is_owned(row, mark, cid))
}

// How many sources are partial.
pub fn partial_count(discovery: Discovery, sources: &HeadRows) -> usize
    ensures { (names pages : List (List ℕ)) (universes : List ℕ) →
        result ≡ length (discovered_of discovery sources.now names pages universes).partial }
{
    let count = within(discovery.source_count);
    count_sources(sources, count, 0)
}

// How many sources are listed.
pub fn listed_count(discovery: Discovery, sources: &HeadRows) -> usize
    ensures { (names pages : List (List ℕ)) (universes : List ℕ) →
        result ≡ length (discovered_of discovery sources.now names pages universes).listed }
{
    let count = within(discovery.source_count);
    count_sources(sources, count, 1)
}

// Which row holds the k-th partial source (mark 0) or the k-th listed one (mark 1), from 0; the count of sources if there are not so many.
pub fn source_place(discovery: Discovery, sources: &HeadRows, mark: u64, k: usize) -> usize
    ensures { (names pages : List (List ℕ)) (universes : List ℕ) →
        SourceAt mark k result discovery sources.now names pages universes }
{
    let count = within(discovery.source_count);
    let place = nth_source(sources, count, mark, k);
    if count <= place {
        discovery.source_count
    } else {
        place
    }
}

// How many pages the source of this mark has.
pub fn page_total(discovery: Discovery, pages: &PageRows, mark: u64, cid: Cid) -> usize
    ensures { (universes : List ℕ) → result ≡ length (pages_at mark (leaves_of discovery pages.now universes) cid) }
{
    let count = within(discovery.page_count);
    count_pages(pages, count, mark, cid)
}

// Which row holds the k-th page of the source of this mark, from 0; the count of pages if it has not so many.
pub fn place_of_page(discovery: Discovery, pages: &PageRows, mark: u64, cid: Cid, k: usize) -> usize
    ensures { (universes : List ℕ) → PageAt mark cid k result discovery pages.now universes }
{
    let count = within(discovery.page_count);
    let place = nth_page(pages, count, mark, cid, k);
    if count <= place {
        discovery.page_count
    } else {
        place
    }
}

// Where the universes of the page in this row begin, or most if that is past it.
pub fn page_start(pages: &PageRows, at: usize, most: usize) -> usize
    requires { at ≤ capacity }
    ensures { result ≡ min (total (take at pages.now)) most }
{
    pages[..at]
        .iter()
        .fold(0, |start, row| advance(start, row[4], most))
}

// n further, but not past most. It is cut to most before it is a usize, which has 32 bits on some targets.
fn advance(start: usize, n: u64, most: usize) -> usize
    ensures { result ≡ min (start + n) most }
{
    start.saturating_add(n.min(most as u64) as usize).min(most)
}

// The universes of the page in this row, as far as they lie in the pool; none past the last page.
pub fn page_universes<'a>(
    discovery: Discovery,
    pages: &PageRows,
    universes: &'a [u16],
    at: usize,
) -> &'a [u16]
    ensures held { at < discovery.page_count →
        result.now ≡ (page_of_row pages.now universes.now at).universes }
    ensures past { discovery.page_count ≤ at → result.now ≡ [] }
{
    let count = within(discovery.page_count);
    if count <= at {
        return &[];
    }
    let most = universes.len();
    let start = page_start(pages, at, most);
    let end = advance(start, pages[at][4], most);
    &universes[start..end]
}

// What a source's row says beside its mark; the name is the first name_length bytes of the name row.
#[derive(Clone, Copy)]
pub struct SourceHead {
    pub cid: Cid,
    pub name_length: u64,
    pub last_page: u64,
    pub reading: u64,
}

// What a page's row says beside its owner.
#[derive(Clone, Copy)]
pub struct PageHead {
    pub number: u64,
    pub count: u64,
}

pub fn source_head(row: HeadRow) -> SourceHead
    ensures { HeadRead row result }
{
    SourceHead {
        cid: cid_of(&row),
        name_length: row[5],
        last_page: row[3],
        reading: row[4],
    }
}

pub fn page_head(row: PageRow) -> PageHead
    ensures { PageRead row result }
{
    PageHead {
        number: row[3],
        count: row[4],
    }
}
