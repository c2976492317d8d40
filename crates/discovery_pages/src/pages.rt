// Passes over the pages and their universes: an owner's pages go, or a universe goes from them.
ghost use Rattle.std.specs.Prelude.{◌≡◌, not, [], map, ◌+◌, ◌-◌, ◌≤◌, ◌<◌, length, take, get_or};
ghost use Rattle.laws.specs.Table.{keep};
ghost use Rattle.laws.specs.Place.{prefix, insert_at};
ghost use Rattle.discovery.specs.Discovery.{Rising, capacity, most_universes};
ghost use Rattle.discovery_rows.specs.Store.{held_by, pages_at};
ghost use Rattle.discovery_rows.specs.Rows.{leaves, total};
ghost use Rattle.discovery_pages.specs.Leaves.{behind, cut_leaf};
ghost use Rattle.discovery_pages.specs.Passes.{Packing};
ghost use Rattle.discovery_pages.specs.Steps.{no_larger};
ghost use Rattle.discovery_pages.specs.Promises.{leaves_before, PacksIn};

use crate::pool::{cut_down, move_down, open_gap};
use discovery_rows::PageRows;
use discovery_rows::owners::{is_owned, offset};
use discovery_rows::rows::page_place;
use laws::{insert_at, paste};
use rules::Cid;

// How many pages are left, and how many universes they have.
#[derive(Clone, Copy)]
pub struct Left {
    pub page_count: usize,
    pub used: usize,
}

// The owner's pages go, and the gaps are closed.
pub fn drop_pages(
    pages: &mut PageRows,
    universes: &mut [u16],
    count: usize,
    mark: u64,
    cid: Cid,
) -> Left
    requires { Packing count pages.old universes.old }
    ensures { PacksIn result.page_count result.used pages universes
        (keep (λ l. not (held_by mark cid l)) (leaves_before count pages universes)) }
{
    let mut kept = 0;
    let mut to = 0;
    let mut from = 0;
    for i in 0..count {
        let row = pages[i];
        let n = row[4] as usize;
        if !is_owned(&row, mark, cid) {
            move_down(universes, to, from, n);
            pages[kept] = row;
            kept += 1;
            to += n;
        }
        from += n;
    }
    Left {
        page_count: kept,
        used: to,
    }
}

// The universe goes from the pages of a listed source, and the gaps are closed. Answers how many universes are left.
pub fn cut_pages(
    pages: &mut PageRows,
    universes: &mut [u16],
    count: usize,
    cid: Cid,
    universe: u16,
) -> usize
    requires { Packing count pages.old universes.old }
    ensures { PacksIn count result pages universes (map (cut_leaf cid universe) (leaves_before count pages universes)) }
{
    let mut to = 0;
    let mut from = 0;
    for i in 0..count {
        let row = pages[i];
        let n = row[4] as usize;
        if is_owned(&row, 1, cid) {
            let kept = cut_down(universes, to, from, n, universe);
            pages[i] = [row[0], row[1], row[2], row[3], kept as u64];
            to += kept;
        } else {
            move_down(universes, to, from, n);
            to += n;
        }
        from += n;
    }
    to
}

// One page more for a partial source, behind its pages of no larger number.
pub fn add_page(
    pages: &mut PageRows,
    universes: &mut [u16],
    count: usize,
    used: usize,
    cid: Cid,
    number: u8,
    list: &[u16],
)
    requires { Packing count pages.old universes.old × (used ≡ total (take count pages.old))
        × (count < capacity) × (length list.now ≤ most_universes) }
    ensures { let before = leaves_before count pages universes in
        PacksIn (count + 1) (used + length list.now) pages universes
        (insert_at (prefix (behind 0 cid number) before)
        (record { mark = 0; cid = cid; page = record { number = number; universes = list.now } }) before) }
{
    let n = list.len();
    let at = page_place(pages, count, cid, number);
    let begin = offset(pages, at);
    open_gap(universes, used, begin, n);
    paste(universes, begin, list);
    let row = [0, cid.hi, cid.lo, u64::from(number), n as u64];
    insert_at(pages, count, at, row);
}

// The last row is a page of the partial source, of no larger number.
fn goes_last(pages: &PageRows, count: usize, cid: Cid, number: u8) -> bool
    requires { (0 < count) × (count ≤ capacity) }
    ensures { result ≡ no_larger cid number (get_or pages.now (count - 1) []) }
{
    let row = &pages[count - 1];
    is_owned(row, 0, cid) && row[3] <= u64::from(number)
}

// The same as add_page for a source whose pages stand in order: one that goes last needs no search for its place.
pub fn put_page(
    pages: &mut PageRows,
    universes: &mut [u16],
    count: usize,
    used: usize,
    cid: Cid,
    number: u8,
    list: &[u16],
)
    requires { Packing count pages.old universes.old × (used ≡ total (take count pages.old))
        × (0 < count) × (count < capacity) × (length list.now ≤ most_universes)
        × Rising (pages_at 0 (leaves (take count pages.old) universes.old) cid) }
    ensures { let before = leaves_before count pages universes in
        PacksIn (count + 1) (used + length list.now) pages universes
        (insert_at (prefix (behind 0 cid number) before)
        (record { mark = 0; cid = cid; page = record { number = number; universes = list.now } }) before) }
{
    if goes_last(pages, count, cid, number) {
        paste(universes, used, list);
        pages[count] = [0, cid.hi, cid.lo, u64::from(number), list.len() as u64];
    } else {
        add_page(pages, universes, count, used, cid, number, list);
    }
}
