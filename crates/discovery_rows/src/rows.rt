// The rows of sources and pages: found and turned.
ghost use Rattle.std.specs.Prelude.{◌≡◌, not, [], ◌∷◌, ◌++◌, map, suc, ◌+◌, ◌-◌, ◌≤◌, ◌<◌, length, take, get_or};
ghost use Rattle.laws.specs.Place.{prefix, remove_at};
ghost use Rattle.rules.specs.Cid.{same};
ghost use Rattle.discovery.specs.Discovery.{capacity, most_name};
ghost use Rattle.discovery_rows.specs.Rows.{cid_at, owned, larger, in_turn, turned_row, listed_row, old_row};

use crate::owners::{cid_of, is_owned};
use crate::{HeadRows, NameRow, NameRows, PageRow, PageRows};
use discovery::NAME;
use laws::remove_at;
use rules::{Cid, has_aged};

// Where the source stands; count if nowhere.
pub fn find_source(sources: &HeadRows, count: usize, mark: u64, cid: Cid) -> usize
    requires { count ≤ capacity }
    ensures { result ≡ prefix (λ row. not (owned mark cid row)) (take count sources.now) }
{
    find_from(sources, count, 0, mark, cid)
}

// Where the first source with this CID stands, partial or listed; count if nowhere, so that the next search can begin there.
pub fn find_cid(sources: &HeadRows, count: usize, cid: Cid) -> usize
    requires { count ≤ capacity }
    ensures { result ≡ prefix (λ row. not (same (cid_at row) cid)) (take count sources.now) }
{
    sources[..count]
        .iter()
        .take_while(|row| !cid_of(*row).is_same(cid))
        .count()
}

// The same as find_source, where the source stands nowhere before place from.
#[tactic(auto, using(crate::specs::Walks::place_within))]
pub fn find_from(sources: &HeadRows, count: usize, from: usize, mark: u64, cid: Cid) -> usize
    requires { (count ≤ capacity)
        × (from ≤ prefix (λ row. not (owned mark cid row)) (take count sources.now)) }
    ensures { result ≡ prefix (λ row. not (owned mark cid row)) (take count sources.now) }
{
    from + sources[from..count]
        .iter()
        .take_while(|row| !is_owned(*row, mark, cid))
        .count()
}

// Where the first source of this age stands; count if there is none.
pub fn find_expired(sources: &HeadRows, count: usize, time: u64, reading: u64) -> usize
    requires { count ≤ capacity }
    ensures { result ≡ prefix (λ row. not (old_row time reading row)) (take count sources.now) }
{
    sources[..count]
        .iter()
        .take_while(|row| !has_aged(time, reading, row[4]))
        .count()
}

// A partial source's row moved to the end as a listed one's, with its name.
pub fn turn_source(sources: &mut HeadRows, names: &mut NameRows, count: usize, at: usize)
    requires { (count ≤ capacity) × (at < count) }
    ensures { (take count sources.new ≡ remove_at at (take count sources.old) ++ listed_row (get_or sources.old at []) ∷ [])
        × (take count names.new ≡ remove_at at (take count names.old) ++ get_or names.old at [] ∷ []) }
{
    let row = sources[at];
    let name = names[at];
    let last = count - 1;
    remove_at(sources, count, at);
    remove_at(names, count, at);
    sources[last] = [1, row[1], row[2], row[3], row[4], row[5]];
    names[last] = name;
}

// A name's bytes in a row of names.
pub fn name_row(name: &[u8]) -> NameRow
    requires { length name.now ≤ most_name }
    ensures { take (length name.now) result ≡ name.now }
{
    let mut row = [0; NAME];
    row[..name.len()].copy_from_slice(name);
    row
}

fn is_larger(row: &PageRow, cid: Cid, number: u8) -> bool
    ensures { result ≡ larger cid number row.now }
{
    is_owned(row, 0, cid) && u64::from(number) < row[3]
}

// Where a partial source's new page goes: before its first page with a larger number.
pub fn page_place(pages: &PageRows, count: usize, cid: Cid, number: u8) -> usize
    requires { count ≤ capacity }
    ensures { result ≡ prefix (λ row. not (larger cid number row)) (take count pages.now) }
{
    pages[..count]
        .iter()
        .take_while(|row| !is_larger(*row, cid, number))
        .count()
}

// A partial source's page rows become a listed one's.
pub fn turn_pages(pages: &mut PageRows, count: usize, cid: Cid)
    requires { count ≤ capacity }
    ensures { take count pages.new ≡ map (turned_row cid) (take count pages.old) }
{
    for row in pages[..count].iter_mut() {
        if is_owned(row, 0, cid) {
            *row = [1, row[1], row[2], row[3], row[4]];
        }
    }
}

// Places 0 to last page hold exactly those page numbers.
pub fn has_all_pages(pages: &PageRows, count: usize, cid: Cid, last_page: u64) -> bool
    requires { count ≤ capacity }
    ensures { result ≡ in_turn cid 0 (suc last_page) (take count pages.now) }
{
    if count as u64 <= last_page {
        return false;
    }
    let mut next: u64 = 0;
    for row in &pages[..count] {
        if last_page < next {
            return true;
        }
        if is_owned(row, 0, cid) {
            if row[3] != next {
                return false;
            }
            next += 1;
        }
    }
    last_page < next
}
