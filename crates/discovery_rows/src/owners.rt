// Whose a row of sources or pages is, and where a page's universes lie in the pool.
ghost use Rattle.std.specs.Prelude.{◌≡◌, ◌≤◌, length, take};
ghost use Rattle.discovery.specs.Discovery.{capacity};
ghost use Rattle.discovery_rows.specs.Store.{owner};
ghost use Rattle.discovery_rows.specs.Rows.{cid_at, owned, total, Few};

use crate::PageRows;
use rules::Cid;

// The owner is this one. A mark is a number, since it is a word of the lent rows, which may hold any.
pub fn is_owner(mark: u64, cid: Cid, kind: u64, source: Cid) -> bool
    ensures { result ≡ owner kind source mark cid }
{
    mark == kind && cid.is_same(source)
}

// The CID in a row of sources or pages: its second word and its third.
pub fn cid_of<const N: usize>(row: &[u64; N]) -> Cid
    requires { 3 ≤ N }
    ensures { result ≡ cid_at row.now }
{
    Cid {
        hi: row[1],
        lo: row[2],
    }
}

// A row of sources or pages has this owner.
pub fn is_owned<const N: usize>(row: &[u64; N], mark: u64, cid: Cid) -> bool
    requires { 3 ≤ N }
    ensures { result ≡ owned mark cid row.now }
{
    is_owner(row[0], cid_of(row), mark, cid)
}

// Where the universes of the page at place at begin.
pub fn offset(pages: &PageRows, at: usize) -> usize
    requires { (at ≤ capacity) × Few (take at pages.now) }
    ensures { result ≡ total (take at pages.now) }
{
    let mut sum = 0;
    for row in &pages[..at] {
        sum += row[4] as usize;
    }
    sum
}
