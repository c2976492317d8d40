// Rows of the lent tables: a row and what it stands for. Functions and no `From`: rows are arrays, and `Pair` and `Cid` are of other crates.
ghost use Rattle.std.specs.Prelude.{◌≡◌};
ghost use Rattle.pair_rows.specs.View.{cid_of, pair_of};

use crate::{PairRow, SourceRow};
use pairs::Pair;
use rules::Cid;

pub fn cid_of(row: SourceRow) -> Cid
    ensures { result ≡ cid_of row }
{
    Cid {
        hi: row[0],
        lo: row[1],
    }
}

pub fn source_row(cid: Cid) -> SourceRow
    ensures { cid_of result ≡ cid }
{
    [cid.hi, cid.lo]
}

pub fn pair_of(row: PairRow) -> Pair
    ensures { result ≡ pair_of row }
{
    Pair {
        cid: Cid {
            hi: row[0],
            lo: row[1],
        },
        universe: (row[2] / 256 % 65536) as u16,
        sequence: (row[2] % 256) as u8,
        reading: row[3],
    }
}

pub fn pair_row(pair: Pair) -> PairRow
    ensures { pair_of result ≡ pair }
{
    [
        pair.cid.hi,
        pair.cid.lo,
        u64::from(pair.universe) * 256 + u64::from(pair.sequence),
        pair.reading,
    ]
}
