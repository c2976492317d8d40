// An arrival at a pair table by the C calling convention, for the benchmark in bench/pairs.

#![tactic(auto)]

ghost use Rattle.std.specs.Prelude.{◌≡◌, false};
ghost use Rattle.settings.specs.declared.SourceLimit.TheVariants.{Unlimited};
ghost use Rattle.pairs.specs.Table.{number_of, check};
ghost use Rattle.pair_tables.specs.Promises.{table_before, Leaves};
ghost use Rattle.pair_tables.specs.View.{arriving, Kept};
ghost use Rattle.bench_pairs.specs.Bench.{table_from, numbered};

use pair_rows::{PairRows, SourceRows};
use pair_tables::{DataTable, PairTable};
use pairs::Checked;
use rules::{Cid, DataSequence};
use settings::SourceLimit;

// The header of a table, and the number of the last answer.
#[repr(C)]
#[derive(Clone, Copy)]
pub struct Header {
    pub count: usize,
    pub source_count: usize,
    pub oldest: u64,
    pub tidy: bool,
    pub number: u8,
}

fn number_of(answer: Checked) -> u8
    ensures { result ≡ number_of answer }
{
    match answer {
        Checked::Accepted => 0,
        Checked::UniverseTimeout(_, _) => 4,
        Checked::SourcesExceeded(_) => 6,
        Checked::OutOfSequence(_, _, _) => 7,
        Checked::PairsFull => 10,
        Checked::Repeated(_, _, _) => 21,
    }
}

#[unsafe(no_mangle)]
pub extern "C" fn bench_check_seq_number(
    header: Header,
    pairs: &mut PairRows,
    sources: &mut SourceRows,
    hi: u64,
    lo: u64,
    universe: u16,
    sequence: u8,
    reading: u64,
) -> Header
    requires { Kept (table_from header) pairs.old sources.old }
    ensures { Leaves (table_from result) pairs sources result.number
        (numbered (check Unlimited false (arriving (record { hi = hi; lo = lo }) universe sequence reading) (table_before (table_from header) pairs sources))) }
{
    let table = DataTable::of(PairTable {
        count: header.count,
        source_count: header.source_count,
        oldest: header.oldest,
        tidy: header.tidy,
    });
    let arrival = table.check_seq_number(
        pairs,
        sources,
        SourceLimit::Unlimited,
        false,
        Cid { hi, lo },
        universe,
        DataSequence(sequence),
        reading,
    );
    let left = arrival.left.table;
    Header {
        count: left.count,
        source_count: left.source_count,
        oldest: left.oldest,
        tidy: left.tidy,
        number: number_of(arrival.answer),
    }
}
