// Waiting data in lent memory: a row and a block of bytes for each entry, the passes over entries, and the records of a release in
// the output.

#![tactic(auto)]

ghost use Rattle.merge.specs.declared.DmxData.{DmxData};
ghost use Rattle.std.specs.Prelude.{◌≡◌, Bool, not, ◌+◌, ◌-◌, ◌≤◌, ◌<◌, length, take, get_or, set};
ghost use Rattle.std.specs.List.{prefix_len, list_any};
ghost use Rattle.laws.specs.Table.{keep};
ghost use Rattle.laws.specs.Place.{insert_at, remove_at};
ghost use Rattle.merge.specs.Merge.{Dmx, most_values};
ghost use Rattle.merge.specs.Views.{dmx};
ghost use Rattle.waiting.specs.Waiting.{capacity, released};
ghost use Rattle.waiting.specs.Records.{most_bytes};
ghost use Rattle.waiting_store.specs.Entries.{head_of, words_of, count_of, entries, nothing, Room, Lent};
ghost use Rattle.waiting_store.specs.Posts.{Computes, Rowed, below, Sought};
ghost use Rattle.waiting_store.specs.Promises.{entries_before, Become, FirstBecome};
ghost use Rattle.waiting_store.specs.Written.{due, Laid, Writing};

use merge::{DmxData, SourceCid, VALUES};
use rules::Cid;
use waiting::WAITING;

// A header as words: universe, address, priority, preview, CID present, CID high, CID low, reading, value count.
pub type EntryRow = [u64; 9];

// The rows of all universes that can wait.
pub type EntryRows = [EntryRow; WAITING];

// A row as its header.
#[tactic(auto, unfolding(crate::specs::Entries::head_of))]
pub fn head_of(row: EntryRow) -> DmxData
    ensures { result ≡ head_of row }
{
    DmxData {
        universe: (row[0] % 65536) as u16,
        sync_uni: (row[1] % 65536) as u16,
        priority: (row[2] % 256) as u8,
        src_cid: if row[4] == 0 {
            SourceCid::Merged
        } else {
            SourceCid::Of(Cid {
                hi: row[5],
                lo: row[6],
            })
        },
        preview: row[3] != 0,
        recv_timestamp: row[7],
    }
}

// How many values its block has.
pub fn count_of(row: EntryRow) -> usize
    ensures { result ≡ count_of row }
{
    row[8].min(VALUES as u64) as usize
}

// A header and a value count as a row.
fn row_of(d: DmxData, n: usize) -> EntryRow
    requires { n ≤ most_values }
    ensures { (result ≡ words_of d n) × Rowed d n result }
{
    let (present, hi, lo) = match d.src_cid {
        SourceCid::Merged => (0, 0, 0),
        SourceCid::Of(c) => (1, c.hi, c.lo),
    };
    [
        u64::from(d.universe),
        u64::from(d.sync_uni),
        u64::from(d.priority),
        u64::from(d.preview),
        present,
        hi,
        lo,
        d.recv_timestamp,
        n as u64,
    ]
}

// How many rows at the front are of universes below this one. A walk, since halving would ask for rows in order, which no caller is asked for.
fn place_of(rows: &EntryRows, n: usize, universe: u16) -> usize
    requires { n ≤ capacity }
    ensures { result ≡ prefix_len (λ row. below universe (head_of row)) (take n rows.now) }
{
    rows[..n]
        .iter()
        .take_while(|row| head_of(**row).universe < universe)
        .count()
}

// An entry put at place i: its row and its block.
// For `waiting_joins`.
pub fn write_entry(rows: &mut EntryRows, store: &mut [u8], i: usize, d: DmxData, values: &[u8])
    requires { Room rows.old store.old × (i < capacity) × (length values.now ≤ most_values) }
    ensures { let es = entries_before rows store in
        Become rows store (set es i (dmx d values.now)) }
{
    rows[i] = row_of(d, values.len());
    laws::paste(store, i * VALUES, values);
}

// The entry at one place put at another, too.
fn move_entry(rows: &mut EntryRows, store: &mut [u8], from: usize, to: usize)
    requires { Room rows.old store.old × (from < capacity) × (to < capacity) }
    ensures { let es = entries_before rows store in
        Become rows store (set es to (get_or es from nothing)) }
{
    let start = from * VALUES;
    let place = to * VALUES;
    for k in 0..count_of(rows[from]) {
        store[place + k] = store[start + k];
    }
    rows[to] = rows[from];
}

// Place i taken out of the first n entries: the later ones move down.
// For `waiting_calls`.
pub fn remove_at(rows: &mut EntryRows, store: &mut [u8], n: usize, i: usize)
    requires { Room rows.old store.old × (i < n) × (n ≤ capacity) }
    ensures { let es = entries_before rows store in
        FirstBecome rows store (n - 1) (remove_at i (take n es)) }
{
    for w in i..n - 1 {
        move_entry(rows, store, w + 1, w);
    }
}

// An entry put in before place i of the first n: the later ones move up, from the top.
// For `waiting_calls`.
pub fn insert_at(
    rows: &mut EntryRows,
    store: &mut [u8],
    n: usize,
    i: usize,
    d: DmxData,
    values: &[u8],
)
    requires { Room rows.old store.old × (i ≤ n) × (n < capacity) × (length values.now ≤ most_values) }
    ensures { let es = entries_before rows store in
        FirstBecome rows store (n + 1) (insert_at i (dmx d values.now) (take n es)) }
{
    for j in (i..n).rev() {
        move_entry(rows, store, j, j + 1);
    }
    write_entry(rows, store, i, d, values);
}

// An entry that a pass keeps moves down over those it gave up, if there are any.
fn keep_entry(rows: &mut EntryRows, store: &mut [u8], from: usize, to: usize)
    requires { Room rows.old store.old × (to ≤ from) × (from < capacity) }
    ensures { let es = entries_before rows store in
        Become rows store (set es to (get_or es from nothing)) }
{
    if to < from {
        move_entry(rows, store, from, to);
    }
}

// Is there an entry among the first n that the pass would not keep.
// For `waiting_calls`.
pub fn any_dropped<F: Fn(DmxData) -> bool>(rows: &EntryRows, n: usize, keeps: F) -> bool
    requires { (n ≤ capacity) × F.IsAlwaysCallable keeps }
    ensures { (t : DmxData → Bool) → Computes F.Fn t keeps
        → result ≡ list_any (λ row. not (t (head_of row))) (take n rows.now) }
{
    rows[..n].iter().any(|row| !keeps(head_of(*row)))
}

// The entries that a pass keeps, moved down over the others; how many they are.
// For `waiting_calls`.
pub fn compact<F: Fn(DmxData) -> bool>(
    rows: &mut EntryRows,
    store: &mut [u8],
    n: usize,
    keeps: F,
) -> usize
    requires { Room rows.old store.old × (n ≤ capacity) × F.IsAlwaysCallable keeps }
    ensures { let es = entries_before rows store in
        (result ≤ n) × Lent rows.old store.old rows.new store.new × ((t : DmxData → Bool) → Computes F.Fn t keeps
        → FirstBecome rows store result (keep (λ (e : Dmx). t e.head) (take n es))) }
{
    let mut kept = 0;
    for i in 0..n {
        if keeps(head_of(rows[i])) {
            keep_entry(rows, store, i, kept);
            kept += 1;
        }
    }
    kept
}

// Where a universe stands among the first n entries, or where it would go.
// For `waiting_calls`.
pub fn find_universe(rows: &EntryRows, n: usize, universe: u16) -> Result<usize, usize>
    requires { n ≤ capacity }
    ensures { Sought universe n rows.now result }
{
    let i = place_of(rows, n, universe);
    if i < n && head_of(rows[i]).universe == universe {
        Ok(i)
    } else {
        Err(i)
    }
}

// ── released bytes ──

// One record of a release, laid over the output from a place on; the place after it.
pub fn write_record(out: &mut [u8], at: usize, d: DmxData, values: &[u8]) -> usize
    requires { at + 35 + length values.now ≤ length out.old }
    ensures { Laid d values.now out.old out.new at result }
{
    let (present, cid) = match d.src_cid {
        SourceCid::Merged => (0, [0; 16]),
        SourceCid::Of(c) => (1, c.to_bytes()),
    };
    let [.., high, low] = values.len().to_be_bytes();
    laws::paste(out, at, &[0x55, 0x44]);
    laws::paste(out, at + 2, &d.universe.to_be_bytes());
    laws::paste(out, at + 4, &d.sync_uni.to_be_bytes());
    laws::paste(out, at + 6, &[d.priority, u8::from(d.preview), present]);
    laws::paste(out, at + 9, &cid);
    laws::paste(out, at + 25, &d.recv_timestamp.to_be_bytes());
    laws::paste(out, at + 33, &[high, low]);
    laws::paste(out, at + 35, values);
    at + 35 + values.len()
}

// Is it of the address, and not expired.
fn is_due(d: DmxData, address: u16, reading: u64) -> bool
    ensures { result ≡ due reading address d }
{
    d.sync_uni == address && !rules::is_expired(reading, d.recv_timestamp)
}

// How much a release has written.
// For `waiting_calls`.
#[derive(Clone, Copy)]
pub struct Written {
    pub records: usize,
    pub bytes: usize,
}

// The records of an address's live data among the first n entries, laid over the output.
// For `waiting_calls`.
pub fn write_release(
    rows: &EntryRows,
    store: &[u8],
    n: usize,
    address: u16,
    reading: u64,
    out: &mut [u8],
) -> Written
    requires { Room rows.now store.now × (n ≤ capacity) × (most_bytes ≤ length out.old) }
    ensures { let es = entries rows.now store.now in
        Writing (released reading address (take n es)) out.old out.new result.records result.bytes }
{
    let mut records = 0;
    let mut at = 0;
    for i in 0..n {
        let d = head_of(rows[i]);
        if is_due(d, address, reading) {
            let start = i * VALUES;
            at = write_record(out, at, d, &store[start..start + count_of(rows[i])]);
            records += 1;
        }
    }
    Written { records, bytes: at }
}
