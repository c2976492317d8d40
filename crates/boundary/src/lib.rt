// What crosses the C boundary: headers, settings, packets and answers as structs of numbers, turned over by small functions.
// The C interface has no Option, Result or enum with values: numbers and flags stand in their place. Functions, and no impls of From:
// the clause of each names the definition beside it, and an answer is turned over by its own cases.

#![tactic(auto)]

ghost use Rattle.std.specs.Prelude.{◌≡◌, List, ℕ};
ghost use Rattle.settings.specs.Settings.{limited, expiring, kept, number_of};
ghost use Rattle.packets.specs.View.{packet_of, sync_of};
ghost use Rattle.packets.specs.View.{announcement_of};
ghost use Rattle.boundary.specs.Boundary.{receiver_of, header_of, settings_of, packet_in, sync_in, announced_in, bare_of, one_of, two_of, pair_of, sequence_of, discovered_of, told_of, reply_of, polled_of, swept_of, heard_of, muted_of, cleared_of};

pub mod records;

use discovery_calls::Discovery;
use laws::After;
use listening::Listened;
use model::{ClearAnswer, ExpiryAnswer, ListenAnswer, MuteAnswer, PollAnswer, StepAnswer};
use packets::{DataPacket, DiscoveryPacket, SyncPacket};
use pair_tables::{DataTable, PairTable, SyncTable};
use receiver::Receiver;
use rules::{Cid, DataSequence, SyncSequence};
use sequences::SequenceNumbering;
use settings::{Settings, is_expiry_in_range};
use settings_calls::{limit_of, merge_of};
use waiting_calls::Waiting;

// The counts and notes of every table.
#[repr(C)]
#[derive(Clone, Copy)]
pub struct Header {
    pub data_pairs: usize,
    pub data_sources: usize,
    pub data_oldest: u64,
    pub sync_pairs: usize,
    pub sync_sources: usize,
    pub sync_oldest: u64,
    pub waiting: usize,
    pub listened: usize,
    pub sources: usize,
    pub pages: usize,
    pub page_universes: usize,
    pub data_tidy: bool,
    pub sync_tidy: bool,
}

// The settings. Merge is 0 for the choice by priority, any other number for the highest values; a limit of 0 is none; the discovery expiry is taken as it is.
#[repr(C)]
#[derive(Clone, Copy)]
pub struct Choices {
    pub process_preview_data: bool,
    pub announce_source_discovery: bool,
    pub announce_stream_termination: bool,
    pub announce_timeout: bool,
    pub merge: u8,
    pub source_limit: u16,
    pub discovery_expiry: u32,
}

// A data packet but for its values. A CID is two words, most significant first.
#[repr(C)]
#[derive(Clone, Copy)]
pub struct Data {
    pub hi: u64,
    pub lo: u64,
    pub universe: u16,
    pub address: u16,
    pub priority: u8,
    pub sequence: u8,
    pub preview: bool,
    pub terminated: bool,
    pub force_synchronization: bool,
}

// A synchronisation packet.
#[repr(C)]
#[derive(Clone, Copy)]
pub struct Sync {
    pub hi: u64,
    pub lo: u64,
    pub address: u16,
    pub sequence: u8,
}

// A discovery packet but for its name and its universes.
#[repr(C)]
#[derive(Clone, Copy)]
pub struct Page {
    pub hi: u64,
    pub lo: u64,
    pub page: u8,
    pub last_page: u8,
}

// The number of an answer, which values it has, and the values.
#[repr(C)]
#[derive(Clone, Copy)]
pub struct Answer {
    pub first: usize,
    pub second: usize,
    pub hi: u64,
    pub lo: u64,
    pub number: u8,
    pub values: u8,
    pub difference: i8,
}

#[repr(C)]
#[derive(Clone, Copy)]
pub struct Reply {
    pub header: Header,
    pub answer: Answer,
}

// What a setter that can refuse leaves and answers.
#[repr(C)]
#[derive(Clone, Copy)]
pub struct Adjusted {
    pub choices: Choices,
    pub number: u8,
}

pub fn receiver_of(h: Header) -> Receiver
    ensures { result ≡ receiver_of h }
{
    Receiver {
        sequences: SequenceNumbering {
            data: DataTable::of(PairTable {
                count: h.data_pairs,
                source_count: h.data_sources,
                oldest: h.data_oldest,
                tidy: h.data_tidy,
            }),
            sync: SyncTable::of(PairTable {
                count: h.sync_pairs,
                source_count: h.sync_sources,
                oldest: h.sync_oldest,
                tidy: h.sync_tidy,
            }),
        },
        waiting: Waiting { count: h.waiting },
        listened: Listened { count: h.listened },
        discovery: Discovery {
            source_count: h.sources,
            page_count: h.pages,
            used: h.page_universes,
        },
    }
}

pub fn header_of(r: Receiver) -> Header
    ensures { result ≡ header_of r }
{
    Header {
        data_pairs: r.sequences.data.table.count,
        data_sources: r.sequences.data.table.source_count,
        data_oldest: r.sequences.data.table.oldest,
        sync_pairs: r.sequences.sync.table.count,
        sync_sources: r.sequences.sync.table.source_count,
        sync_oldest: r.sequences.sync.table.oldest,
        waiting: r.waiting.count,
        listened: r.listened.count,
        sources: r.discovery.source_count,
        pages: r.discovery.page_count,
        page_universes: r.discovery.used,
        data_tidy: r.sequences.data.table.tidy,
        sync_tidy: r.sequences.sync.table.tidy,
    }
}

pub fn settings_of(c: Choices) -> Settings
    ensures { result ≡ settings_of c }
{
    Settings {
        process_preview_data: c.process_preview_data,
        announce_source_discovery: c.announce_source_discovery,
        announce_stream_termination: c.announce_stream_termination,
        announce_timeout: c.announce_timeout,
        merge: merge_of(c.merge),
        source_limit: limit_of(c.source_limit),
        discovery_expiry: c.discovery_expiry,
    }
}

pub fn data_of(d: Data) -> DataPacket
    ensures { (values : List ℕ) → packet_of result values ≡ packet_in d values }
{
    DataPacket {
        cid: Cid { hi: d.hi, lo: d.lo },
        universe: d.universe,
        address: d.address,
        priority: d.priority,
        sequence: DataSequence(d.sequence),
        preview: d.preview,
        terminated: d.terminated,
        force_synchronization: d.force_synchronization,
    }
}

pub fn sync_of(y: Sync) -> SyncPacket
    ensures { sync_of result ≡ sync_in y }
{
    SyncPacket {
        cid: Cid { hi: y.hi, lo: y.lo },
        address: y.address,
        sequence: SyncSequence(y.sequence),
    }
}

pub fn discovery_of(p: Page) -> DiscoveryPacket
    ensures { (name list : List ℕ) → announcement_of result name list ≡ announced_in p name list }
{
    DiscoveryPacket {
        cid: Cid { hi: p.hi, lo: p.lo },
        page: p.page,
        last_page: p.last_page,
    }
}

fn bare(number: u8) -> Answer
    ensures { result ≡ bare_of number }
{
    Answer {
        first: 0,
        second: 0,
        hi: 0,
        lo: 0,
        number,
        values: 0,
        difference: 0,
    }
}

fn one(number: u8, first: usize) -> Answer
    ensures { result ≡ one_of number first }
{
    Answer {
        first,
        values: 1,
        ..bare(number)
    }
}

fn released(records: usize, bytes: usize) -> Answer
    ensures { result ≡ two_of 0 records bytes }
{
    Answer {
        first: records,
        second: bytes,
        values: 2,
        ..bare(0)
    }
}

fn pair(number: u8, cid: Cid, universe: u16) -> Answer
    ensures { result ≡ pair_of number cid universe }
{
    Answer {
        first: usize::from(universe),
        hi: cid.hi,
        lo: cid.lo,
        values: 3,
        ..bare(number)
    }
}

fn sequenced(number: u8, arriving: u8, last: u8, difference: i8) -> Answer
    ensures { result ≡ sequence_of number arriving last difference }
{
    Answer {
        first: usize::from(arriving),
        second: usize::from(last),
        values: 4,
        difference,
        ..bare(number)
    }
}

fn discovered() -> Answer
    ensures { result ≡ discovered_of }
{
    Answer {
        values: 5,
        ..bare(9)
    }
}

pub fn told(a: StepAnswer) -> Answer
    ensures { result ≡ told_of a }
{
    match a {
        StepAnswer::Nothing => bare(0),
        StepAnswer::Released(records, bytes) => released(records, bytes),
        StepAnswer::TooLong(n) => one(1, n),
        StepAnswer::IllegalUniverse(u) => one(2, usize::from(u)),
        StepAnswer::UniverseTimeout(c, u) => pair(4, c, u),
        StepAnswer::UniverseTerminated(c, u) => pair(5, c, u),
        StepAnswer::SourcesExceeded(n) => one(6, n),
        StepAnswer::OutOfSequence(a, l, d) => sequenced(7, a, l, d),
        StepAnswer::DmxMergeError => bare(8),
        StepAnswer::SourceDiscovered => discovered(),
        StepAnswer::PairsFull => bare(10),
        StepAnswer::ListenedFull => bare(11),
        StepAnswer::WaitingFull => bare(12),
        StepAnswer::PagesFull => bare(13),
        StepAnswer::TooShort(n) => one(15, n),
        StepAnswer::Repeated(a, l, d) => sequenced(21, a, l, d),
    }
}

pub fn step_reply(h: After<Receiver, StepAnswer>) -> Reply
    ensures { result ≡ reply_of h }
{
    Reply {
        header: header_of(h.left),
        answer: told(h.answer),
    }
}

pub fn polled(a: PollAnswer) -> Answer
    ensures { result ≡ polled_of a }
{
    match a {
        PollAnswer::Polled => bare(0),
        PollAnswer::UniverseTimeout(c, u) => pair(4, c, u),
        PollAnswer::TooShort(n) => one(15, n),
    }
}

pub fn swept(a: ExpiryAnswer) -> Answer
    ensures { result ≡ swept_of a }
{
    match a {
        ExpiryAnswer::Swept => bare(0),
        ExpiryAnswer::TooShort(n) => one(15, n),
    }
}

pub fn heard_answer(a: ListenAnswer) -> Answer
    ensures { result ≡ heard_of a }
{
    match a {
        ListenAnswer::Listening => bare(0),
        ListenAnswer::IllegalUniverse(u) => one(2, usize::from(u)),
        ListenAnswer::ListenedFull => bare(11),
    }
}

pub fn muted(a: MuteAnswer) -> Answer
    ensures { result ≡ muted_of a }
{
    match a {
        MuteAnswer::Muted => bare(0),
        MuteAnswer::IllegalUniverse(u) => one(2, usize::from(u)),
        MuteAnswer::UniverseNotRegistered(u) => one(3, usize::from(u)),
    }
}

pub fn cleared(a: ClearAnswer) -> Answer
    ensures { result ≡ cleared_of a }
{
    match a {
        ClearAnswer::Cleared(b) => one(0, usize::from(b)),
        ClearAnswer::TooShort(n) => one(15, n),
    }
}

// A limit of 0 gives 14 and changes nothing. Else a copy with this field written: `..choices` takes over field by field, which is longer code.
pub fn with_source_limit(choices: Choices, limit: u16) -> Adjusted
    ensures set { let s = settings_of choices in
        (settings_of result.choices ≡ kept (limited limit s) s) × (result.number ≡ number_of (limited limit s)) }
    ensures left { result.number ≡ 14 → result.choices ≡ choices }
{
    if limit == 0 {
        return Adjusted {
            choices,
            number: 14,
        };
    }
    let mut changed = choices;
    changed.source_limit = limit;
    Adjusted {
        choices: changed,
        number: 0,
    }
}

// An expiry out of range gives 20 and changes nothing. A copy, as above.
pub fn with_discovery_expiry(choices: Choices, expiry: u32) -> Adjusted
    ensures set { let s = settings_of choices in
        (settings_of result.choices ≡ kept (expiring expiry s) s) × (result.number ≡ number_of (expiring expiry s)) }
    ensures left { result.number ≡ 20 → result.choices ≡ choices }
{
    if !is_expiry_in_range(expiry) {
        return Adjusted {
            choices,
            number: 20,
        };
    }
    let mut changed = choices;
    changed.discovery_expiry = expiry;
    Adjusted {
        choices: changed,
        number: 0,
    }
}
