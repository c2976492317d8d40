// A line of the script as a command: None where the line says nothing.
ghost use Rattle.std.specs.Prelude.{◌≡◌, List, ℕ, length};
ghost use Rattle.script.specs.Fields.{number_of};
ghost use Rattle.script.specs.Script.{first_of, rest_of, past_five, lone_of, record_word, setting_word, call_word, word_of, setting_of, universe_of, reading_of, merge_of, limit_of, expiry_of, raw_limit_of, raw_expiry_of, store_of, layouts_of, load_of, record_of, stamp_of, numbers_of, data_packet, data_of, sync_of, discovery_of, listen_of, fields_of, line_of, Reads};

use crate::line_fields::{
    field_end, parse_byte_string, parse_flag, parse_list, parse_number, parse_octet, parse_options,
    parse_small, parse_source,
};
use packets::{DataPacket, DiscoveryPacket, SyncPacket};
use rules::{Cid, DataSequence, SyncSequence};
use settings::MergeChoice;
use settings_store::Layouts;

// A data packet, its reading and how many values stand in the lent bytes.
#[derive(Clone, Copy)]
pub struct DataLine {
    pub now: u64,
    pub packet: DataPacket,
    pub count: usize,
}

#[derive(Clone, Copy)]
pub struct SyncLine {
    pub now: u64,
    pub packet: SyncPacket,
}

// A discovery packet, its reading and how many bytes of name and universes stand in the lent memory.
#[derive(Clone, Copy)]
pub struct PageLine {
    pub now: u64,
    pub packet: DiscoveryPacket,
    pub name: usize,
    pub count: usize,
}

// What a setter sets.
#[derive(Clone, Copy)]
pub enum Setting {
    Preview(bool),
    AnnounceDiscovery(bool),
    AnnounceTermination(bool),
    AnnounceTimeout(bool),
    Merge(MergeChoice),
    NoLimit,
    Limit(u16),
    Expiry(u32),
    // Past the setter.
    RawLimit(u16),
    RawExpiry(u32),
}

// What is done with the settings as a whole.
#[derive(Clone, Copy)]
pub enum SettingsLine {
    // The writer is lent so many bytes.
    Store(u8),
    // How many bytes stand in the lent memory, and the layouts that the reader knows.
    Load(usize, Layouts),
    Show,
}

// What a reset forgets: the sources altogether, or one half.
#[derive(Clone, Copy)]
pub enum Reset {
    Sources,
    Pairs,
    Discovery,
}

#[derive(Clone, Copy)]
pub enum Command {
    Fresh,
    Set(Setting),
    Settings(SettingsLine),
    // How many universes stand in the lent list.
    Listen(usize),
    Mute(u16),
    Listening(u16),
    Poll(u64),
    Sweep(u64),
    Clear(u16),
    ClearAll,
    Reset(Reset),
    Data(DataLine),
    Sync(SyncLine),
    Discovery(PageLine),
    Dump,
}

// The first word of a line with fields.
#[derive(Clone, Copy)]
pub enum SettingWord {
    Preview,
    Discovery,
    Termination,
    Timeout,
}

// Words of the settings record, and of values that its writer refuses.
#[derive(Clone, Copy)]
pub enum RecordWord {
    RawLimit,
    RawExpiry,
    Store,
    Load,
}

#[derive(Clone, Copy)]
pub enum UniverseWord {
    Mute,
    Listening,
    Clear,
}

#[derive(Clone, Copy)]
pub enum ReadingWord {
    Poll,
    Sweep,
}

#[derive(Clone, Copy)]
pub enum Word {
    Data,
    Sync,
    Discovery,
    Listen,
    Merge,
    Limit,
    Expiry,
    Setting(SettingWord),
    Record(RecordWord),
    Universe(UniverseWord),
    Reading(ReadingWord),
}

// The first field.
fn first(text: &[u8]) -> &[u8]
    ensures { result.now ≡ first_of text.now }
{
    &text[..field_end(text, b' ')]
}

// What stands behind the first field and its space; nothing where there is no space.
fn rest(text: &[u8]) -> &[u8]
    ensures { result.now ≡ rest_of text.now }
{
    let e = field_end(text, b' ');
    if e < text.len() {
        &text[e + 1..]
    } else {
        &text[e..]
    }
}

// A `match` on the words gets no proof: it compares byte after byte, and each place where a word may differ is a goal of its own.
#[tactic(auto, unfolding(crate::specs::Script::record_word))]
fn record_word(word: &[u8]) -> Option<Word>
    ensures { result ≡ record_word word.now }
{
    if word == b"raw_limit".as_slice() {
        Some(Word::Record(RecordWord::RawLimit))
    } else if word == b"raw_expiry".as_slice() {
        Some(Word::Record(RecordWord::RawExpiry))
    } else if word == b"store_settings".as_slice() {
        Some(Word::Record(RecordWord::Store))
    } else if word == b"load_settings".as_slice() {
        Some(Word::Record(RecordWord::Load))
    } else {
        None
    }
}

#[tactic(auto, unfolding(crate::specs::Script::setting_word))]
fn setting_word(word: &[u8]) -> Option<Word>
    ensures { result ≡ setting_word word.now }
{
    if word == b"preview".as_slice() {
        Some(Word::Setting(SettingWord::Preview))
    } else if word == b"announce_discovery".as_slice() {
        Some(Word::Setting(SettingWord::Discovery))
    } else if word == b"announce_termination".as_slice() {
        Some(Word::Setting(SettingWord::Termination))
    } else if word == b"announce_timeout".as_slice() {
        Some(Word::Setting(SettingWord::Timeout))
    } else if word == b"merge".as_slice() {
        Some(Word::Merge)
    } else if word == b"limit".as_slice() {
        Some(Word::Limit)
    } else if word == b"expiry".as_slice() {
        Some(Word::Expiry)
    } else {
        record_word(word)
    }
}

#[tactic(auto, unfolding(crate::specs::Script::call_word))]
fn call_word(word: &[u8]) -> Option<Word>
    ensures { result ≡ call_word word.now }
{
    if word == b"listen".as_slice() {
        Some(Word::Listen)
    } else if word == b"mute".as_slice() {
        Some(Word::Universe(UniverseWord::Mute))
    } else if word == b"listening".as_slice() {
        Some(Word::Universe(UniverseWord::Listening))
    } else if word == b"clear".as_slice() {
        Some(Word::Universe(UniverseWord::Clear))
    } else if word == b"poll".as_slice() {
        Some(Word::Reading(ReadingWord::Poll))
    } else if word == b"sweep".as_slice() {
        Some(Word::Reading(ReadingWord::Sweep))
    } else {
        setting_word(word)
    }
}

// Packets are the most frequent, so their words are looked for first.
fn parse_word(word: &[u8]) -> Option<Word>
    ensures { result ≡ word_of word.now }
{
    if word == b"data".as_slice() {
        Some(Word::Data)
    } else if word == b"sync".as_slice() {
        Some(Word::Sync)
    } else if word == b"discovery".as_slice() {
        Some(Word::Discovery)
    } else {
        call_word(word)
    }
}

fn parse_merge(field: &[u8]) -> Option<Command>
    ensures { result ≡ merge_of field.now }
{
    let choice = if field == b"priority".as_slice() {
        MergeChoice::DiscardLowestPriorityThenPrevious
    } else if field == b"highest".as_slice() {
        MergeChoice::HtpDmxMerge
    } else {
        return None;
    };
    Some(Command::Set(Setting::Merge(choice)))
}

fn parse_limit(field: &[u8]) -> Option<Command>
    ensures { result ≡ limit_of field.now }
{
    match field {
        b"none" => Some(Command::Set(Setting::NoLimit)),
        _ => Some(Command::Set(Setting::Limit(parse_small(field)?))),
    }
}

// A number of 32 bits.
fn parse_medium(field: &[u8]) -> Option<u32>
    ensures { result ≡ number_of 4294967295 field.now }
{
    u32::try_from(parse_number(field, 0xFFFF_FFFF)?).ok()
}

fn parse_expiry(field: &[u8]) -> Option<Command>
    ensures { result ≡ expiry_of field.now }
{
    Some(Command::Set(Setting::Expiry(parse_medium(field)?)))
}

fn parse_raw_limit(field: &[u8]) -> Option<Command>
    ensures { result ≡ raw_limit_of field.now }
{
    Some(Command::Set(Setting::RawLimit(parse_small(field)?)))
}

fn parse_raw_expiry(field: &[u8]) -> Option<Command>
    ensures { result ≡ raw_expiry_of field.now }
{
    Some(Command::Set(Setting::RawExpiry(parse_medium(field)?)))
}

fn parse_store(field: &[u8]) -> Option<Command>
    ensures { result ≡ store_of field.now }
{
    let n = u8::try_from(parse_number(field, 64)?).ok()?;
    Some(Command::Settings(SettingsLine::Store(n)))
}

// The layouts that a reader is to know: both, or the first alone where a second field says 1.
fn parse_layouts(fields: &[u8]) -> Option<Layouts>
    ensures { result ≡ layouts_of fields.now }
{
    if fields.len() <= field_end(fields, b' ') {
        return Some(Layouts::Both);
    }
    match rest(fields) {
        b"1" => Some(Layouts::First),
        _ => None,
    }
}

fn parse_load(fields: &[u8], bytes: &mut [u8]) -> Option<Command>
    ensures { (us : List ℕ) → Reads (load_of (length «bytes».old) fields.now) result «bytes».new
        us }
{
    let layouts = parse_layouts(fields)?;
    let n = parse_byte_string(first(fields), bytes)?;
    Some(Command::Settings(SettingsLine::Load(n, layouts)))
}

fn parse_record(word: RecordWord, fields: &[u8], bytes: &mut [u8]) -> Option<Command>
    ensures { (us : List ℕ) → Reads (record_of (length «bytes».old) word fields.now) result
        «bytes».new us }
{
    match word {
        RecordWord::RawLimit => parse_raw_limit(fields),
        RecordWord::RawExpiry => parse_raw_expiry(fields),
        RecordWord::Store => parse_store(fields),
        RecordWord::Load => parse_load(fields, bytes),
    }
}

// What a packet's fields have in front: the reading and the CID.
#[derive(Clone, Copy)]
pub struct Stamp {
    pub now: u64,
    pub cid: Cid,
}

fn parse_stamp(fields: &[u8]) -> Option<Stamp>
    ensures { result ≡ stamp_of fields.now }
{
    let now = parse_number(first(fields), u64::MAX)?;
    let cid = parse_source(first(rest(fields)))?;
    Some(Stamp { now, cid })
}

// The numbers of a data packet.
#[derive(Clone, Copy)]
pub struct DataNumbers {
    pub universe: u16,
    pub address: u16,
    pub priority: u8,
    pub sequence: u8,
    pub options: u8,
}

fn parse_data_numbers(fields: &[u8]) -> Option<DataNumbers>
    ensures { result ≡ numbers_of fields.now }
{
    let universe = parse_small(first(fields))?;
    let second = rest(fields);
    let address = parse_small(first(second))?;
    let third = rest(second);
    let priority = parse_octet(first(third))?;
    let fourth = rest(third);
    let sequence = parse_octet(first(fourth))?;
    let options = parse_options(first(rest(fourth)))?;
    Some(DataNumbers {
        universe,
        address,
        priority,
        sequence,
        options,
    })
}

fn data_packet(cid: Cid, n: DataNumbers) -> DataPacket
    ensures { result ≡ data_packet cid n }
{
    DataPacket {
        cid,
        universe: n.universe,
        address: n.address,
        priority: n.priority,
        sequence: DataSequence(n.sequence),
        preview: n.options / 128 % 2 == 1,
        terminated: n.options / 64 % 2 == 1,
        force_synchronization: n.options / 32 % 2 == 1,
    }
}

// Without the first five fields.
fn past_five(fields: &[u8]) -> &[u8]
    ensures { result.now ≡ past_five fields.now }
{
    rest(rest(rest(rest(rest(fields)))))
}

fn parse_data(fields: &[u8], bytes: &mut [u8]) -> Option<Command>
    ensures { (us : List ℕ) → Reads (data_of (length «bytes».old) fields.now) result «bytes».new
        us }
{
    let stamp = parse_stamp(fields)?;
    let third = rest(rest(fields));
    let numbers = parse_data_numbers(third)?;
    let count = parse_byte_string(past_five(third), bytes)?;
    Some(Command::Data(DataLine {
        now: stamp.now,
        packet: data_packet(stamp.cid, numbers),
        count,
    }))
}

fn parse_sync(fields: &[u8]) -> Option<Command>
    ensures { result ≡ sync_of fields.now }
{
    let stamp = parse_stamp(fields)?;
    let third = rest(rest(fields));
    let address = parse_small(first(third))?;
    let sequence = parse_octet(rest(third))?;
    Some(Command::Sync(SyncLine {
        now: stamp.now,
        packet: SyncPacket {
            cid: stamp.cid,
            address,
            sequence: SyncSequence(sequence),
        },
    }))
}

fn parse_discovery(fields: &[u8], bytes: &mut [u8], list: &mut [u16]) -> Option<Command>
    ensures { Reads (discovery_of (length «bytes».old) (length list.old) fields.now) result
        «bytes».new list.new }
{
    let stamp = parse_stamp(fields)?;
    let third = rest(rest(fields));
    let page = parse_octet(first(third))?;
    let fourth = rest(third);
    let last_page = parse_octet(first(fourth))?;
    let fifth = rest(fourth);
    let name = parse_byte_string(first(fifth), bytes)?;
    let count = parse_list(rest(fifth), list)?;
    Some(Command::Discovery(PageLine {
        now: stamp.now,
        packet: DiscoveryPacket {
            cid: stamp.cid,
            page,
            last_page,
        },
        name,
        count,
    }))
}

fn parse_setting(word: SettingWord, field: &[u8]) -> Option<Command>
    ensures { result ≡ setting_of word field.now }
{
    let on = parse_flag(field)?;
    Some(Command::Set(match word {
        SettingWord::Preview => Setting::Preview(on),
        SettingWord::Discovery => Setting::AnnounceDiscovery(on),
        SettingWord::Termination => Setting::AnnounceTermination(on),
        SettingWord::Timeout => Setting::AnnounceTimeout(on),
    }))
}

fn parse_universe(word: UniverseWord, field: &[u8]) -> Option<Command>
    ensures { result ≡ universe_of word field.now }
{
    let universe = parse_small(field)?;
    Some(match word {
        UniverseWord::Mute => Command::Mute(universe),
        UniverseWord::Listening => Command::Listening(universe),
        UniverseWord::Clear => Command::Clear(universe),
    })
}

fn parse_reading(word: ReadingWord, field: &[u8]) -> Option<Command>
    ensures { result ≡ reading_of word field.now }
{
    let now = parse_number(field, u64::MAX)?;
    Some(match word {
        ReadingWord::Poll => Command::Poll(now),
        ReadingWord::Sweep => Command::Sweep(now),
    })
}

fn parse_listen(field: &[u8], list: &mut [u16]) -> Option<Command>
    ensures { (bs : List ℕ) → Reads (listen_of (length list.old) field.now) result bs list.new }
{
    Some(Command::Listen(parse_list(field, list)?))
}

// A line of one word.
fn parse_lone(word: &[u8]) -> Option<Command>
    ensures { result ≡ lone_of word.now }
{
    if word == b"fresh".as_slice() {
        Some(Command::Fresh)
    } else if word == b"clear_all".as_slice() {
        Some(Command::ClearAll)
    } else if word == b"reset".as_slice() {
        Some(Command::Reset(Reset::Sources))
    } else if word == b"reset_pairs".as_slice() {
        Some(Command::Reset(Reset::Pairs))
    } else if word == b"reset_discovery".as_slice() {
        Some(Command::Reset(Reset::Discovery))
    } else if word == b"dump".as_slice() {
        Some(Command::Dump)
    } else if word == b"settings".as_slice() {
        Some(Command::Settings(SettingsLine::Show))
    } else {
        None
    }
}

// A word with what stands behind its space.
fn parse_fields(word: Word, fields: &[u8], bytes: &mut [u8], list: &mut [u16]) -> Option<Command>
    ensures { Reads (fields_of (length «bytes».old) (length list.old) word fields.now) result
        «bytes».new list.new }
{
    match word {
        Word::Data => parse_data(fields, bytes),
        Word::Sync => parse_sync(fields),
        Word::Discovery => parse_discovery(fields, bytes, list),
        Word::Listen => parse_listen(fields, list),
        Word::Merge => parse_merge(fields),
        Word::Limit => parse_limit(fields),
        Word::Expiry => parse_expiry(fields),
        Word::Setting(w) => parse_setting(w, fields),
        Word::Record(w) => parse_record(w, fields, bytes),
        Word::Universe(w) => parse_universe(w, fields),
        Word::Reading(w) => parse_reading(w, fields),
    }
}

pub fn parse_line(line: &[u8], bytes: &mut [u8], list: &mut [u16]) -> Option<Command>
    ensures { Reads (line_of (length «bytes».old) (length list.old) line.now) result
        «bytes».new list.new }
{
    if line.len() <= field_end(line, b' ') {
        return parse_lone(line);
    }
    let word = parse_word(first(line))?;
    parse_fields(word, rest(line), bytes, list)
}
