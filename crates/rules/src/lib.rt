// Document 01, 'Number rules': universes, sequence numbers, ages, CIDs.

#![tactic(auto)]

ghost use Rattle.std.specs.Prelude.{◌≡◌, ℕ, ◌-◌, [], ◌∷◌, unsigned_abs};
ghost use Rattle.rules.specs.Universe.{legal};
ghost use Rattle.rules.specs.Sequence.{wrapped, signed, difference, judged, number_of, number_at};
ghost use Rattle.rules.specs.Age.{age, aged, expired};
ghost use Rattle.rules.specs.Cid.{cid_of, cid_bytes, same, before};
ghost use Rattle.rules.specs.Bytes.{number, big_endian, turned_of};

// The sequence number of a data packet. Document 01 names this type and the next, so that they are not one generic type.
#[derive(Clone, Copy)]
pub struct DataSequence(pub u8);

// The sequence number of a synchronisation packet; the two are counted apart.
#[derive(Clone, Copy)]
pub struct SyncSequence(pub u8);

// A source's 16 bytes as two words, most significant first; the derived order is by `hi`, then by `lo`.
#[derive(Clone, Copy, PartialEq, Eq, PartialOrd, Ord)]
pub struct Cid {
    pub hi: u64,
    pub lo: u64,
}

// The universes that data and synchronisation may use. Document 01 names this form, a match with ranges.
pub fn is_universe_in_range(universe: u16) -> bool
    ensures { result ≡ legal universe }
{
    match universe {
        0 => false,
        1..=63999 => true,
        64000..=64213 => false,
        64214 => true,
        _ => false,
    }
}

// A byte read as signed: 0 to 127 as it is, 128 to 255 as -128 to -1.
pub fn read_signed(d: u8) -> i8
    ensures { result ≡ signed d }
{
    d.cast_signed()
}

// Arriving minus last, modulo 256 and read as signed.
pub fn sequence_difference(arriving: u8, last: u8) -> i8
    ensures { result ≡ difference arriving last }
{
    read_signed(arriving.wrapping_sub(last))
}

// A difference without its sign, 0 to 128.
pub fn magnitude(d: i8) -> u8
    ensures { result ≡ unsigned_abs d }
{
    d.unsigned_abs()
}

// What the sequence rule answers (document 02, F-4). An enum by document 01's rule on answers: each case has its number and values.
#[derive(Clone, Copy)]
pub enum SequenceAnswer {
    Accepted,
    // Number 21.
    Repeated,
    // Number 7.
    Late,
}

// By the difference: 0 is repeated, -19 to -1 late, all else accepted.
pub fn sequence_answer(d: i8) -> SequenceAnswer
    ensures value { result ≡ judged d }
    ensures told { number_of result ≡ number_at d }
{
    match d {
        0 => SequenceAnswer::Repeated,
        -19..=-1 => SequenceAnswer::Late,
        _ => SequenceAnswer::Accepted,
    }
}

// Now minus the reading, zero if that is negative.
pub fn age_of(now: u64, reading: u64) -> u64
    ensures { result ≡ age now reading }
{
    now.saturating_sub(reading)
}

// As old as the given time, or older.
pub fn has_aged(time: u64, now: u64, reading: u64) -> bool
    ensures { result ≡ aged time now reading }
{
    time <= age_of(now, reading)
}

// The network data loss timeout, in milliseconds.
pub const E131_NETWORK_DATA_LOSS_TIMEOUT: u64 = 2500;

pub fn is_expired(now: u64, reading: u64) -> bool
    ensures { result ≡ expired now reading }
{
    has_aged(E131_NETWORK_DATA_LOSS_TIMEOUT, now, reading)
}

// A word with its bytes the other way round. Listed from the lowest on they are stored at once, where those of the
// word, listed from the highest on, are stored one by one.
#[tactic(auto, using(crate::proofs::BytesLaws::turned_word))]
pub fn turned(h: u64) -> u64
    ensures { result ≡ turned_of h }
{
    h.swap_bytes()
}

impl Cid {
    pub fn from_bytes(b: [u8; 16]) -> Cid
        ensures { result ≡ cid_of b }
    {
        Cid {
            hi: u64::from_be_bytes([b[0], b[1], b[2], b[3], b[4], b[5], b[6], b[7]]),
            lo: u64::from_be_bytes([b[8], b[9], b[10], b[11], b[12], b[13], b[14], b[15]]),
        }
    }

    #[tactic(auto, using(crate::proofs::BytesLaws::turned_bytes))]
    pub fn to_bytes(self) -> [u8; 16]
        ensures { result ≡ cid_bytes self }
    {
        let mut bytes = [0; 16];
        bytes[..8].copy_from_slice(&turned(self.hi).to_le_bytes());
        bytes[8..].copy_from_slice(&turned(self.lo).to_le_bytes());
        bytes
    }

    // Whether the sixteen bytes are the same (law same_words).
    pub fn is_same(self, other: Cid) -> bool
        ensures { result ≡ same self other }
    {
        self == other
    }

    // The order of the sixteen bytes (law before_words). By hand, less asked first: with the derived `<` an arrival among 1,000 pairs takes
    // three times as long (decision 22).
    #[tactic(auto, unfolding(laws::specs::Order::before_by))]
    pub fn is_before(self, other: Cid) -> bool
        ensures { result ≡ before self other }
    {
        if self.hi < other.hi {
            true
        } else if other.hi < self.hi {
            false
        } else {
            self.lo < other.lo
        }
    }
}
