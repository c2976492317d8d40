// The fields of a line: decimal numbers, CIDs, byte strings, lists. Any bytes get an answer: None where a field is not what is asked for.
ghost use Rattle.std.specs.Prelude.{◌≡◌, ◌≤◌, length, take};
ghost use Rattle.script.specs.Fields.{with_digit, number_of, small_of, octet_of, flag_of, nibble_of, lowered, two_digits, hex_of, byte_string_of, fitting, split, list_of, ending, options_of, source_of, Decoded};

use rules::Cid;

// How many bytes stand before the first mark, or in all.
pub fn field_end(text: &[u8], mark: u8) -> usize
    ensures within { result ≤ length text.now }
    ensures counts { result ≡ length (take result text.now) }
    ensures at { result ≡ ending mark text.now }
{
    text.iter().take_while(|b| **b != mark).count()
}

// One decimal digit more, if the number stays within the limit.
fn with_digit(value: u64, digit: u8, most: u64) -> Option<u64>
    ensures { result ≡ with_digit most value digit }
{
    if !digit.is_ascii_digit() {
        return None;
    }
    value
        .checked_mul(10)?
        .checked_add(u64::from(digit - b'0'))
        .filter(|n| *n <= most)
}

pub fn parse_number(field: &[u8], most: u64) -> Option<u64>
    ensures { result ≡ number_of most field.now }
{
    if field.is_empty() {
        return None;
    }
    let mut value = 0;
    for digit in field {
        value = with_digit(value, *digit, most)?;
    }
    Some(value)
}

#[tactic(auto, using(crate::specs::FieldLaws::narrowed))]
pub fn parse_small(field: &[u8]) -> Option<u16>
    ensures { result ≡ small_of field.now }
{
    u16::try_from(parse_number(field, 65535)?).ok()
}

#[tactic(auto, using(crate::specs::FieldLaws::narrowed))]
pub fn parse_octet(field: &[u8]) -> Option<u8>
    ensures { result ≡ octet_of field.now }
{
    u8::try_from(parse_number(field, 255)?).ok()
}

// A sum of 128, 64 and 32.
pub fn parse_options(field: &[u8]) -> Option<u8>
    ensures { result ≡ options_of (octet_of field.now) }
{
    parse_octet(field).filter(|n| *n % 32 == 0)
}

pub fn parse_flag(field: &[u8]) -> Option<bool>
    ensures { result ≡ flag_of field.now }
{
    match field {
        b"0" => Some(false),
        b"1" => Some(true),
        _ => None,
    }
}

// A hexadecimal digit's value.
fn nibble(digit: u8) -> Option<u8>
    ensures { result ≡ nibble_of digit }
{
    match digit {
        b'0'..=b'9' => Some(digit - b'0'),
        b'a'..=b'f' => Some(digit - b'a' + 10),
        _ => None,
    }
}

// A capital digit as a small one, where capitals are taken.
fn lower(digit: u8, capitals: bool) -> u8
    ensures { result ≡ lowered capitals digit }
{
    match digit {
        b'A'..=b'F' if capitals => digit + 32,
        _ => digit,
    }
}

fn two_digits(high: u8, low: u8) -> Option<u8>
    ensures { result ≡ two_digits high low }
{
    Some(nibble(high)? * 16 + nibble(low)?)
}

// Two digits to a byte, if there is room for all.
fn hex_bytes(field: &[u8], capitals: bool, out: &mut [u8]) -> Option<usize>
    ensures { Decoded (hex_of capitals (length out.old) field.now) result out.new }
{
    let count = field.len() / 2;
    if out.len() < count || field.len() % 2 != 0 {
        return None;
    }
    for n in 0..count {
        let high = lower(field[2 * n], capitals);
        let low = lower(field[2 * n + 1], capitals);
        out[n] = two_digits(high, low)?;
    }
    Some(count)
}

pub fn parse_byte_string(field: &[u8], out: &mut [u8]) -> Option<usize>
    ensures { Decoded (byte_string_of (length out.old) field.now) result out.new }
{
    match field {
        b"" => None,
        b"-" => Some(0),
        _ => hex_bytes(field, false, out),
    }
}

pub fn parse_source(field: &[u8]) -> Option<Cid>
    ensures { result ≡ source_of field.now }
{
    let mut bytes = [0; 16];
    if hex_bytes(field, true, &mut bytes)? == 16 {
        Some(Cid::from_bytes(bytes))
    } else {
        None
    }
}

// Numbers separated by commas, if there is room for all.
fn parse_numbers(field: &[u8], out: &mut [u16]) -> Option<usize>
    ensures { Decoded (fitting (length out.old) (split 44 field.now)) result out.new }
{
    let mut rest = field;
    for n in 0..out.len() {
        let e = field_end(rest, b',');
        out[n] = parse_small(&rest[..e])?;
        if rest.len() <= e {
            return Some(n + 1);
        }
        rest = &rest[e + 1..];
    }
    None
}

pub fn parse_list(field: &[u8], out: &mut [u16]) -> Option<usize>
    ensures { Decoded (list_of (length out.old) field.now) result out.new }
{
    match field {
        b"-" => Some(0),
        _ => parse_numbers(field, out),
    }
}
