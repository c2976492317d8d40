// What is printed gathers in a lent buffer, which goes to standard output whenever it is full. The buffer's last byte is a mark: not 0 once a write has failed.
ghost use Rattle.std.specs.Prelude.{◌≡◌, [], ◌∷◌, ◌≤◌, ◌<◌, length};
ghost use Rattle.printing.specs.Text.{decimal_of, signed_of, bit_of, hex_text, cid_text, byte_text, tail_text, list_text, marked, Ready, Tells};
ghost use Rattle.io.specs.Digits.{hex_digit_ascii as Digits·glyph};

use rules::Cid;
use std::io::Stdout;

// The first bytes of the buffer go out; answers whether all of them did. std promises nothing of what it writes, so no more is promised here.
pub fn flush(to: Stdout, out: &[u8], at: usize) -> bool
    requires { at ≤ length out.now }
{
    to.write_all(&out[..at]).is_ok()
}

// Has a write failed on the way.
pub fn has_failed(out: &[u8]) -> bool
    requires { 1 < length out.now }
    ensures { result ≡ marked out.now }
{
    out[out.len() - 1] != 0
}

pub fn put(to: Stdout, out: &mut [u8], at: usize, b: u8) -> usize
    requires { Ready at out.old }
    ensures { Tells (b ∷ []) out.old at out.new result }
{
    let last = out.len() - 1;
    if at < last {
        out[at] = b;
        return at + 1;
    }
    if !flush(to, out, at) {
        out[last] = 1;
    }
    out[0] = b;
    1
}

pub fn put_text(to: Stdout, out: &mut [u8], at: usize, text: &[u8]) -> usize
    requires { Ready at out.old }
    ensures { Tells text.now out.old at out.new result }
{
    let mut n = at;
    for b in text {
        n = put(to, out, n, *b);
    }
    n
}

pub fn put_decimal(to: Stdout, out: &mut [u8], at: usize, n: u64) -> usize
    requires { Ready at out.old }
    ensures { Tells (decimal_of n) out.old at out.new result }
{
    let mut digits = [0u8; 20];
    let k = io::decimal(n, &mut digits);
    put_text(to, out, at, &digits[..k])
}

pub fn put_signed(to: Stdout, out: &mut [u8], at: usize, n: i8) -> usize
    requires { Ready at out.old }
    ensures { Tells (signed_of n) out.old at out.new result }
{
    let magnitude = u64::from(n.unsigned_abs());
    if n < 0 {
        let a = put(to, out, at, b'-');
        put_decimal(to, out, a, magnitude)
    } else {
        put_decimal(to, out, at, magnitude)
    }
}

pub fn put_bit(to: Stdout, out: &mut [u8], at: usize, on: bool) -> usize
    requires { Ready at out.old }
    ensures { Tells (bit_of on) out.old at out.new result }
{
    put(to, out, at, if on { b'1' } else { b'0' })
}

fn glyph(digit: u8) -> u8
    requires { digit ≤ 15 }
    ensures { result ≡ Digits·glyph digit }
{
    if digit < 10 {
        b'0' + digit
    } else {
        b'a' - 10 + digit
    }
}

pub fn put_hex(to: Stdout, out: &mut [u8], at: usize, bytes: &[u8]) -> usize
    requires { Ready at out.old }
    ensures { Tells (hex_text bytes.now) out.old at out.new result }
{
    let mut n = at;
    for b in bytes {
        n = put(to, out, n, glyph(*b / 16));
        n = put(to, out, n, glyph(*b % 16));
    }
    n
}

pub fn put_cid(to: Stdout, out: &mut [u8], at: usize, cid: Cid) -> usize
    requires { Ready at out.old }
    ensures { Tells (cid_text cid) out.old at out.new result }
{
    put_hex(to, out, at, &cid.to_bytes())
}

pub fn put_byte_string(to: Stdout, out: &mut [u8], at: usize, bytes: &[u8]) -> usize
    requires { Ready at out.old }
    ensures { Tells (byte_text bytes.now) out.old at out.new result }
{
    if bytes.is_empty() {
        put(to, out, at, b'-')
    } else {
        put_hex(to, out, at, bytes)
    }
}

// A comma and a number for each number from this place on.
fn put_numbers(to: Stdout, out: &mut [u8], at: usize, list: &[u16]) -> usize
    requires { Ready at out.old }
    ensures { Tells (tail_text list.now) out.old at out.new result }
{
    let mut n = at;
    for u in list {
        n = put(to, out, n, b',');
        n = put_decimal(to, out, n, u64::from(*u));
    }
    n
}

pub fn put_list(to: Stdout, out: &mut [u8], at: usize, list: &[u16]) -> usize
    requires { Ready at out.old }
    ensures { Tells (list_text list.now) out.old at out.new result }
{
    match list {
        [] => put(to, out, at, b'-'),
        [first, others @ ..] => {
            let a = put_decimal(to, out, at, u64::from(*first));
            put_numbers(to, out, a, others)
        }
    }
}
