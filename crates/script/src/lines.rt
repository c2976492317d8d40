// Lines of standard input, read in chunks.
ghost use Rattle.std.specs.Prelude.{◌≡◌, ◌||◌, ◌≤◌, ltb, length, take};
ghost use Rattle.script.specs.Lines.{Unread, Appended, Pieced, unreturned};

use crate::line_fields::field_end;
use std::io::{Read, Stdin};

// The bytes of the chunk that are still to be read, and whether reading has failed.
#[derive(Clone, Copy)]
pub struct Input {
    pub at: usize,
    pub end: usize,
    pub failed: bool,
}

// A line as far as it was read: how many of its bytes are kept, and whether there were more. It is over at its end, or where the input ends.
#[derive(Clone, Copy)]
pub struct Line {
    pub input: Input,
    pub length: usize,
    pub long: bool,
    pub over: bool,
    pub ended: bool,
}

impl Input {
    pub fn new() -> Input
        ensures { (result.at ≡ 0) × (result.end ≡ 0) }
    {
        Input {
            at: 0,
            end: 0,
            failed: false,
        }
    }
}

// A new chunk once all of the last one is read. At the end of the input there is none, nor where it cannot be read.
fn refill(mut from: Stdin, input: Input, chunk: &mut [u8]) -> Input
    requires { Unread input.at input.end chunk.old }
    ensures { Unread result.at result.end chunk.new }
{
    if input.at < input.end {
        return input;
    }
    match from.read(chunk) {
        Ok(end) => Input {
            at: 0,
            end,
            failed: false,
        },
        Err(_) => Input {
            at: 0,
            end: 0,
            failed: true,
        },
    }
}

// The part put behind the first bytes of the line, as far as there is room.
fn append(line: &mut [u8], n: usize, part: &[u8]) -> usize
    requires { n ≤ length line.old }
    ensures { Appended line.old n part.now line.new result }
{
    let end = n + (line.len() - n).min(part.len());
    line[n..end].copy_from_slice(&part[..end - n]);
    end
}

// Fewer bytes were kept than there were, now or before.
pub fn is_longer(before: bool, kept: usize, all: usize) -> bool
    ensures { result ≡ (before || ltb kept all) }
{
    before || kept < all
}

// The first n bytes without a carriage return at their end.
#[tactic(auto, unfolding(crate::specs::Lines::unreturned))]
pub fn without_return(text: &[u8], n: usize) -> &[u8]
    requires { n ≤ length text.now }
    ensures { result.now ≡ unreturned (take n text.now) }
{
    match &text[..n] {
        [line @ .., b'\r'] => line,
        line => line,
    }
}

// The chunk's bytes up to the line's end or the chunk's.
fn take_piece(line: Line, chunk: &[u8], text: &mut [u8]) -> Line
    requires { Unread line.input.at line.input.end chunk.now × (line.length ≤ length text.old) }
    ensures { Pieced line chunk.now text.old result text.new }
{
    let Input { at, end, .. } = line.input;
    let rest = &chunk[at..end];
    let e = field_end(rest, b'\n');
    let length = append(text, line.length, &rest[..e]);
    let over = e < rest.len();
    Line {
        input: Input {
            at: if over { at + e + 1 } else { end },
            ..line.input
        },
        length,
        long: is_longer(line.long, length - line.length, e),
        over,
        ..line
    }
}

// One piece more of a line. Where the input ends, what there is of a line counts; where it cannot be read, nothing does.
fn gather(from: Stdin, line: Line, chunk: &mut [u8], text: &mut [u8]) -> Line
    requires { Unread line.input.at line.input.end chunk.old × (line.length ≤ length text.old) }
    ensures { Unread result.input.at result.input.end chunk.new × (result.length ≤ length text.new) }
{
    let input = refill(from, line.input, chunk);
    if input.at < input.end {
        take_piece(Line { input, ..line }, chunk, text)
    } else {
        Line {
            input,
            over: true,
            ended: input.failed || line.length == 0,
            ..line
        }
    }
}

// The next line; none where the input has ended. Nothing says that an input ends, so the pieces are counted, up to a number that no run comes to.
pub fn next_line(from: Stdin, input: Input, chunk: &mut [u8], text: &mut [u8]) -> Line
    requires { Unread input.at input.end chunk.old }
    ensures { Unread result.input.at result.input.end chunk.new × (result.length ≤ length text.new) }
{
    let mut line = Line {
        input,
        length: 0,
        long: false,
        over: false,
        ended: false,
    };
    for _ in 0..u64::MAX {
        line = gather(from, line, chunk, text);
        if line.over {
            return line;
        }
    }
    Line {
        length: 0,
        long: false,
        over: true,
        ended: true,
        ..line
    }
}
