// Whole lines of standard input, handed out of a lent buffer. What was read is handed out line by line before more is
// read, so that a program answers all of it first.
ghost use Rattle.std.specs.Prelude.{◌≡◌, ◌≤◌, length};
ghost use Rattle.lines.specs.Input.{Holds, input_bytes};

use crate::fields::{is_blank, is_comment};
use crate::scan::find;
use std::io::{Read, Stdin};

// The longest line, without its line end.
pub const LONGEST: usize = 32768;

// The most bytes of a read.
const READ_BYTES: usize = 65536;

// A line that is too long is kept up to the first byte too many, and a read goes behind it.
pub const INPUT_BYTES: usize = LONGEST + 1 + READ_BYTES;

pub type Input = [u8; INPUT_BYTES];

// Where the input is.
#[derive(Clone, Copy, PartialEq, Eq)]
pub enum Stage {
    // More may be read.
    Open,
    // The last read came to its end.
    Ended,
    // The last line was handed out.
    Done,
    // The last read failed.
    Failed,
}

// Where the bytes are read from. Those from `start` to `end` of the buffer have not been handed out; `lines` lines
// have. The buffer stands beside it: a method that lends a line would hold all of it while the line is answered.
#[derive(Clone, Copy)]
pub struct Held {
    pub from: Stdin,
    pub start: usize,
    pub end: usize,
    pub lines: u64,
    pub stage: Stage,
}

// Before the first read.
pub fn none(from: Stdin) -> Held
    ensures { Holds result }
{
    Held {
        from,
        start: 0,
        end: 0,
        lines: 0,
        stage: Stage::Open,
    }
}

// Where the next line ends, or the end of what is held where it has no line end yet.
pub fn line_end(input: &[u8], held: Held) -> usize
    requires { Holds held × (length input.now ≡ input_bytes) }
    ensures { (held.start ≤ result) × (result ≤ held.end) }
{
    find(input, held.start, held.end, b'\n')
}

// The line up to `stop` is whole: its line end is there, or the input has ended.
pub fn is_whole(held: Held, stop: usize) -> bool {
    stop < held.end || held.stage == Stage::Ended
}

// What is held after the line up to `stop`, with its line end.
pub fn after_line(held: Held, stop: usize) -> Held
    requires { Holds held × (stop ≤ held.end) }
    ensures { Holds result }
{
    let mut next = held;
    next.lines = held.lines.wrapping_add(1);
    if stop < held.end {
        next.start = stop + 1;
        return next;
    }
    next.start = stop;
    next.stage = Stage::Done;
    next
}

// Reads more behind the unfinished line, which goes to the front.
pub fn refill(input: &mut [u8], held: Held) -> Held
    requires { Holds held × (length input.old ≡ input_bytes) }
    ensures { Holds result }
{
    let kept = (held.end - held.start).min(LONGEST + 1);
    input.copy_within(held.start..held.start + kept, 0);
    let mut source = held.from;
    let (count, stage) = match source.read(&mut input[kept..kept + READ_BYTES]) {
        Ok(0) => (0, Stage::Ended),
        Ok(count) => (count, Stage::Open),
        Err(_) => (0, Stage::Failed),
    };
    Held {
        from: held.from,
        start: 0,
        end: kept + count,
        lines: held.lines,
        stage,
    }
}

// The line asks for nothing: it is blank, or a comment.
pub fn is_ignored(line: &[u8]) -> bool {
    if line.len() == 0 || is_comment(line) {
        return true;
    }
    line.len() <= LONGEST && is_blank(line)
}
