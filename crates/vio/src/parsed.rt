// The calls that a line's fields ask for, made of an end and answered; where the fields are bad, none is made, and None
// is returned. `rest` is the line from the end of its name on: each field begins with its space.
ghost use Rattle.std.specs.Prelude.{◌<◌, IfSome, get_or};

use crate::answers;
use lines::fields::numbers_in;
use lines::output::Output;
use vio_model::{End, VERSION_LIMIT, VERSION_WORDS};

// A line of at most 32,768 bytes has no more than 16,384 words.
const MOST: usize = 16384;

// The numbers of a line that begins with an end, 0 or 1, and has just so many fields, four at most.
fn numbers(rest: &[u8], count: usize) -> Option<[u64; 4]>
    ensures { IfSome result (λ four. get_or four 0 0 < 2) }
{
    let mut four = [0u64; 4];
    let found = numbers_in(rest, &mut four)?;
    if found == count && four[0] < 2 {
        Some(four)
    } else {
        None
    }
}

// An end of its class, the class that it accepts, and its versions: one or more, each a major and a minor of 16 bits.
pub(crate) fn end(rest: &[u8], ends: &mut [End; 2], out: &mut Output) -> Option<()> {
    let mut list = [0u64; MOST];
    let count = numbers_in(rest, &mut list)?.min(MOST);
    let [which, class, accepts, versions @ ..] = &list[..count] else {
        return None;
    };
    if versions.is_empty() || versions.len() % VERSION_WORDS != 0 {
        return None;
    }
    if 1 < *which || versions.iter().any(|word| VERSION_LIMIT <= *word) {
        return None;
    }
    let class = u8::try_from(*class).ok()?;
    let accepts = u8::try_from(*accepts).ok()?;
    let ready = handshake::setup(class, accepts, versions);
    ends[*which as usize] = ready.end;
    answers::put_ready(out, ready.refusal);
    Some(())
}

pub(crate) fn start(rest: &[u8], ends: &mut [End; 2], out: &mut Output) -> Option<()> {
    let [which, id, ..] = numbers(rest, 2)?;
    let id = u32::try_from(id).ok()?;
    let a = handshake::start(&mut ends[which as usize], id);
    answers::put_sent(out, b"start", a);
    Some(())
}

pub(crate) fn receive(rest: &[u8], ends: &mut [End; 2], out: &mut Output) -> Option<()> {
    let [which, next, first, second] = numbers(rest, 4)?;
    let next = u32::try_from(next).ok()?;
    let a = handshake::receive(&mut ends[which as usize], next, first, second);
    answers::put_sent(out, b"receive", a);
    Some(())
}

pub(crate) fn state(rest: &[u8], ends: &[End; 2], out: &mut Output) -> Option<()> {
    let [which, ..] = numbers(rest, 1)?;
    answers::put_state(out, which, &ends[which as usize]);
    Some(())
}
