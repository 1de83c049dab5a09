// The list of lines on standard input, answered on standard output.
use crate::parsed;
use lines::fields::end_of;
use lines::input::{LONGEST, is_ignored};
use lines::list;
use lines::outcome::Outcome;
use lines::output::Output;
use vio_model::{END_WORDS, End};

// Answers a line, by the call of its name. None where the name is no call's, or the fields are bad.
fn answer(line: &[u8], ends: &mut [End; 2], out: &mut Output) -> Option<()> {
    if is_ignored(line) {
        return Some(());
    }
    if LONGEST < line.len() {
        return None;
    }
    let end = end_of(line, 0);
    let rest = &line[end..];
    match &line[..end] {
        b"receive" => parsed::receive(rest, ends, out),
        b"start" => parsed::start(rest, ends, out),
        b"state" => parsed::state(rest, ends, out),
        b"end" => parsed::end(rest, ends, out),
        _ => None,
    }
}

// Answers the list until the input ends, and returns how it ended.
pub(crate) fn run(rt: HostRuntime) -> Outcome {
    let mut ends = [[0u64; END_WORDS]; 2];
    list::run(rt, b"vio", |line, out| {
        answer(line, &mut ends, out).is_some()
    })
}
