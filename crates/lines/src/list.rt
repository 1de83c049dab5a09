// The lines of standard input, answered on standard output.
use crate::input;
use crate::input::{INPUT_BYTES, Stage};
use crate::outcome::{Outcome, outcome_of};
use crate::output::Output;

// Has each line answered until the input ends, and returns how that went. `answer` is lent a line without its line end,
// and says whether it is a good one. What was read is answered before the next read; after a failed read the unfinished
// line is not answered.
pub fn run<F: FnMut(&[u8], &mut Output) -> bool>(
    rt: HostRuntime,
    program: &[u8],
    mut answer: F,
) -> Outcome
    requires { F.IsAlwaysCallable answer }
{
    let mut buffer = [0u8; INPUT_BYTES];
    let mut out = Output::new(rt.stdout());
    let mut held = input::none(rt.stdin());
    let mut bad = false;
    for _ in 0..u64::MAX {
        if matches!(held.stage, Stage::Done | Stage::Failed) {
            break;
        }
        let start = held.start;
        let stop = input::line_end(&buffer, held);
        if input::is_whole(held, stop) {
            held = input::after_line(held, stop);
            if !answer(&buffer[start..stop], &mut out) {
                out.put_bad_line(held.lines);
                bad = true;
            }
            continue;
        }
        out.flush();
        if out.failed {
            break;
        }
        held = input::refill(&mut buffer, held);
    }
    out.flush();
    outcome_of(
        rt.stderr(),
        program,
        held.stage == Stage::Failed,
        out.failed,
        bad,
    )
}
