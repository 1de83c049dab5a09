// A state with a word or two changed, and the calls on it.
ghost use Rattle.std.specs.Prelude.{◌≤◌, ◌<◌, length};
ghost use Rattle.lines.specs.Forms.{most_form};
ghost use Rattle.model.specs.Layout.{state_words};

use crate::each::{each_call, init};
use crate::made::sound_state;
use answer_lines::answers;
use answer_lines::answers::RUN_WORDS;
use lines::output::Output;
use model::{JOURNAL_WORDS, OUTPUT_BYTES, State};

// Each call on the sound state with two words changed, so that one clause of soundness does not hold.
pub(crate) fn changed_two(out: &mut Output, name: &[u8], first: (usize, u64), second: (usize, u64))
    requires { (length name.now ≤ most_form) × (first.0 < state_words) × (second.0 < state_words) }
{
    let mut state = sound_state();
    state[first.0] = first.1;
    state[second.0] = second.1;
    out.put_text(name);
    each_call(out, &state);
}

// The same with one word changed.
// A call for each case, and no table of them: each name's length and each word's place is proved where it stands.
pub(crate) fn changed(out: &mut Output, name: &[u8], at: usize, word: u64)
    requires { (length name.now ≤ most_form) × (at < state_words) }
{
    changed_two(out, name, (at, word), (at, word));
}

// A sound state: a receive is accepted and its entry drained.
pub(crate) fn sound(out: &mut Output, name: &[u8], before: &State)
    requires { length name.now ≤ most_form }
{
    let mut state = *before;
    let mut journal = [0u64; JOURNAL_WORDS];
    let mut reply = [0u8; OUTPUT_BYTES];
    let mut run = [0u64; RUN_WORDS];
    let a = init(&mut state, &mut journal, &mut reply);
    let b = agent::drain(&mut state, &journal, &mut run);
    out.put_text(name);
    answers::put_answer(out, b"receive", a, &reply);
    answers::put_drained(out, b, &run);
}

// A word that says nothing in this state may hold anything.
pub(crate) fn unread(out: &mut Output, name: &[u8], at: usize)
    requires { (length name.now ≤ most_form) × (at < state_words) }
{
    let mut state = sound_state();
    state[at] = u64::MAX;
    sound(out, name, &state);
}
