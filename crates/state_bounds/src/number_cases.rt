// Cases of counts and entry numbers.
use crate::cases::{changed, changed_two, sound};
use crate::each::{close, each_call, receive};
use crate::made::{ready_state, sound_state};
use answer_lines::answers;
use answer_lines::answers::RUN_WORDS;
use lines::output::Output;
use model::{
    CANCELLED_WORD, HELD_WORD, HIGHEST_NUMBER, JOURNAL_WORDS, LAST_WORD, MOST_HELD, OUTPUT_BYTES,
    OUTSTANDING_WORD,
};

pub(crate) fn counts(out: &mut Output) {
    changed(
        out,
        b"# a last number above 4294967295",
        LAST_WORD,
        HIGHEST_NUMBER + 1,
    );
    changed(out, b"# more held than numbered", HELD_WORD, 10);
    changed_two(out, b"# 65 entries held", (LAST_WORD, 100), (HELD_WORD, 65));
    changed(out, b"# outstanding neither 0 nor 1", OUTSTANDING_WORD, 2);
    changed(out, b"# cancelled neither 0 nor 1", CANCELLED_WORD, 2);
}

// The last number 1, the mark's, and 0: nothing in the state needs a number.
pub(crate) fn no_entry(out: &mut Output) {
    let mut state = ready_state();
    sound(out, b"# one entry numbered", &state);
    out.put_text(b"# no entry numbered");
    state[LAST_WORD] = 0;
    each_call(out, &state);
}

// The last number used, with none held and with 64: 4 is tested before 5, and drain has neither.
pub(crate) fn last_number(out: &mut Output) {
    let mut state = sound_state();
    state[LAST_WORD] = HIGHEST_NUMBER;
    out.put_text(b"# entry number 4294967295 used");
    each_call(out, &state);
    state[HELD_WORD] = MOST_HELD;
    out.put_text(b"# entry number 4294967295 used, and 64 entries held");
    receive(out, &state);
    close(out, &state);
}

// The last number but one is used: one more call is accepted, and the next is refused.
pub(crate) fn last_number_but_one(out: &mut Output) {
    let mut state = sound_state();
    let mut journal = [0u64; JOURNAL_WORDS];
    let mut reply = [0u8; OUTPUT_BYTES];
    let mut run = [0u64; RUN_WORDS];
    state[LAST_WORD] = HIGHEST_NUMBER - 1;
    out.put_text(b"# entry number 4294967294 used");
    let a = agent::close(&mut state, 1, &mut journal, &mut reply);
    answers::put_answer(out, b"close", a, &reply);
    let b = agent::close(&mut state, 1, &mut journal, &mut reply);
    answers::put_answer(out, b"close", b, &reply);
    let c = agent::drain(&mut state, &journal, &mut run);
    answers::put_drained(out, c, &run);
}

// 8 is tested before 1, 2 and 3.
pub(crate) fn unsound_first(out: &mut Output) {
    let mut state = sound_state();
    let mut journal = [0u64; JOURNAL_WORDS - 1];
    let mut reply = [0u8; OUTPUT_BYTES - 1];
    state[HELD_WORD] = 10;
    out.put_text(b"# an unsound state, 127 words of journal, 2591 bytes of output, channel 4");
    let a = agent::close(&mut state, 4, &mut journal, &mut reply);
    answers::put_answer(out, b"close", a, &reply);
}
