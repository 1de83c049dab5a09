// The boundaries of 02's ticket 9 that no list of calls reaches: on fronts made by hand each way in which a front is
// not sound, beside the soundest neighbour of each.
#![tactic(auto)]

ghost use Rattle.std.specs.Prelude.{◌≤◌, length};
ghost use Rattle.lines.specs.Forms.{most_form};

use answer_lines::answers;
use front_model::{
    FRONT_BYTES, FRONT_WORDS, FrontBytes, FrontWords, MOST_KEPT, MOST_MESSAGE, PART_WORDS,
};
use lines::outcome::report_failure;
use lines::output::Output;
use model::{HELD_WORD, JOURNAL_WORDS, LAST_WORD, MOST_HELD, MOST_PAYLOAD, OUTPUT_BYTES, State};

// Where the words and the room of channel 2 begin.
const WORDS: usize = 2 * PART_WORDS;

const ROOM: usize = 2 * MOST_MESSAGE;

// The highest payload_len that a message may have.
const PAYLOAD: u32 = MOST_PAYLOAD as u32;

// What every free byte of the front holds.
const BYTE: u8 = 0x41;

// What setup makes of one block.
fn new_state() -> State {
    let list = [0x10000000u64, 4, 0, 0, 1];
    let mut journal = [0u64; JOURNAL_WORDS];
    let started = agent::setup(&list, &[], &[], &mut journal);
    started.state
}

// The words and the bytes of a front.
#[derive(Clone, Copy, PartialEq, Eq)]
struct Front {
    words: FrontWords,
    bytes: FrontBytes,
}

// A front of which channel 2 has these words, and in its room the beginning of a message of type 0x63, which no
// message has, with this payload_len.
fn front_of(kept: usize, dropping: u64, payload_len: u32) -> Front {
    let mut words = [0u64; FRONT_WORDS];
    words[WORDS] = kept as u64;
    words[WORDS + 1] = dropping;
    let mut bytes = [BYTE; FRONT_BYTES];
    bytes[ROOM..ROOM + 4].copy_from_slice(&[0, 0, 0, 0x63]);
    bytes[ROOM + 4..ROOM + 8].copy_from_slice(&payload_len.to_be_bytes());
    Front { words, bytes }
}

// A piece of one byte on a channel.
fn piece(out: &mut Output, front: &Front, state: &State, channel: usize) {
    let mut new = *front;
    let mut new_state = *state;
    let mut journal = [0u64; JOURNAL_WORDS];
    let mut reply = [0u8; OUTPUT_BYTES];
    let a = front::piece(
        &mut new.words,
        &mut new.bytes,
        &mut new_state,
        channel,
        b"\x00",
        &mut journal,
        &mut reply,
    );
    answers::put_piece(out, a, &reply);
    out.put_if(a.refusal != 0 && new != *front, b"the front has changed");
}

fn reopen(out: &mut Output, front: &Front, state: &State, channel: usize) {
    let mut words = front.words;
    let refusal = front::reopen(&mut words, &front.bytes, state, channel);
    answers::put_reopened(out, refusal);
    out.put_if(
        refusal != 0 && words != front.words,
        b"the front has changed",
    );
}

// A front of which channel 2 is so: a piece there and on channel 0, and a reopening of each.
fn each_call(out: &mut Output, name: &[u8], kept: usize, dropping: u64, payload_len: u32)
    requires { length name.now ≤ most_form }
{
    let front = front_of(kept, dropping, payload_len);
    let state = new_state();
    out.put_text(name);
    piece(out, &front, &state, 2);
    piece(out, &front, &state, 0);
    reopen(out, &front, &state, 2);
    reopen(out, &front, &state, 0);
}

// Fewer bytes kept than a header, and a header with a short message.
fn short_messages(out: &mut Output) {
    each_call(out, b"# nothing kept", 0, 0, 0);
    each_call(
        out,
        b"# 7 bytes kept, then the eighth: a payload_len above 4096",
        7,
        0,
        PAYLOAD + 256,
    );
    each_call(out, b"# 8 bytes kept, payload_len 1", 8, 0, 1);
    each_call(out, b"# 8 bytes kept, payload_len 2", 8, 0, 2);
}

// As many bytes kept as a message has, and more.
fn whole_messages(out: &mut Output) {
    each_call(
        out,
        b"# 8 bytes kept, payload_len 0: a whole message",
        8,
        0,
        0,
    );
    each_call(
        out,
        b"# 9 bytes kept, payload_len 1: a whole message",
        9,
        0,
        1,
    );
    each_call(
        out,
        b"# 10 bytes kept, payload_len 1: more than a message",
        10,
        0,
        1,
    );
}

// The longest message, and a longer one.
fn long_messages(out: &mut Output) {
    each_call(out, b"# 8 bytes kept, payload_len 4096", 8, 0, PAYLOAD);
    each_call(out, b"# 8 bytes kept, payload_len 4097", 8, 0, PAYLOAD + 1);
}

// All bytes but the last of the longest message kept, all of it, and all that there is room for.
fn full_room(out: &mut Output) {
    each_call(
        out,
        b"# 4103 bytes kept, payload_len 4096",
        MOST_KEPT,
        0,
        PAYLOAD,
    );
    each_call(
        out,
        b"# 4104 bytes kept, payload_len 4096",
        MOST_MESSAGE,
        0,
        PAYLOAD,
    );
    each_call(
        out,
        b"# 4104 bytes kept, payload_len 4097",
        MOST_MESSAGE,
        0,
        PAYLOAD + 1,
    );
}

fn marks(out: &mut Output) {
    each_call(out, b"# dropping", 0, 1, 0);
    each_call(out, b"# dropping, and a byte kept", 1, 1, 0);
    each_call(out, b"# a mark of 2", 0, 2, 0);
}

// An unsound front and lent runs that are too short.
fn unsound_front(out: &mut Output) {
    let mut front = front_of(8, 0, 0);
    let mut state = new_state();
    let mut journal = [0u64; JOURNAL_WORDS - 1];
    let mut reply = [0u8; OUTPUT_BYTES - 1];
    out.put_text(b"# an unsound front, 127 words of journal, 2591 bytes of output, channel 4");
    let a = front::piece(
        &mut front.words,
        &mut front.bytes,
        &mut state,
        4,
        b"\x00",
        &mut journal,
        &mut reply,
    );
    answers::put_piece(out, a, &reply);
    reopen(out, &front, &state, 4);
}

// A sound front, and an unsound state.
fn unsound_state(out: &mut Output) {
    let front = front_of(0, 0, 0);
    let mut unsound = new_state();
    unsound[HELD_WORD] = 2;
    out.put_text(b"# a sound front and an unsound state, channel 2 and channel 4");
    piece(out, &front, &unsound, 2);
    piece(out, &front, &unsound, 4);
    reopen(out, &front, &unsound, 2);
    reopen(out, &front, &unsound, 4);
}

// With 64 entries held a piece that gives a message is refused by 4, one that gives none is taken, and so is a
// reopening.
fn held(out: &mut Output) {
    let mut state = new_state();
    state[LAST_WORD] = MOST_HELD;
    state[HELD_WORD] = MOST_HELD;
    out.put_text(
        b"# 64 entries held: the last byte of a message, a byte within one, one that is dropped, a reopening",
    );
    piece(out, &front_of(8, 0, 1), &state, 2);
    piece(out, &front_of(7, 0, 256), &state, 2);
    piece(out, &front_of(0, 1, 1), &state, 2);
    reopen(out, &front_of(8, 0, 1), &state, 2);
}

fn main(rt: HostRuntime) {
    let mut out = Output::new(rt.stdout());
    short_messages(&mut out);
    whole_messages(&mut out);
    long_messages(&mut out);
    full_room(&mut out);
    marks(&mut out);
    unsound_front(&mut out);
    unsound_state(&mut out);
    held(&mut out);
    out.flush();
    if out.failed {
        report_failure(
            rt.stderr(),
            b"front_bounds",
            b"the output cannot be written",
        );
    }
}
