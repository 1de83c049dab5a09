// Each call on a made state, with a line for each thing that a refused one changed.
use crate::places::{BYTE, WORD};
use answer_lines::answers;
use answer_lines::answers::RUN_WORDS;
use lines::output::Output;
use model::{Answer, JOURNAL_WORDS, OUTPUT_BYTES, State};

// What a call is lent: a copy of a state, and runs of which every word and every byte holds the same.
#[derive(Drop)]
struct Lent {
    state: State,
    journal: [u64; JOURNAL_WORDS],
    reply: [u8; OUTPUT_BYTES],
}

// Makes a call on a copy of the state and puts its answer; a refusal writes nothing anywhere.
fn call<F: FnOnce(&mut Lent, &mut Output)>(out: &mut Output, before: &State, make: F)
    requires { F.IsAlwaysCallable make }
{
    let mut lent = Lent {
        state: *before,
        journal: [WORD; JOURNAL_WORDS],
        reply: [BYTE; OUTPUT_BYTES],
    };
    make(&mut lent, out);
    out.put_if(lent.state != *before, b"the state has changed");
    out.put_if(
        lent.journal != [WORD; JOURNAL_WORDS],
        b"the journal has changed",
    );
    out.put_if(
        lent.reply != [BYTE; OUTPUT_BYTES],
        b"the output has changed",
    );
}

// DS_INIT_REQ for version 1.0, received on channel 3.
pub(crate) fn init(state: &mut State, journal: &mut [u64], reply: &mut [u8]) -> Answer {
    let message = b"\x00\x00\x00\x00\x00\x00\x00\x04\x00\x01\x00\x00";
    agent::receive(state, 3, message, journal, reply)
}

pub(crate) fn receive(out: &mut Output, before: &State) {
    call(out, before, |lent, out| {
        let a = init(&mut lent.state, &mut lent.journal, &mut lent.reply);
        answers::put_answer(out, b"receive", a, &lent.reply);
    });
}

fn offer(out: &mut Output, before: &State) {
    call(out, before, |lent, out| {
        let a = agent::offer(&mut lent.state, 2, 3, &mut lent.journal, &mut lent.reply);
        answers::put_answer(out, b"offer", a, &lent.reply);
    });
}

fn withdraw(out: &mut Output, before: &State) {
    call(out, before, |lent, out| {
        let a = agent::withdraw(&mut lent.state, 2, 0, &mut lent.journal, &mut lent.reply);
        answers::put_answer(out, b"withdraw", a, &lent.reply);
    });
}

pub(crate) fn close(out: &mut Output, before: &State) {
    call(out, before, |lent, out| {
        let a = agent::close(&mut lent.state, 1, &mut lent.journal, &mut lent.reply);
        answers::put_answer(out, b"close", a, &lent.reply);
    });
}

fn work(out: &mut Output, before: &State) {
    call(out, before, |lent, out| {
        let a = agent::work(&mut lent.state, 1, &mut lent.journal, &mut lent.reply);
        answers::put_worked(out, a, &lent.reply);
    });
}

fn permit(out: &mut Output, before: &State) {
    call(out, before, |lent, out| {
        let a = agent::permit(&mut lent.state, 2, true, &mut lent.journal, &mut lent.reply);
        answers::put_answer(out, b"permit", a, &lent.reply);
    });
}

fn take(out: &mut Output, before: &State) {
    call(out, before, |lent, out| {
        let a = agent::take(&mut lent.state, &mut lent.journal, &mut lent.reply);
        answers::put_taken(out, a);
    });
}

// No entry is held, so that an accepted drain changes nothing either.
fn drain(out: &mut Output, before: &State) {
    let mut run = [WORD; RUN_WORDS];
    call(out, before, |lent, out| {
        let a = agent::drain(&mut lent.state, &lent.journal, &mut run);
        answers::put_drained(out, a, &run);
    });
    out.put_if(run != [WORD; RUN_WORDS], b"the run has changed");
}

// Data on channel 2 under our handle 3, which the sound state has registered for service 1: that is answered inside, so
// that it is not shown; and under the peer's handle 5, which is.
pub(crate) fn show(out: &mut Output, before: &State) {
    let ours = b"\x00\x00\x00\x09\x00\x00\x00\x09\x80\x00\x00\x00\x00\x00\x00\x03\x41";
    answers::put_shown(out, agent::show(before, 2, ours));
    let peers = b"\x00\x00\x00\x09\x00\x00\x00\x09\x00\x00\x00\x00\x00\x00\x00\x05\x42";
    answers::put_shown(out, agent::show(before, 2, peers));
}

// Each call on the same state.
pub(crate) fn each_call(out: &mut Output, state: &State) {
    receive(out, state);
    offer(out, state);
    withdraw(out, state);
    close(out, state);
    work(out, state);
    drain(out, state);
    permit(out, state);
    take(out, state);
    show(out, state);
}
