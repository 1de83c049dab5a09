// What setup writes.
use crate::made::{two_devices, two_ids};
use crate::places::WORD;
use answer_lines::answers;
use answer_lines::answers::RUN_WORDS;
use lines::output::Output;
use model::{ENTRY_WORDS, JOURNAL_WORDS, STATE_WORDS};

// The journal holds what it did before.
fn put_journal(out: &mut Output, journal: &[u64]) {
    out.put_if(
        journal.iter().any(|word| *word != WORD),
        b"the journal has changed",
    );
}

// A refused setup: its number and the empty state; it writes nothing.
fn setup_refused(out: &mut Output, list: &[u64], journal: &mut [u64]) {
    let devices = two_devices();
    let ids = two_ids();
    let started = agent::setup(list, &devices, &ids, journal);
    answers::put_started(out, started.refusal);
    out.put_if(
        started.state != [0u64; STATE_WORDS],
        b"the state is not empty",
    );
    put_journal(out, journal);
}

// 1 is tested before 7.
pub(crate) fn refused_setups(out: &mut Output) {
    let good = [0x10000000u64, 4, 0, 0, 1];
    let bad = [0x10000000u64, 4, 0, 0, 2];
    let mut short = [WORD; JOURNAL_WORDS - 1];
    let mut long = [WORD; JOURNAL_WORDS + 1];
    let mut journal = [WORD; JOURNAL_WORDS];
    out.put_text(
        b"# setup with 127 words of journal, then 129, a good list and a bad one; with 128, a bad one",
    );
    setup_refused(out, &good, &mut short);
    setup_refused(out, &bad, &mut short);
    setup_refused(out, &good, &mut long);
    setup_refused(out, &bad, &mut long);
    setup_refused(out, &bad, &mut journal);
}

// An accepted setup writes the mark alone, and holds it.
pub(crate) fn accepted_setup(out: &mut Output) {
    let list = [0x10000000u64, 4, 0, 0, 1];
    let devices = two_devices();
    let ids = two_ids();
    let mut journal = [WORD; JOURNAL_WORDS];
    let mut run = [WORD; RUN_WORDS];
    let started = agent::setup(&list, &devices, &ids, &mut journal);
    let mut state = started.state;
    let a = agent::drain(&mut state, &journal, &mut run);
    out.put_text(b"# the mark alone");
    answers::put_drained(out, a, &run);
    out.put_if(
        journal[ENTRY_WORDS..].iter().any(|word| *word != WORD),
        b"another slot has changed",
    );
    out.put_if(
        run[ENTRY_WORDS..].iter().any(|word| *word != WORD),
        b"the run has changed",
    );
}
