// Cases of removals.
use crate::cases::{changed, changed_two, sound};
use crate::each::each_call;
use crate::made::sound_state;
use lines::output::Output;
use model::{
    CHANNEL_COUNT, COLLECTED_WORD, COUNT_WORD, FIRST_ADDRESS_WORD, FIRST_RESULT_WORD, MOST_RECORDS,
    POSITION_WORD, REMOVAL_CHANNEL_WORD, REMOVAL_HANDLE_WORD, TOP_BIT,
};

pub(crate) fn removals(out: &mut Output) {
    changed(
        out,
        b"# a removal's channel above 3",
        REMOVAL_CHANNEL_WORD,
        CHANNEL_COUNT as u64,
    );
    changed(
        out,
        b"# a removal's handle above the last number",
        REMOVAL_HANDLE_WORD,
        TOP_BIT + 10,
    );
    changed(
        out,
        b"# a removal's handle without the top bit",
        REMOVAL_HANDLE_WORD,
        2,
    );
    changed(out, b"# a removal of 0 records", COUNT_WORD, 0);
    changed(
        out,
        b"# a removal of 65 records",
        COUNT_WORD,
        MOST_RECORDS as u64 + 1,
    );
    changed(
        out,
        b"# a position above the records' count",
        POSITION_WORD,
        3,
    );
}

pub(crate) fn collected_pages(out: &mut Output) {
    changed(
        out,
        b"# all pages of the block collected",
        COLLECTED_WORD,
        4,
    );
    changed_two(
        out,
        b"# pages collected where the record names no block",
        (FIRST_ADDRESS_WORD, 0x30000000),
        (COLLECTED_WORD, 1),
    );
    changed_two(
        out,
        b"# pages collected of an unconfigured block",
        (POSITION_WORD, 1),
        (COLLECTED_WORD, 1),
    );
}

// A settled record of two.
pub(crate) fn settled_record(out: &mut Output) {
    changed_two(
        out,
        b"# a settled record neither OK nor NOWORK",
        (POSITION_WORD, 1),
        (FIRST_RESULT_WORD, 1),
    );
}

// A removal of 64 records at its last one, and with all settled.
pub(crate) fn last_record(out: &mut Output) {
    let mut state = sound_state();
    state[COUNT_WORD] = MOST_RECORDS as u64;
    state[POSITION_WORD] = 63;
    sound(out, b"# a removal at record 63 of 64", &state);
    state[POSITION_WORD] = 64;
    sound(out, b"# a removal of 64 records, all settled", &state);
}

// At a position beyond them, and with its last result neither OK nor NOWORK.
pub(crate) fn past_records(out: &mut Output) {
    let mut state = sound_state();
    state[COUNT_WORD] = MOST_RECORDS as u64;
    state[POSITION_WORD] = 65;
    out.put_text(b"# a removal of 64 records at position 65");
    each_call(out, &state);
    state[POSITION_WORD] = 64;
    state[FIRST_RESULT_WORD + 63] = 1;
    out.put_text(b"# record 63 settled neither OK nor NOWORK");
    each_call(out, &state);
}
