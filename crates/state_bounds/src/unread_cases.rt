// Words that say nothing in this state may hold anything.
use crate::cases::{sound, unread};
use crate::made::sound_state;
use crate::places::{DEVICE, HANDLE, ID, MINOR, PEER, PEER_HANDLE, PEER_MINOR, SECOND};
use lines::output::Output;
use model::{
    BLOCK_WORDS, DELAY_WORD, DEVICE_WORDS, FIRST_ADDRESS_WORD, FIRST_RESULT_WORD, ID_BYTES_PLACE,
    ID_PLACE, ID_WORDS, MOST_IDS, NAME_BYTES_PLACE, NAME_PLACE, SERVICE_WORDS,
};

pub(crate) fn unread_words(out: &mut Output) {
    unread(
        out,
        b"# an idle service with a handle",
        HANDLE + 3 * SERVICE_WORDS,
    );
    unread(
        out,
        b"# an idle service with a minor version",
        MINOR + 3 * SERVICE_WORDS,
    );
    unread(
        out,
        b"# an offered service with a minor version",
        MINOR + 2 * SERVICE_WORDS,
    );
    unread(
        out,
        b"# a third block's base, where two are held",
        SECOND + BLOCK_WORDS,
    );
    unread(
        out,
        b"# a third record's address, in a removal of two",
        FIRST_ADDRESS_WORD + 2,
    );
    unread(
        out,
        b"# the result of a record that is not settled",
        FIRST_RESULT_WORD,
    );
}

pub(crate) fn unread_devices(out: &mut Output) {
    unread(
        out,
        b"# a word after a device's name",
        DEVICE + NAME_PLACE + 1,
    );
    unread(out, b"# a delay without an order", DELAY_WORD);
    unread(
        out,
        b"# a third device's name, where two are held",
        DEVICE + 2 * DEVICE_WORDS + NAME_BYTES_PLACE,
    );
}

pub(crate) fn unread_ids(out: &mut Output) {
    unread(out, b"# a word after an id", ID + ID_PLACE + 1);
    unread(
        out,
        b"# a third id's bytes, where two are held",
        ID + 2 * ID_WORDS + ID_BYTES_PLACE,
    );
}

pub(crate) fn unread_peers(out: &mut Output) {
    unread(
        out,
        b"# the handle of an id that is not registered",
        PEER_HANDLE + 1,
    );
    unread(
        out,
        b"# the minor version of an id that is not registered",
        PEER_MINOR + 1,
    );
}

// A mark past the last place of an id.
pub(crate) fn unread_mark(out: &mut Output) {
    let mut state = sound_state();
    state[PEER] = state[PEER] | (1 << MOST_IDS);
    sound(out, b"# a mark past the last place of an id", &state);
}
