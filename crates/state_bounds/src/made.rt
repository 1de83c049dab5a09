// States made by hand.
use crate::places::{DISK, HANDLE, PEER, PEER_HANDLE, PEER_MINOR, SP_LOG, STAGE, WORD};
use model::{
    BUSY_PLACE, COUNT_WORD, DEVICE_CONFIGURED_PLACE, DEVICE_WORDS, FIRST_ADDRESS_WORD,
    FIRST_SIZE_WORD, HELD_WORD, ID_BYTES_PLACE, ID_MINOR_PLACE, ID_PLACE, ID_WORDS, JOURNAL_WORDS,
    LAST_WORD, NAME_BYTES_PLACE, NAME_PLACE, OFFERED, OUTSTANDING_WORD, REGISTERED,
    REMOVAL_CHANNEL_WORD, REMOVAL_HANDLE_WORD, SERVICE_WORDS, State, TOP_BIT,
};

// Two devices with id 1, `disk` configured and `net0` busy.
pub(crate) fn two_devices() -> [u64; 2 * DEVICE_WORDS] {
    let mut words = [0u64; 2 * DEVICE_WORDS];
    words[0] = 1;
    words[DEVICE_CONFIGURED_PLACE] = 1;
    words[NAME_BYTES_PLACE] = 5;
    words[NAME_PLACE] = DISK;
    words[DEVICE_WORDS] = 1;
    words[DEVICE_WORDS + BUSY_PLACE] = 1;
    words[DEVICE_WORDS + NAME_BYTES_PLACE] = 5;
    words[DEVICE_WORDS + NAME_PLACE] = 0x6e65743000000000;
    words
}

// Two ids: `sp-log` 1.2 and `sp-fan` 2.0.
pub(crate) fn two_ids() -> [u64; 2 * ID_WORDS] {
    let mut words = [0u64; 2 * ID_WORDS];
    words[0] = 1;
    words[ID_MINOR_PLACE] = 2;
    words[ID_BYTES_PLACE] = 7;
    words[ID_PLACE] = SP_LOG;
    words[ID_WORDS] = 2;
    words[ID_WORDS + ID_BYTES_PLACE] = 7;
    words[ID_WORDS + ID_PLACE] = 0x73702d66616e0000;
    words
}

// What setup makes of two blocks, the second unconfigured, of two devices with id 1, `disk` configured and `net0` busy,
// and of two ids; then with channel 2 ready, the first id registered there by the peer under its handle 5, with minor
// version 2, and the mark no longer held.
pub(crate) fn ready_state() -> State {
    let list = [0x10000000u64, 4, 0, 0, 1, 0x20000000, 2, 0, 0, 0];
    let devices = two_devices();
    let ids = two_ids();
    let mut journal = [WORD; JOURNAL_WORDS];
    let started = agent::setup(&list, &devices, &ids, &mut journal);
    let mut state = started.state;
    state[2] = 1;
    state[HELD_WORD] = 0;
    state[PEER] = 1;
    state[PEER_HANDLE] = 5;
    state[PEER_MINOR] = 2;
    state
}

// That state with service 0 registered on channel 2 under handle 2, service 1 under 3, service 2 offered under 4; nine
// entries numbered; a removal of the first block and then the second, under handle 2, just begun.
pub(crate) fn sound_state() -> State {
    let mut state = ready_state();
    state[STAGE] = REGISTERED;
    state[HANDLE] = TOP_BIT + 2;
    state[STAGE + SERVICE_WORDS] = REGISTERED;
    state[HANDLE + SERVICE_WORDS] = TOP_BIT + 3;
    state[STAGE + 2 * SERVICE_WORDS] = OFFERED;
    state[HANDLE + 2 * SERVICE_WORDS] = TOP_BIT + 4;
    state[LAST_WORD] = 9;
    state[OUTSTANDING_WORD] = 1;
    state[REMOVAL_CHANNEL_WORD] = 2;
    state[REMOVAL_HANDLE_WORD] = TOP_BIT + 2;
    state[COUNT_WORD] = 2;
    state[FIRST_ADDRESS_WORD] = 0x10000000;
    state[FIRST_ADDRESS_WORD + 1] = 0x20000000;
    state[FIRST_SIZE_WORD] = 0x8000;
    state[FIRST_SIZE_WORD + 1] = 0x4000;
    state
}
