// The part of soundness that is of the removal. It reads the words themselves: to load the removal would copy them all for a few tests.
#![tactic(auto)]

ghost use Rattle.std.specs.Prelude.{◌≡◌, true, ◌<◌, ◌≤◌, Some};
ghost use Rattle.model.specs.Layout.{highest_number, last_of, most_blocks, most_records, removal_of};
ghost use Rattle.model.specs.Search.{BlocksInOrder};
ghost use Rattle.model.specs.State.{collected_sound, outstanding_sound, removal_room, removal_sound, result_sound, results_sound, room_at, room_of};

use model::{
    CANCELLED_WORD, CHANNEL_COUNT, COLLECTED_WORD, COUNT_WORD, DR_MEM_RES_NOWORK, DR_MEM_RES_OK,
    FIRST_ADDRESS_WORD, FIRST_RESULT_WORD, FIRST_SIZE_WORD, LAST_WORD, MOST_RECORDS,
    OUTSTANDING_WORD, POSITION_WORD, REMOVAL_CHANNEL_WORD, REMOVAL_HANDLE_WORD, State,
};

// The pages of block i if it is configured, else 0.
fn room_at(state: &State, i: usize) -> u64
    requires { i < most_blocks }
    ensures { result ≡ room_at state.now (Some i) }
{
    if state::configured_of(state, i) != 1 {
        return 0;
    }
    state::pages_of(state, i)
}

// The pages of the configured block that the pair names, 0 if there is none.
fn room_of(state: &State, addr: u64, size: u64) -> u64
    requires { BlocksInOrder state.now }
    ensures { result ≡ room_of state.now addr size }
{
    let found = blocks::named_block(state, addr, size);
    match found {
        Some(place) => room_at(state, place),
        None => 0,
    }
}

// Those of the pair at the removal's position.
fn removal_room(state: &State) -> u64
    requires { BlocksInOrder state.now × ((removal_of state.now).count ≤ most_records) }
    ensures { result ≡ removal_room state.now (removal_of state.now) }
{
    let at = state[POSITION_WORD] as usize;
    let n = state[COUNT_WORD] as usize;
    if at < n {
        return room_of(
            state,
            state[FIRST_ADDRESS_WORD + at],
            state[FIRST_SIZE_WORD + at],
        );
    }
    0
}

// "pages collected below those of the configured block named at the position, or 0 if there is none"
fn collected_sound(collected: u64, room: u64) -> bool
    ensures { result ≡ collected_sound collected room }
{
    if room == 0 {
        return collected == 0;
    }
    collected < room
}

// "OK or NOWORK"
fn result_sound(res: u64) -> bool
    ensures { result ≡ result_sound res }
{
    res == DR_MEM_RES_OK || res == DR_MEM_RES_NOWORK
}

// "for each settled record OK or NOWORK"
fn results_sound(state: &State) -> bool
    requires { (removal_of state.now).position ≤ most_records }
    ensures { result ≡ results_sound (removal_of state.now) }
{
    let n = state[POSITION_WORD] as usize;
    for i in 0..n {
        if !result_sound(state[FIRST_RESULT_WORD + i]) {
            return false;
        }
    }
    true
}

// "a removal has a channel to 3, a handle up to that last number, 1 to 16 records, a position up to their count, and pages collected .."
fn removal_sound(state: &State) -> bool
    requires { BlocksInOrder state.now × (last_of state.now ≤ highest_number) }
    ensures { result ≡ removal_sound state.now (last_of state.now) (removal_of state.now) }
{
    if (CHANNEL_COUNT as u64) <= state[REMOVAL_CHANNEL_WORD] {
        return false;
    }
    if !service_soundness::is_ours(0, state[LAST_WORD], state[REMOVAL_HANDLE_WORD]) {
        return false;
    }
    if state[COUNT_WORD] < 1 {
        return false;
    }
    if (MOST_RECORDS as u64) < state[COUNT_WORD] {
        return false;
    }
    if state[COUNT_WORD] < state[POSITION_WORD] {
        return false;
    }
    if !collected_sound(state[COLLECTED_WORD], removal_room(state)) {
        return false;
    }
    results_sound(state)
}

// The removal's words, if one is outstanding.
pub fn outstanding_sound(state: &State) -> bool
    requires { BlocksInOrder state.now × (last_of state.now ≤ highest_number) }
    ensures { result ≡ outstanding_sound state.now }
{
    if state[OUTSTANDING_WORD] == 0 {
        return true;
    }
    if state[OUTSTANDING_WORD] != 1 {
        return false;
    }
    if 1 < state[CANCELLED_WORD] {
        return false;
    }
    removal_sound(state)
}
