// The part of soundness that is of channels and services: "services on closed channels are idle; live handles differ".
#![tactic(auto)]

ghost use Rattle.std.specs.Prelude.{◌≡◌, true, not, ◌<◌, ◌≤◌, eqb, leb};
ghost use Rattle.basics.specs.Choice.{◌or◌, every};
ghost use Rattle.model.specs.Layout.{channel_count, handle_at, highest_number, last_of, place_count, ready_at, stage_at, stage_idle};
ghost use Rattle.model.specs.State.{service_sound, handle_apart, is_ours, service_sound_at};

use model::{
    CHANNEL_COUNT, FIRST_HANDLE_WORD, FIRST_MINOR_WORD, FIRST_STAGE_WORD, HIGHEST_MINOR, IDLE,
    LAST_WORD, OFFERED, PLACE_COUNT, REGISTERED, SERVICE_COUNT, SERVICE_WORDS, State,
};

// The handle is ours: of an entry from number `first` to number `last`.
pub fn is_ours(first: u64, last: u64, handle: u64) -> bool
    requires { (first ≤ highest_number) × (last ≤ highest_number) }
    ensures { result ≡ is_ours first last handle }
{
    if handle < state::our_handle(first) {
        return false;
    }
    handle <= state::our_handle(last)
}

// "services on closed channels are idle; live handles .. lie between 1 and the last entry number used"
fn service_sound(stage: u64, handle: u64, minor: u64, ready: u64, last: u64) -> bool
    requires { last ≤ highest_number }
    ensures { result ≡ service_sound stage handle minor ready last }
{
    if stage == IDLE {
        return true;
    }
    if REGISTERED < stage {
        return false;
    }
    if ready != 1 {
        return false;
    }
    if !is_ours(1, last, handle) {
        return false;
    }
    if stage == OFFERED {
        return true;
    }
    minor <= HIGHEST_MINOR
}

pub fn services_sound(state: &State) -> bool
    requires { last_of state.now ≤ highest_number }
    ensures { result ≡ every place_count (λ k. service_sound_at state.now k) }
{
    let last = state[LAST_WORD];
    for k in 0..PLACE_COUNT {
        let at = k * SERVICE_WORDS;
        if !service_sound(
            state[FIRST_STAGE_WORD + at],
            state[FIRST_HANDLE_WORD + at],
            state[FIRST_MINOR_WORD + at],
            state[k / SERVICE_COUNT],
            last,
        ) {
            return false;
        }
    }
    true
}

// A channel is closed or ready.
pub fn channels_sound(state: &State) -> bool
    ensures { result ≡ every channel_count (λ c. leb (ready_at state.now c) 1) }
{
    for c in 0..CHANNEL_COUNT {
        if 1 < state[c] {
            return false;
        }
    }
    true
}

// A service at place j is idle or does not have this handle; the handle is looked at first, since few are the same.
fn differs(state: &State, j: usize, handle: u64) -> bool
    requires { j < place_count }
    ensures { result ≡ (eqb (stage_at state.now j) stage_idle or not (eqb (handle_at state.now j) handle)) }
{
    let at = j * SERVICE_WORDS;
    state[FIRST_HANDLE_WORD + at] != handle || state[FIRST_STAGE_WORD + at] == IDLE
}

// "live handles differ": the service's at place k from those of the live services before it.
fn handle_apart(state: &State, k: usize) -> bool
    requires { k < place_count }
    ensures { result ≡ handle_apart state.now k }
{
    if state[FIRST_STAGE_WORD + k * SERVICE_WORDS] == IDLE {
        return true;
    }
    let handle = state[FIRST_HANDLE_WORD + k * SERVICE_WORDS];
    for j in 0..k {
        if !differs(state, j, handle) {
            return false;
        }
    }
    true
}

fn live_handles_apart(state: &State) -> bool
    ensures { result ≡ every place_count (λ k. handle_apart state.now k) }
{
    for k in 0..PLACE_COUNT {
        if !handle_apart(state, k) {
            return false;
        }
    }
    true
}

// A quick test: the service at place k is idle, or no place before it has its handle, live or not. `peers` tests its own
// words alike; a function for both would take a closure for each word.
fn handle_alone(state: &State, k: usize) -> bool
    requires { k < place_count }
    ensures { result ≡ true → handle_apart state.now k ≡ true }
{
    if state[FIRST_STAGE_WORD + k * SERVICE_WORDS] == IDLE {
        return true;
    }
    let handle = state[FIRST_HANDLE_WORD + k * SERVICE_WORDS];
    for j in 0..k {
        if state[FIRST_HANDLE_WORD + j * SERVICE_WORDS] == handle {
            return false;
        }
    }
    true
}

fn handles_alone(state: &State) -> bool
    ensures { result ≡ true → every place_count (λ k. handle_apart state.now k) ≡ true }
{
    for k in 0..PLACE_COUNT {
        if !handle_alone(state, k) {
            return false;
        }
    }
    true
}

// "live handles differ". Idle services' handles are free words: the stages are looked at only where two handles are the same.
pub fn handles_apart(state: &State) -> bool
    ensures { result ≡ every place_count (λ k. handle_apart state.now k) }
{
    handles_alone(state) || live_handles_apart(state)
}
