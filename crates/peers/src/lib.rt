// A channel's peer registrations: the services that the other end has registered with us, by the place of each one's id.
#![tactic(auto)]

ghost use Rattle.std.specs.Prelude.{◌≡◌, true, not, ℕ, ◌<◌, eqb};
ghost use Rattle.basics.specs.Choice.{◌or◌, every, is_found};
ghost use Rattle.model.specs.Layout.{channel_count, marks_at, most_ids, peered_at, peer_handle_at, peer_minor_at, ready_at, with_peer, without_peer};
ghost use Rattle.model.specs.Peers.{is_peered, peer_apart, peered_as, peer_for, peers_below, peer_sound, peers_sound};

use model::{
    CHANNEL_COUNT, FIRST_ID_WORD, FIRST_PEER_WORD, ID_COUNT_WORD, ID_MINOR_PLACE, ID_WORDS,
    MARK_WORDS, MOST_IDS, MOST_PEERS, PEER_WORDS, State, TOP_BIT,
};

// Reads.

// The channel's marks, a bit for each id.
fn marks_of(state: &State, channel: usize) -> u64
    requires { channel < channel_count }
    ensures { result ≡ marks_at state.now channel }
{
    state[FIRST_PEER_WORD + channel * PEER_WORDS]
}

// 1 where the peer has id p registered on the channel, else 0.
fn mark_of(state: &State, channel: usize, p: usize) -> u64
    requires { (channel < channel_count) × (p < most_ids) }
    ensures { result ≡ peered_at state.now channel p }
{
    (marks_of(state, channel) >> p) % 2
}

pub fn handle_of(state: &State, channel: usize, p: usize) -> u64
    requires { (channel < channel_count) × (p < most_ids) }
    ensures { result ≡ peer_handle_at state.now channel p }
{
    state[FIRST_PEER_WORD + channel * PEER_WORDS + MARK_WORDS + p]
}

pub fn minor_of(state: &State, channel: usize, p: usize) -> u64
    requires { (channel < channel_count) × (p < most_ids) }
    ensures { result ≡ peer_minor_at state.now channel p }
{
    state[FIRST_PEER_WORD + channel * PEER_WORDS + MARK_WORDS + MOST_IDS + p]
}

// The peer has id p registered on the channel.
pub fn is_peered(state: &State, channel: usize, p: usize) -> bool
    requires { (channel < channel_count) × (p < most_ids) }
    ensures { result ≡ is_peered state.now channel p }
{
    mark_of(state, channel, p) == 1
}

// It has it registered under the handle.
fn peered_as(state: &State, channel: usize, handle: u64, p: usize) -> bool
    requires { (channel < channel_count) × (p < most_ids) }
    ensures { result ≡ peered_as state.now channel handle p }
{
    mark_of(state, channel, p) == 1 && handle_of(state, channel, p) == handle
}

// The registration that the peer has under the handle, if there is one.
pub fn find_peer(state: &State, channel: usize, handle: u64) -> Option<usize>
    requires { channel < channel_count }
    ensures { result ≡ peer_for state.now channel handle }
{
    for p in 0..MOST_IDS {
        if peered_as(state, channel, handle, p) {
            return Some(p);
        }
    }
    None
}

// The handle is one of the peer's live handles there.
pub fn has_handle(state: &State, channel: usize, handle: u64) -> bool
    requires { channel < channel_count }
    ensures { result ≡ is_found (peer_for state.now channel handle) }
{
    find_peer(state, channel, handle).is_some()
}

// How many registrations the channel has.
pub fn count(state: &State, channel: usize) -> u64
    requires { channel < channel_count }
    ensures { result ≡ peers_below state.now channel most_ids }
{
    let mut n: u64 = 0;
    for p in 0..MOST_IDS {
        n += mark_of(state, channel, p);
    }
    n
}

// Changes.

// A registration made.
pub fn set_peer(state: &mut State, channel: usize, p: usize, handle: u64, minor: u64)
    requires { (channel < channel_count) × (p < most_ids) }
    ensures { state.new ≡ with_peer state.old channel p handle minor }
{
    state[FIRST_PEER_WORD + channel * PEER_WORDS] = marks_of(state, channel) | (1 << p);
    state[FIRST_PEER_WORD + channel * PEER_WORDS + MARK_WORDS + p] = handle;
    state[FIRST_PEER_WORD + channel * PEER_WORDS + MARK_WORDS + MOST_IDS + p] = minor;
}

// A registration ended.
pub fn end_peer(state: &mut State, channel: usize, p: usize)
    requires { (channel < channel_count) × (p < most_ids) }
    ensures { state.new ≡ without_peer state.old channel p }
{
    let marks = marks_of(state, channel);
    state[FIRST_PEER_WORD + channel * PEER_WORDS] = marks ^ (marks & (1 << p));
}

// Soundness.

// "a closed channel has no peer registrations, a ready one .. whose handles lack that bit .., each listed, with no minor above the list's"
fn peer_sound(state: &State, ready: u64, channel: usize, p: usize) -> bool
    requires { (channel < channel_count) × (p < most_ids) }
    ensures { result ≡ peer_sound state.now ready channel p }
{
    if mark_of(state, channel, p) == 0 {
        return true;
    }
    if ready != 1 {
        return false;
    }
    if state[ID_COUNT_WORD] <= p as u64 {
        return false;
    }
    if TOP_BIT <= handle_of(state, channel, p) {
        return false;
    }
    minor_of(state, channel, p) <= state[FIRST_ID_WORD + p * ID_WORDS + ID_MINOR_PLACE]
}

fn each_sound(state: &State, channel: usize) -> bool
    requires { channel < channel_count }
    ensures { result ≡ every most_ids (peer_sound state.now (ready_at state.now channel) channel) }
{
    let ready = state[channel];
    for p in 0..MOST_IDS {
        if !peer_sound(state, ready, channel, p) {
            return false;
        }
    }
    true
}

// Id q is not registered, or not under the handle, which is looked at first, since few are the same.
fn differs(state: &State, channel: usize, q: usize, handle: u64) -> bool
    requires { (channel < channel_count) × (q < most_ids) }
    ensures { result ≡ (eqb (peered_at state.now channel q) 0 or not (eqb (peer_handle_at state.now channel q) handle)) }
{
    // Two tests: where they are one, the loop over them holds more registers, and each call more of the stack.
    if handle_of(state, channel, q) != handle {
        return true;
    }
    mark_of(state, channel, q) == 0
}

// "and differ there": id p's handle from those registered before it.
fn peer_apart(state: &State, channel: usize, p: usize) -> bool
    requires { (channel < channel_count) × (p < most_ids) }
    ensures { result ≡ peer_apart state.now channel p }
{
    if mark_of(state, channel, p) == 0 {
        return true;
    }
    let handle = handle_of(state, channel, p);
    for q in 0..p {
        if !differs(state, channel, q, handle) {
            return false;
        }
    }
    true
}

fn registered_apart(state: &State, channel: usize) -> bool
    requires { channel < channel_count }
    ensures { result ≡ every most_ids (peer_apart state.now channel) }
{
    for p in 0..MOST_IDS {
        if !peer_apart(state, channel, p) {
            return false;
        }
    }
    true
}

// A quick test: id p is not registered, or no id before it has its handle, registered or not.
fn handle_alone(state: &State, channel: usize, p: usize) -> bool
    requires { (channel < channel_count) × (p < most_ids) }
    ensures { result ≡ true → peer_apart state.now channel p ≡ true }
{
    if mark_of(state, channel, p) == 0 {
        return true;
    }
    let handle = handle_of(state, channel, p);
    for j in 0..p {
        if handle_of(state, channel, j) == handle {
            return false;
        }
    }
    true
}

fn handles_alone(state: &State, channel: usize) -> bool
    requires { channel < channel_count }
    ensures { result ≡ true → every most_ids (peer_apart state.now channel) ≡ true }
{
    for p in 0..MOST_IDS {
        if !handle_alone(state, channel, p) {
            return false;
        }
    }
    true
}

fn handles_apart(state: &State, channel: usize) -> bool
    requires { channel < channel_count }
    ensures { result ≡ every most_ids (peer_apart state.now channel) }
{
    handles_alone(state, channel) || registered_apart(state, channel)
}

// A quick test: no bit is set, and the channel has no registration.
fn none_marked(state: &State, channel: usize) -> bool
    requires { channel < channel_count }
    ensures { result ≡ true → (p : ℕ) → peered_at state.now channel p ≡ 0 }
{
    marks_of(state, channel) == 0
}

// A quick test: no bit is set, and no channel has a registration. All words are read, so that a state without registrations costs no branch a channel.
pub fn none_registered(state: &State) -> bool
    ensures { result ≡ true → (c : ℕ) → c < channel_count → (p : ℕ) → peered_at state.now c p ≡ 0 }
{
    let mut none = true;
    for c in 0..CHANNEL_COUNT {
        none &= none_marked(state, c);
    }
    none
}

// "a closed channel has no peer registrations, a ready one at most eight, whose handles lack that bit and differ there, as do their ids, each listed, with
// no minor above the list's"
pub fn peers_sound(state: &State, channel: usize) -> bool
    requires { channel < channel_count }
    ensures { result ≡ peers_sound state.now (ready_at state.now channel) channel }
{
    if none_marked(state, channel) {
        return true;
    }
    if !each_sound(state, channel) {
        return false;
    }
    if !handles_apart(state, channel) {
        return false;
    }
    count(state, channel) <= MOST_PEERS
}
