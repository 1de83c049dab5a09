// Cases of peer registrations.
ghost use Rattle.std.specs.Prelude.{◌<◌};
ghost use Rattle.model.specs.Layout.{most_ids};

use crate::cases::{changed, changed_two, sound};
use crate::each::each_call;
use crate::made::sound_state;
use crate::places::{ID, PEER, PEER_HANDLE, PEER_MINOR};
use lines::output::Output;
use model::{
    ID_BYTES_PLACE, ID_COUNT_WORD, ID_MINOR_PLACE, ID_PLACE, ID_WORDS, MOST_IDS, PEER_WORDS, State,
    TOP_BIT,
};

pub(crate) fn peers(out: &mut Output) {
    changed(
        out,
        b"# a peer registration on a closed channel",
        PEER - PEER_WORDS,
        1,
    );
    changed(
        out,
        b"# a peer registration of an id that is not listed",
        PEER,
        0b101,
    );
}

pub(crate) fn peer_handles(out: &mut Output) {
    changed(
        out,
        b"# a peer's handle with the top bit",
        PEER_HANDLE,
        TOP_BIT,
    );
    changed(
        out,
        b"# a peer's minor version above the list's",
        PEER_MINOR,
        3,
    );
    changed_two(
        out,
        b"# two peer handles of a channel the same",
        (PEER, 0b11),
        (PEER_HANDLE + 1, 5),
    );
}

// Id p, of one byte and its zero, with version 1.0; and the words of its registration on channel 2 under the handle p.
fn put_id(state: &mut State, p: usize)
    requires { p < most_ids }
{
    let id = ID + p * ID_WORDS;
    state[id] = 1;
    state[id + ID_MINOR_PLACE] = 0;
    state[id + ID_BYTES_PLACE] = 2;
    state[id + ID_PLACE] = (65 + p as u64) << 56;
    state[PEER_HANDLE + p] = p as u64;
    state[PEER_MINOR + p] = 0;
}

// The sound state with sixteen ids, of which the peer has those marked registered on channel 2.
fn registered(marks: u64) -> State {
    let mut state = sound_state();
    state[ID_COUNT_WORD] = MOST_IDS as u64;
    state[PEER] = marks;
    for p in 0..MOST_IDS {
        put_id(&mut state, p);
    }
    state
}

// Eight peer registrations of a channel, and nine.
pub(crate) fn most_peers(out: &mut Output) {
    let eight = registered(0b11111111);
    let nine = registered(0b111111111);
    sound(out, b"# eight peer registrations of a channel", &eight);
    out.put_text(b"# nine peer registrations of a channel");
    each_call(out, &nine);
}
