// The public calls under names for C and Rust to link: each is the agent's own call, or the front's, with its contract. None returns more than two words, which every
// 64-bit calling convention returns alike: what is longer is written to what the caller lends.
#![tactic(auto)]

ghost use Rattle.model.specs.Promises.{SetupPost, ReceivePost, OfferPost, WithdrawPost, ClosePost, WorkPost, PermitPost, TakePost, DrainPost};
ghost use Rattle.model.specs.Layout.{data_header_bytes, is_set};
ghost use Rattle.front_model.specs.Promises.{PiecePost, ReopenPost};
ghost use Rattle.model.specs.Calls.{shown};
ghost use Rattle.std.specs.Prelude.{length, take, drop, ◌≡◌, ◌≤◌};

use front_model::{FrontBytes, FrontWords};
use model::{Answer, Drained, State};

// The state is written: that of the lists with the edition mark as its one entry, or, where 1 or 7 is returned, that of empty lists.
#[unsafe(no_mangle)]
pub extern "C" fn arkelutz_setup(
    state: &mut State,
    blocks: &[u64],
    devices: &[u64],
    ids: &[u64],
    journal: &mut [u64],
) -> u64
    ensures { SetupPost (record { blocks = blocks.entry.now; devices = devices.now; ids = ids.now }) journal.old (record { refusal = result; state = state.new }) journal.new }
{
    let started = agent::setup(blocks, devices, ids, journal);
    let words = started.state;
    *state = words;
    started.refusal
}

#[unsafe(no_mangle)]
pub extern "C" fn arkelutz_receive(
    state: &mut State,
    channel: usize,
    message: &[u8],
    journal: &mut [u64],
    out: &mut [u8],
) -> Answer
    ensures { ReceivePost state.old journal.old channel message.now out.old result state.new journal.new out.new }
{
    agent::receive(state, channel, message, journal, out)
}

#[unsafe(no_mangle)]
pub extern "C" fn arkelutz_offer(
    state: &mut State,
    channel: usize,
    service: usize,
    journal: &mut [u64],
    out: &mut [u8],
) -> Answer
    ensures { OfferPost state.old journal.old channel service out.old result state.new journal.new out.new }
{
    agent::offer(state, channel, service, journal, out)
}

#[unsafe(no_mangle)]
pub extern "C" fn arkelutz_withdraw(
    state: &mut State,
    channel: usize,
    service: usize,
    journal: &mut [u64],
    out: &mut [u8],
) -> Answer
    ensures { WithdrawPost state.old journal.old channel service out.old result state.new journal.new out.new }
{
    agent::withdraw(state, channel, service, journal, out)
}

#[unsafe(no_mangle)]
pub extern "C" fn arkelutz_close(
    state: &mut State,
    channel: usize,
    journal: &mut [u64],
    out: &mut [u8],
) -> Answer
    ensures { ClosePost state.old journal.old channel out.old result state.new journal.new out.new }
{
    agent::close(state, channel, journal, out)
}

// The pages moved by this step are written to pages, 0 on a refusal.
#[unsafe(no_mangle)]
pub extern "C" fn arkelutz_work(
    state: &mut State,
    budget: u64,
    journal: &mut [u64],
    out: &mut [u8],
    pages: &mut u64,
) -> Answer
    ensures { WorkPost state.old journal.old budget out.old (record { refusal = result.refusal; length = result.length; pages = pages.new }) state.new journal.new out.new }
{
    let worked = agent::work(state, budget, journal, out);
    *pages = worked.pages;
    Answer {
        refusal: worked.refusal,
        length: worked.length,
    }
}

// Any number but 0 is permitted.
#[unsafe(no_mangle)]
pub extern "C" fn arkelutz_permit(
    state: &mut State,
    service: usize,
    permitted: u64,
    journal: &mut [u64],
    out: &mut [u8],
) -> Answer
    ensures { PermitPost state.old journal.old service (is_set permitted) out.old result state.new journal.new out.new }
{
    agent::permit(state, service, permitted != 0, journal, out)
}

// The answer of take: the refusal, and the order (0 none, 1 shutdown, 2 panic).
#[repr(C)]
#[derive(Drop)]
pub struct Taken {
    pub refusal: u64,
    pub order: u64,
}

// A shutdown's delay in milliseconds is written to delay; with a panic and on a refusal, 0.
#[unsafe(no_mangle)]
pub extern "C" fn arkelutz_take(
    state: &mut State,
    journal: &mut [u64],
    out: &mut [u8],
    delay: &mut u64,
) -> Taken
    ensures { TakePost state.old journal.old out.old (record { refusal = result.refusal; order = result.order; delay = delay.new }) state.new journal.new out.new }
{
    let taken = agent::take(state, journal, out);
    *delay = taken.delay;
    Taken {
        refusal: taken.refusal,
        order: taken.order,
    }
}

#[unsafe(no_mangle)]
pub extern "C" fn arkelutz_drain(state: &mut State, journal: &[u64], run: &mut [u64]) -> Drained
    ensures { DrainPost state.old journal.now run.old result state.new journal.now run.new }
{
    agent::drain(state, journal, run)
}

// C has no parts of slices: the length of the part that show gives, which begins after the DATA header.
#[unsafe(no_mangle)]
pub extern "C" fn arkelutz_show(state: &State, channel: usize, message: &[u8]) -> usize
    ensures message_value { take result (drop data_header_bytes message.now) ≡ shown state.now channel message.now }
    ensures value { result ≡ length (shown state.now channel message.now) }
{
    let part = agent::show(state, channel, message);
    part.len()
}

// The answer to a piece: the refusal, and how many bytes were taken.
#[repr(C)]
#[derive(Drop)]
pub struct Pieced {
    pub refusal: u64,
    pub taken: usize,
}

// 1 is written to given where a message was given to the agent, else 0; to length the reply's length.
#[unsafe(no_mangle)]
pub extern "C" fn arkelutz_piece(
    words: &mut FrontWords,
    bytes: &mut FrontBytes,
    state: &mut State,
    channel: usize,
    piece: &[u8],
    journal: &mut [u64],
    out: &mut [u8],
    given: &mut u64,
    length: &mut usize,
) -> Pieced
    ensures given_bound { given.new ≤ 1 }
    ensures piece_post { PiecePost (record { words = words.entry.now; bytes = bytes.old }) state.old journal.old channel piece.now out.old (record { refusal = result.refusal; taken = result.taken; given = is_set given.new; length = length.new }) (record { words = words.exit.now; bytes = bytes.new }) state.new journal.new out.new }
{
    let a = front::piece(words, bytes, state, channel, piece, journal, out);
    let told = u64::from(a.given);
    *given = told;
    *length = a.length;
    Pieced {
        refusal: a.refusal,
        taken: a.taken,
    }
}

// Empties a channel's front.
#[unsafe(no_mangle)]
pub extern "C" fn arkelutz_reopen(
    words: &mut FrontWords,
    bytes: &FrontBytes,
    state: &State,
    channel: usize,
) -> u64
    ensures { ReopenPost (record { words = words.entry.now; bytes = bytes.now }) state.now channel result (record { words = words.exit.now; bytes = bytes.now }) }
{
    front::reopen(words, bytes, state, channel)
}
