// "Each work step does one thing": the work step of an outstanding removal, and the late reply at its end.
#![tactic(auto)]

ghost use Rattle.std.specs.Prelude.{◌≡◌, true, [], ◌+◌, ◌-◌, ◌<◌, ◌≤◌, min, length, Some};
ghost use Rattle.std.proofs.lemmas.List.Edits.{sets};
ghost use Rattle.wire.specs.BigEndian.{written};
ghost use Rattle.basics.specs.Choice.{◌or◌, joined};
ghost use Rattle.model.specs.Layout.{block_at, channel_count, is_set, most_blocks, most_records, output_bytes, outstanding_of, removal_of, reply_header_bytes, with_removal};
ghost use Rattle.model.specs.Search.{BlocksInOrder};
ghost use Rattle.model.specs.State.{sound};
ghost use Rattle.model.specs.Journal.{settled_event};
ghost use Rattle.model.specs.Messages.{effect};
ghost use Rattle.model.specs.Work.{block_now, all_settled, collects, end_code, ending, failing_code, late_reply, moving, result_at, settled, still_registered, working, works_at, works_on};
ghost use Rattle.model.specs.Handler.{Handles, HandlesSilently, HandlesStep};
ghost use Rattle.removal.specs.Fits.{late_record, Fits, Held, CanWork, GoesOn, StepsSilently};

use model::{
    DR_MEM_RES_CANCELLED, DR_MEM_RES_FAILURE, DR_MEM_RES_NOWORK, DR_MEM_RES_OK, DR_MEM_RES_PERM,
    Event, Handled, MEMORY_SERVICE, REGISTERED, SERVICE_COUNT, State, Stepped,
};

// The block that the record at the position names, if there is one.
fn block_now(state: &State) -> Option<usize>
    requires { BlocksInOrder state.now × ((removal_of state.now).position < most_records) }
    ensures { result ≡ block_now state.now (removal_of state.now) }
{
    let at = removal_state::position_of(state) as usize;
    let addr = removal_state::address_of(state, at);
    let size = removal_state::size_of(state, at);
    blocks::named_block(state, addr, size)
}

// "cancelled, or all records are settled"
fn is_over(state: &State) -> bool
    ensures { result ≡ ((removal_of state.now).cancelled or all_settled (removal_of state.now)) }
{
    removal_state::is_cancelled(state)
        || removal_state::count_of(state) <= removal_state::position_of(state)
}

// The code of a failing record: unknown, or with permanent pages.
fn failing_code(found: Option<usize>) -> u64
    ensures { result ≡ failing_code found }
{
    match found {
        Some(_) => DR_MEM_RES_PERM,
        None => DR_MEM_RES_FAILURE,
    }
}

// "code 3 if cancelled, else the failing record's 1 or 5, else 0"
fn end_code(state: &State) -> u64
    requires { Fits state.now (removal_of state.now) }
    ensures { result ≡ end_code state.now (removal_of state.now) }
{
    if removal_state::is_cancelled(state) {
        DR_MEM_RES_CANCELLED
    } else if removal_state::count_of(state) <= removal_state::position_of(state) {
        DR_MEM_RES_OK
    } else {
        failing_code(block_now(state))
    }
}

// Record i's result at the end, `code` if it is the failing record.
fn result_at(state: &State, i: usize, code: u64) -> u64
    requires { (i < most_records) × (code ≡ end_code state.now (removal_of state.now)) }
    ensures { result ≡ result_at state.now (removal_of state.now) i }
{
    let position = removal_state::position_of(state) as usize;
    if i < position {
        removal_state::result_of(state, i)
    } else if removal_state::is_cancelled(state) {
        DR_MEM_RES_CANCELLED
    } else if i == position {
        code
    } else {
        DR_MEM_RES_FAILURE
    }
}

// "If the handle isn't registered on its channel for service 0 any more, no reply is written."
fn still_registered(state: &State) -> bool
    requires { (removal_of state.now).channel < channel_count }
    ensures { result ≡ still_registered state.now (removal_of state.now) }
{
    let k = removal_state::channel_of(state) as usize * SERVICE_COUNT + MEMORY_SERVICE;
    state::stage_of(state, k) == REGISTERED
        && state::handle_of(state, k) == removal_state::handle_of(state)
}

// The `n` records of the late reply.
fn put_late_records(state: &State, code: u64, n: usize, out: &mut [u8])
    requires { BlocksInOrder state.now × (n ≤ most_records) × (code ≡ end_code state.now (removal_of state.now)) × (output_bytes ≤ length out.old) }
    ensures { out.new ≡ sets out.old reply_header_bytes (joined (late_record state.now) n) }
{
    for i in 0..n {
        let addr = removal_state::address_of(state, i);
        let size = removal_state::size_of(state, i);
        let result = result_at(state, i, code);
        records::put_result(state, out, i, addr, size, result);
    }
}

// Writes the late reply, under the removal's own handle; answers its length.
fn put_late_reply(state: &State, code: u64, out: &mut [u8]) -> usize
    requires { Fits state.now (removal_of state.now) × (code ≡ end_code state.now (removal_of state.now)) × (output_bytes ≤ length out.old) }
    ensures { (result ≡ length (late_reply state.now (removal_of state.now))) × (out.new ≡ written (late_reply state.now (removal_of state.now)) out.old) }
{
    let n = removal_state::count_of(state) as usize;
    let handle = removal_state::handle_of(state);
    let request = removal_state::request_of(state);
    let length = records::put_results_header(out, handle, request, n);
    put_late_records(state, code, n, out);
    length
}

// The end: none is outstanding any more, and the reply if the handle is still registered.
fn end_removal(state: &mut State, out: &mut [u8]) -> Handled
    requires { Fits state.old (removal_of state.old) × ((removal_of state.old).channel < channel_count) × (output_bytes ≤ length out.old) }
    ensures { Handles (ending state.old (removal_of state.old)) out.old result.length result.event state.new out.new }
{
    let code = end_code(state);
    let channel = removal_state::channel_of(state);
    let request = removal_state::request_of(state);
    if still_registered(state) {
        let length = put_late_reply(state, code, out);
        state::clear_removal(state);
        Handled {
            length,
            event: events::removal_end(channel, code, 1, request),
        }
    } else {
        state::clear_removal(state);
        Handled {
            length: 0,
            event: events::removal_end(channel, code, 0, request),
        }
    }
}

// Settles the record at the position; so many pages were moved from the block.
fn settle(state: &mut State, res: u64, pages: u64, block: u64) -> Event
    requires { Held state.old × ((removal_of state.old).position < most_records) × (block < most_blocks) }
    ensures { HandlesSilently (effect (settled_event (removal_of state.old).channel (removal_of state.old).position res pages block) (with_removal state.old (settled (removal_of state.old) res)) []) 0 result state.new }
{
    let channel = removal_state::channel_of(state);
    let position = removal_state::position_of(state);
    removal_state::settle(state, res);
    events::settled(channel, position, res, pages, block)
}

// "the lesser of the budget and what remains"
fn pages_moved(pages: u64, collected: u64, budget: u64) -> u64
    requires { collected ≤ pages }
    ensures { result ≡ min budget (pages - collected) }
{
    budget.min(pages - collected)
}

// Collects n pages of the block; "when none remains the block becomes unconfigured and is settled OK."
fn collect(state: &mut State, block: usize, n: u64) -> Event
    requires { Held state.old × (block < most_blocks) × ((removal_of state.old).position < most_records) × ((removal_of state.old).collected + n ≤ (block_at state.old block).pages) }
    ensures { HandlesSilently (collects state.old (removal_of state.old) block n) 0 result state.new }
{
    let pages = state::pages_of(state, block);
    if removal_state::collected_of(state) + n == pages {
        state::set_configured(state, block, 0);
        settle(state, DR_MEM_RES_OK, n, block as u64)
    } else {
        let channel = removal_state::channel_of(state);
        removal_state::add_pages(state, n);
        events::collected(channel, n)
    }
}

// "Else, if its block is unconfigured: settle NOWORK. Else collect .."
fn work_on(state: &mut State, block: usize, budget: u64) -> Stepped
    requires { Held state.old × GoesOn state.old (removal_of state.old) block }
    ensures { StepsSilently (works_on state.old (removal_of state.old) block budget) result.length result.event result.pages state.new }
{
    if state::configured_of(state, block) == 0 {
        return Stepped {
            length: 0,
            event: settle(state, DR_MEM_RES_NOWORK, 0, block as u64),
            pages: 0,
        };
    }
    let n = pages_moved(
        state::pages_of(state, block),
        removal_state::collected_of(state),
        budget,
    );
    Stepped {
        length: 0,
        event: collect(state, block, n),
        pages: n,
    }
}

// The end as a step: it moves no pages.
fn end_step(state: &mut State, out: &mut [u8]) -> Stepped
    requires { Fits state.old (removal_of state.old) × ((removal_of state.old).channel < channel_count) × (output_bytes ≤ length out.old) }
    ensures { HandlesStep (moving 0 (ending state.old (removal_of state.old))) out.old result.length result.event result.pages state.new out.new }
{
    let Handled { length, event } = end_removal(state, out);
    Stepped {
        length,
        event,
        pages: 0,
    }
}

// "or the record at the position .. has permanent pages"
fn work_at(state: &mut State, block: usize, budget: u64, out: &mut [u8]) -> Stepped
    requires { CanWork state.old × (block_now state.old (removal_of state.old) ≡ Some block) × (output_bytes ≤ length out.old) }
    ensures { HandlesStep (works_at state.old (removal_of state.old) budget (Some block)) out.old result.length result.event result.pages state.new out.new }
{
    if state::permanent_of(state, block) != 0 {
        end_step(state, out)
    } else {
        work_on(state, block, budget)
    }
}

// The work step with a budget of pages, and the pages that it moved.
pub fn step(state: &mut State, budget: u64, out: &mut [u8]) -> Stepped
    requires { (sound state.old ≡ true) × (is_set (outstanding_of state.old) ≡ true) × (output_bytes ≤ length out.old) }
    ensures { HandlesStep (working state.old budget) out.old result.length result.event result.pages state.new out.new }
{
    if is_over(state) {
        return end_step(state, out);
    }
    match block_now(state) {
        Some(block) => work_at(state, block, budget, out),
        None => end_step(state, out),
    }
}
