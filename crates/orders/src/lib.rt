// 02, ticket 6: requests to shut down and to panic (services 2 and 3), the host's permissions, and the order that a
// request leaves for the host.
#![tactic(auto)]

ghost use Rattle.std.specs.Prelude.{◌≡◌, List, ℕ, ◌+◌, ◌≤◌, ◌<◌, length};
ghost use Rattle.std.proofs.lemmas.List.Edits.{sets};
ghost use Rattle.model.specs.Layout.{output_bytes, service_count, shutdown_service, is_set, permission_at, order_of, delay_of, with_permission, with_order};
ghost use Rattle.model.specs.Orders.{DOMAIN-SHUTDOWN-FAILURE, order_number, order_bytes, order_reply, not_ordered, ordering, ordering_for, answered_order, permitting, taking};
ghost use Rattle.model.specs.Handler.{Handles, HandlesSilently};
ghost use Rattle.services.specs.Output.{Wrote};

use model::{
    DELAY_WORD, DOMAIN_SHUTDOWN_FAILURE, DOMAIN_SHUTDOWN_INVALID_MSG, DOMAIN_SHUTDOWN_SUCCESS,
    DS_DATA, FIRST_PERMISSION_WORD, Handled, ORDER_NONE, ORDER_PANIC, ORDER_SHUTDOWN, ORDER_WORD,
    PANIC_BYTES, SHUTDOWN_BYTES, SHUTDOWN_SERVICE, State,
};

// Whether requests to the service are permitted.
pub fn is_permitted(state: &State, service: usize) -> bool
    requires { (shutdown_service ≤ service) × (service < service_count) }
    ensures { result ≡ is_set (permission_at state.now service) }
{
    state[FIRST_PERMISSION_WORD + (service - SHUTDOWN_SERVICE)] != 0
}

// The order that waits (0 none, 1 shutdown, 2 panic), and its delay.
pub fn order_of(state: &State) -> u64
    ensures { result ≡ order_of state.now }
{
    state[ORDER_WORD]
}

pub fn delay_of(state: &State) -> u64
    ensures { result ≡ delay_of state.now }
{
    state[DELAY_WORD]
}

#[tactic(auto, unfolding(model::specs::Layout::with_order))]
fn set_order(state: &mut State, order: u64, delay: u64)
    ensures { state.new ≡ with_order state.old order delay }
{
    state[ORDER_WORD] = order;
    state[DELAY_WORD] = delay;
}

#[tactic(auto, unfolding(model::specs::Layout::with_permission))]
fn set_permission(state: &mut State, service: usize, permitted: u64)
    requires { (shutdown_service ≤ service) × (service < service_count) }
    ensures { state.new ≡ with_permission state.old service permitted }
{
    state[FIRST_PERMISSION_WORD + (service - SHUTDOWN_SERVICE)] = permitted;
}

// "The host sets, per service, whether it is permitted"
#[tactic(auto, unfolding(model::specs::Orders::permitting))]
pub fn permit(state: &mut State, service: usize, permitted: bool) -> Handled
    requires { (shutdown_service ≤ service) × (service < service_count) }
    ensures { HandlesSilently (permitting state.old service permitted) result.length result.event state.new }
{
    let word = u64::from(permitted);
    set_permission(state, service, word);
    Handled {
        length: 0,
        event: events::permitted(service as u64, word),
    }
}

// "the host takes the order"
#[tactic(auto, unfolding(model::specs::Orders::taking))]
pub fn take(state: &mut State) -> Handled
    ensures { HandlesSilently (taking state.old) result.length result.event state.new }
{
    set_order(state, ORDER_NONE, 0);
    Handled {
        length: 0,
        event: events::taken(),
    }
}

// Writes bytes from `at` on, and no other byte.
fn put_bytes(out: &mut [u8], at: usize, bytes: &[u8])
    requires { at + length bytes.now ≤ length out.old }
    ensures { out.new ≡ sets out.old at bytes.now }
{
    for i in 0..bytes.len() {
        out[at + i] = bytes[i];
    }
}

// What a request is asked under: its channel, handle and service, and its number.
#[derive(Clone, Copy)]
struct Asked {
    channel: u64,
    handle: u64,
    service: usize,
    request: u64,
}

// The response: req_num, result, and the reason if there is one.
fn put_reply(out: &mut [u8], asked: Asked, res: u32, reason: &[u8]) -> usize
    requires { (length reason.now ≤ 8) × (output_bytes ≤ length out.old) }
    ensures { Wrote (order_reply asked.handle asked.request res reason.now) out.old result out.new }
{
    wire::put32(out, 0, DS_DATA);
    wire::put32(out, 4, (20 + reason.len()) as u32);
    wire::put64(out, 8, asked.handle);
    wire::put64(out, 16, asked.request);
    wire::put32(out, 24, res);
    put_bytes(out, 28, reason);
    28 + reason.len()
}

// A request that leaves no order.
#[tactic(auto, unfolding(model::specs::Orders::not_ordered))]
fn refuse(asked: Asked, res: u32, reason: &[u8], out: &mut [u8]) -> Handled
    requires { (length reason.now ≤ 8) × (output_bytes ≤ length out.old) }
    ensures { (s : List ℕ) → Handles (not_ordered s asked.channel asked.handle asked.service asked.request res reason.now) out.old result.length result.event s out.new }
{
    let length = put_reply(out, asked, res, reason);
    Handled {
        length,
        event: events::ordered(asked.channel, asked.service as u64, u64::from(res), 0),
    }
}

// A request that fails, with its reason.
fn fail(asked: Asked, reason: &[u8], out: &mut [u8]) -> Handled
    requires { (length reason.now ≤ 8) × (output_bytes ≤ length out.old) }
    ensures { (s : List ℕ) → Handles (not_ordered s asked.channel asked.handle asked.service asked.request DOMAIN-SHUTDOWN-FAILURE reason.now) out.old result.length result.event s out.new }
{
    refuse(asked, DOMAIN_SHUTDOWN_FAILURE, reason, out)
}

// "Permitted requests succeed, with no reason bytes, and leave an order for the host"
#[tactic(auto, unfolding(model::specs::Orders::ordering))]
fn leave(state: &mut State, asked: Asked, order: u64, delay: u64, out: &mut [u8]) -> Handled
    requires { output_bytes ≤ length out.old }
    ensures { Handles (ordering state.old asked.channel asked.handle asked.service asked.request order delay) out.old result.length result.event state.new out.new }
{
    set_order(state, order, delay);
    let length = put_reply(out, asked, DOMAIN_SHUTDOWN_SUCCESS, b"");
    let code = u64::from(DOMAIN_SHUTDOWN_SUCCESS);
    Handled {
        length,
        event: events::ordered(asked.channel, asked.service as u64, code, delay),
    }
}

// The request's number: "number 0 when under 8 bytes came".
#[tactic(auto, unfolding(model::specs::Orders::order_number, basics::specs::Choice::pick))]
fn number_of(b: &[u8]) -> u64
    ensures { result ≡ order_number b.now }
{
    if b.len() < 8 { 0 } else { wire::get64(b, 0) }
}

#[tactic(auto, unfolding(model::specs::Orders::order_bytes, basics::specs::Choice::pick))]
fn bytes_of(service: usize) -> usize
    ensures { result ≡ order_bytes service }
{
    if service == SHUTDOWN_SERVICE {
        SHUTDOWN_BYTES
    } else {
        PANIC_BYTES
    }
}

// The order of a request of right length.
#[tactic(auto, unfolding(model::specs::Orders::ordering_for, basics::specs::Choice::pick))]
fn leave_for(state: &mut State, asked: Asked, b: &[u8], out: &mut [u8]) -> Handled
    requires { (length b.now ≡ order_bytes asked.service) × (asked.request ≡ order_number b.now) × (output_bytes ≤ length out.old) }
    ensures { Handles (ordering_for state.old asked.channel asked.handle asked.service b.now) out.old result.length result.event state.new out.new }
{
    if asked.service == SHUTDOWN_SERVICE {
        let delay = wire::get32(b, 8);
        leave(state, asked, ORDER_SHUTDOWN, delay, out)
    } else {
        leave(state, asked, ORDER_PANIC, 0, out)
    }
}

// "A wrong length, tested first, ..; then a denied one fails with `denied`"; "a second request before that fails
// with the reason `pending`"
pub fn answer(
    state: &mut State,
    channel: u64,
    handle: u64,
    service: usize,
    b: &[u8],
    out: &mut [u8],
) -> Handled
    requires { (shutdown_service ≤ service) × (service < service_count) × (output_bytes ≤ length out.old) }
    ensures { Handles (answered_order state.old channel handle service b.now) out.old result.length result.event state.new out.new }
{
    let request = number_of(b);
    let asked = Asked {
        channel,
        handle,
        service,
        request,
    };
    if b.len() != bytes_of(service) {
        return refuse(asked, DOMAIN_SHUTDOWN_INVALID_MSG, b"", out);
    }
    if !is_permitted(state, service) {
        return fail(asked, b"denied\0", out);
    }
    if order_of(state) != ORDER_NONE {
        return fail(asked, b"pending\0", out);
    }
    leave_for(state, asked, b, out)
}
