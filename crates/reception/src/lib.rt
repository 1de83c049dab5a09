// What a message received does: which channels hear it, and to which handler it goes; and the part of it that the
// host is shown.
#![tactic(auto)]

ghost use Rattle.std.specs.Prelude.{◌≡◌, true, ◌≤◌, ◌<◌, length, Some, None};
ghost use Rattle.model.specs.Layout.{channel_count, output_bytes};
ghost use Rattle.model.specs.Peers.{peer_for};
ghost use Rattle.model.specs.State.{sound};
ghost use Rattle.model.specs.Messages.{decoded, registered_for};
ghost use Rattle.model.specs.Calls.{data_for, peer_data, heard, receiving, is_host, goes_to_host, shown_to, to_host};
ghost use Rattle.model.specs.Handler.{Handles};

use model::{
    DS_INV_HDL, DS_NACK, DS_UNREG_ACK, DS_UNREG_NACK, Handled, Message, REGISTERED, Route, State,
};

// Whether a channel hears a message: INIT_REQ at any time, any other well-formed message if it is ready.
#[tactic(auto, unfolding(model::specs::Calls::hears))]
fn hears(ready: bool, message: Message) -> bool
    ensures { result ≡ Rattle.model.specs.Calls.hears ready message }
{
    match message {
        Message::InitReq { .. } => true,
        Message::Bad => false,
        _ => ready,
    }
}

// Data for a registered service: to the memory service, to the virtual devices', to those of orders, or to the host.
#[tactic(auto, unfolding(model::specs::Calls::data_for, model::specs::Calls::routed, wire::specs::BigEndian::written))]
fn deliver(
    state: &mut State,
    channel: usize,
    service: usize,
    handle: u64,
    payload: &[u8],
    out: &mut [u8],
) -> Handled
    requires { (sound state.old ≡ true) × (output_bytes ≤ length out.old) × (channel < channel_count) }
    ensures { Handles (data_for state.old channel handle payload.now (Some service)) out.old result.length result.event state.new out.new }
{
    match services::route(service) {
        Route::Memory => memory::answer(state, channel as u64, handle, payload, out),
        Route::Devices => devices::answer(state, channel as u64, handle, payload, out),
        Route::Orders => orders::answer(state, channel as u64, handle, service, payload, out),
        Route::Host => Handled {
            length: 0,
            event: events::delivered(channel as u64, service as u64),
        },
    }
}

// "Otherwise the reply is NACK with the handle and result 3."
#[tactic(auto, unfolding(model::specs::Calls::peer_data))]
fn refuse_data(state: &State, channel: usize, handle: u64, out: &mut [u8]) -> Handled
    requires { output_bytes ≤ length out.old }
    ensures { Handles (peer_data state.now channel handle None) out.old result.length result.event state.now out.new }
{
    let length = services::put_nack(out, handle, DS_INV_HDL);
    Handled {
        length,
        event: events::data_refused(channel as u64, handle),
    }
}

// DATA for no service of ours: "data on a live peer handle goes to the host with kind 24".
#[tactic(auto, unfolding(model::specs::Calls::peer_data, wire::specs::BigEndian::written))]
fn take_peer_data(state: &State, channel: usize, handle: u64, out: &mut [u8]) -> Handled
    requires { (channel < channel_count) × (output_bytes ≤ length out.old) }
    ensures { Handles (peer_data state.now channel handle (peer_for state.now channel handle)) out.old result.length result.event state.now out.new }
{
    match peers::find_peer(state, channel, handle) {
        Some(_) => Handled {
            length: 0,
            event: events::peer_data(channel as u64),
        },
        None => refuse_data(state, channel, handle, out),
    }
}

// DATA: "whose handle is registered on this channel reaches that service".
#[tactic(auto, unfolding(model::specs::Calls::data_for))]
fn take_data(
    state: &mut State,
    channel: usize,
    handle: u64,
    payload: &[u8],
    out: &mut [u8],
) -> Handled
    requires { (sound state.old ≡ true) × (channel < channel_count) × (output_bytes ≤ length out.old) }
    ensures { Handles (data_for state.old channel handle payload.now (registered_for state.old channel handle)) out.old result.length result.event state.new out.new }
{
    match state::find_staged(state, channel, handle, REGISTERED) {
        Some(place) => deliver(state, channel, place, handle, payload, out),
        None => take_peer_data(state, channel, handle, out),
    }
}

// What a message does on a channel that hears it.
#[tactic(auto, unfolding(model::specs::Calls::heard))]
fn hear(
    state: &mut State,
    channel: usize,
    message: &[u8],
    decoded: Message,
    out: &mut [u8],
) -> Handled
    requires { (sound state.old ≡ true) × (channel < channel_count) × (output_bytes ≤ length out.old) × (decoded ≡ Rattle.model.specs.Messages.decoded message.now) }
    ensures { Handles (heard state.old channel message.now decoded) out.old result.length result.event state.new out.new }
{
    match decoded {
        Message::InitReq { major } => protocol::initiate(state, channel, major, out),
        Message::RegReq { .. } => registration::register_peer(state, channel, message, out),
        Message::RegAck { handle, minor } => protocol::acknowledge(state, channel, handle, minor),
        Message::RegNack { handle } => protocol::not_acknowledge(state, channel, handle),
        Message::Unreg { handle } => protocol::unregister(state, channel, handle, out),
        Message::UnregAck => protocol::only_noted(state, channel, DS_UNREG_ACK),
        Message::UnregNack => protocol::only_noted(state, channel, DS_UNREG_NACK),
        Message::Data { handle } => take_data(
            state,
            channel,
            handle,
            messages::payload(message),
            out,
        ),
        Message::Nack => protocol::only_noted(state, channel, DS_NACK),
        Message::Bad => protocol::close(state, channel, 1),
    }
}

// What a message does.
#[tactic(auto, unfolding(model::specs::Calls::receiving, basics::specs::Choice::pick))]
pub fn take(state: &mut State, channel: usize, message: &[u8], out: &mut [u8]) -> Handled
    requires { (sound state.old ≡ true) × (channel < channel_count) × (output_bytes ≤ length out.old) }
    ensures { Handles (receiving state.old channel message.now) out.old result.length result.event state.new out.new }
{
    let ready = state::is_ready(state, channel);
    let decoded = messages::decode(message);
    if hears(ready, decoded) {
        hear(state, channel, message, decoded, out)
    } else {
        protocol::close(state, channel, 1)
    }
}

// The data for the service that was found goes to the host.
#[tactic(auto, unfolding(model::specs::Calls::goes_to_host))]
fn goes_to_host(found: Option<usize>) -> bool
    ensures { result ≡ goes_to_host found }
{
    found.is_some_and(|place| is_host(services::route(place)))
}

#[tactic(auto, unfolding(model::specs::Calls::is_host))]
fn is_host(route: Route) -> bool
    ensures { result ≡ is_host route }
{
    matches!(route, Route::Host)
}

// Data under the handle goes to the host: to a service that we have registered, or to one of the peer's.
fn is_shown(state: &State, channel: usize, handle: u64) -> bool
    requires { channel < channel_count }
    ensures { result ≡ shown_to state.now channel handle }
{
    goes_to_host(state::find_staged(state, channel, handle, REGISTERED))
        || peers::has_handle(state, channel, handle)
}

// The message is data for the host.
#[tactic(auto, unfolding(model::specs::Calls::to_host))]
pub fn is_to_host(state: &State, channel: usize, message: Message) -> bool
    requires { channel < channel_count }
    ensures { result ≡ to_host state.now channel message }
{
    match message {
        Message::Data { handle } => is_shown(state, channel, handle),
        _ => false,
    }
}
