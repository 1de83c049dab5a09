// 02, ticket 7: "The other end has services as well." What a REG_REQ of the peer does, and its UNREG.
#![tactic(auto)]

ghost use Rattle.std.specs.Prelude.{◌≡◌, true, List, ℕ, ◌≤◌, ◌<◌, length, leb, ltb, Some, None};
ghost use Rattle.basics.specs.Choice.{pick, ◌or◌, is_found};
ghost use Rattle.model.specs.Layout.{channel_count, most_ids, most_peers, output_bytes, with_peer};
ghost use Rattle.model.specs.Peers.{top_bit, is_peered, peer_for, peers_below};
ghost use Rattle.model.specs.State.{sound};
ghost use Rattle.model.specs.Journal.{peer_registered_event};
ghost use Rattle.model.specs.Messages.{DS-REG-DUP, DS-REG-REQ, effect, noting, not_registering, peer_unregistered, reg_ack, reg_id, registering, registering_at, reg_nack};
ghost use Rattle.model.specs.Handler.{Handles};

use model::{
    DS_REG_DUP, DS_REG_REQ, DS_REG_VER_NACK, DS_UNREG, Handled, MOST_PEERS, State, TOP_BIT,
};

// REG_REQ.

// One that registers nothing.
#[tactic(auto, unfolding(model::specs::Messages::noting))]
fn refuse(channel: usize, handle: u64, res: u64, major: u16, out: &mut [u8]) -> Handled
    requires { output_bytes ≤ length out.old }
    ensures { (s : List ℕ) → Handles (noting s channel DS-REG-REQ (reg_nack handle res major)) out.old result.length result.event s out.new }
{
    let length = services::put_reg_nack(out, handle, res, major);
    Handled {
        length,
        event: events::noted(channel as u64, u64::from(DS_REG_REQ)),
    }
}

// One that registers the id at `place`.
fn accept(
    state: &mut State,
    channel: usize,
    place: usize,
    handle: u64,
    minor: u16,
    out: &mut [u8],
) -> Handled
    requires { (channel < channel_count) × (place < most_ids) × (output_bytes ≤ length out.old) }
    ensures { Handles (effect (peer_registered_event channel place minor handle) (with_peer state.old channel place handle minor) (reg_ack handle minor)) out.old result.length result.event state.new out.new }
{
    let length = services::put_reg_ack(out, handle, minor);
    peers::set_peer(state, channel, place, handle, u64::from(minor));
    Handled {
        length,
        event: events::peer_registered(channel as u64, place as u64, u64::from(minor), handle),
    }
}

// The major that a refusal tells: "a higher major is told ours; a lower one gets 0".
#[tactic(auto, unfolding(basics::specs::Choice::pick))]
fn told_major(own: u64, asked: u64) -> u16
    requires { asked < 65536 }
    ensures { result ≡ pick (ltb own asked) own 0 }
{
    if own < asked { own as u16 } else { 0 }
}

// "A handle with the top bit, a handle .. of a peer registration on its channel, or a ninth one": what makes it a
// duplicate, whatever its id.
fn is_refused(state: &State, channel: usize, handle: u64) -> bool
    requires { channel < channel_count }
    ensures { result ≡ (leb top_bit handle or is_found (peer_for state.now channel handle) or leb most_peers (peers_below state.now channel most_ids)) }
{
    TOP_BIT <= handle
        || peers::has_handle(state, channel, handle)
        || MOST_PEERS <= peers::count(state, channel)
}

// svc_id: the payload from byte 12 on, the message from byte 20 on.
fn id_of(message: &[u8]) -> &[u8]
    requires { 20 ≤ length message.now }
    ensures { result.now ≡ reg_id message.now }
{
    &message[20..]
}

// A REG_REQ of a listed id that the channel does not have registered: "The right major is acknowledged with the
// lower minor".
fn register_id(
    state: &mut State,
    channel: usize,
    place: usize,
    message: &[u8],
    out: &mut [u8],
) -> Handled
    requires { (channel < channel_count) × (place < most_ids) × (20 ≤ length message.now) × (output_bytes ≤ length out.old) }
    ensures { Handles (registering_at state.old channel message.now (Some place)) out.old result.length result.event state.new out.new }
{
    let handle = wire::get64(message, 8);
    let asked = wire::get16(message, 16);
    let own = id_list::major_of(state, place);
    if asked != own {
        return refuse(
            channel,
            handle,
            DS_REG_VER_NACK,
            told_major(own, asked),
            out,
        );
    }
    let most = id_list::highest_minor_of(state, place);
    let offered = wire::get16(message, 18);
    let minor = most.min(offered) as u16;
    accept(state, channel, place, handle, minor, out)
}

// A REG_REQ of a listed id: ".. or id of a peer registration on its channel .. is DS_REG_DUP with major 0".
fn register_listed(
    state: &mut State,
    channel: usize,
    place: usize,
    message: &[u8],
    out: &mut [u8],
) -> Handled
    requires { (channel < channel_count) × (place < most_ids) × (20 ≤ length message.now) × (output_bytes ≤ length out.old) }
    ensures { Handles (pick (is_peered state.old channel place) (not_registering state.old channel message.now DS-REG-DUP 0) (registering_at state.old channel message.now (Some place))) out.old result.length result.event state.new out.new }
{
    if peers::is_peered(state, channel, place) {
        return refuse(channel, wire::get64(message, 8), DS_REG_DUP, 0, out);
    }
    register_id(state, channel, place, message, out)
}

// A REG_REQ of the peer. What makes it a duplicate whatever its id is tested before the id is looked for.
pub fn register_peer(state: &mut State, channel: usize, message: &[u8], out: &mut [u8]) -> Handled
    requires { (sound state.old ≡ true) × (channel < channel_count) × (20 ≤ length message.now) × (output_bytes ≤ length out.old) }
    ensures { Handles (registering state.old channel message.now) out.old result.length result.event state.new out.new }
{
    let handle = wire::get64(message, 8);
    if is_refused(state, channel, handle) {
        return refuse(channel, handle, DS_REG_DUP, 0, out);
    }
    match id_list::listed_id(state, id_of(message)) {
        Some(place) => register_listed(state, channel, place, message, out),
        None => refuse(channel, handle, DS_REG_VER_NACK, 0, out),
    }
}

// UNREG.

// A registration of the peer ended by its UNREG.
#[tactic(auto, unfolding(model::specs::Messages::peer_unregistered))]
fn end(state: &mut State, channel: usize, place: usize, handle: u64, out: &mut [u8]) -> Handled
    requires { (channel < channel_count) × (place < most_ids) × (output_bytes ≤ length out.old) }
    ensures { Handles (peer_unregistered state.old channel handle (Some place)) out.old result.length result.event state.new out.new }
{
    let length = services::put_unreg_ack(out, handle);
    peers::end_peer(state, channel, place);
    Handled {
        length,
        event: events::peer_ended(channel as u64, handle),
    }
}

// An UNREG of a handle that is not live.
#[tactic(auto, unfolding(model::specs::Messages::peer_unregistered, model::specs::Messages::noting))]
fn refuse_end(state: &State, channel: usize, handle: u64, out: &mut [u8]) -> Handled
    requires { output_bytes ≤ length out.old }
    ensures { Handles (peer_unregistered state.now channel handle None) out.old result.length result.event state.now out.new }
{
    let length = services::put_unreg_nack(out, handle);
    Handled {
        length,
        event: events::noted(channel as u64, u64::from(DS_UNREG)),
    }
}

// The UNREG of a handle that is none of ours.
pub fn end_peer(state: &mut State, channel: usize, handle: u64, out: &mut [u8]) -> Handled
    requires { (channel < channel_count) × (output_bytes ≤ length out.old) }
    ensures { Handles (peer_unregistered state.old channel handle (peer_for state.old channel handle)) out.old result.length result.event state.new out.new }
{
    match peers::find_peer(state, channel, handle) {
        Some(place) => end(state, channel, place, handle, out),
        None => refuse_end(state, channel, handle, out),
    }
}
