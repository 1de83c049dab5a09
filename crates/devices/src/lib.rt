// "Answer `dr-vio` inside": the form of a request of the virtual devices' service, what each does to the state, and its reply.
#![tactic(auto)]

ghost use Rattle.std.specs.Prelude.{◌≡◌, true, not, List, [], ℕ, ◌+◌, ◌-◌, ◌≤◌, ◌<◌, length, eqb};
ghost use Rattle.wire.specs.BigEndian.{byte_at, written};
ghost use Rattle.basics.specs.Choice.{◌and◌, every, pick};
ghost use Rattle.model.specs.Layout.{channel_count, most_devices, output_bytes};
ghost use Rattle.model.specs.State.{sound};
ghost use Rattle.model.specs.DeviceRequests.{DR-VIO-RES-FAILURE, DR-VIO-RES-NOT-IN-MD, DR-VIO-RES-OK, answered_device, answering_device, asking_device, device_for, device_number, device_reply, device_result, device_status, has_name, operation, operation_of};
ghost use Rattle.model.specs.Devices.{named_device};
ghost use Rattle.model.specs.Handler.{Handles};

use model::{
    DATA_HEADER_BYTES, DEVICE_HEADER_BYTES, DEVICE_NUMBER_BYTES, DEVICE_REPLY_BYTES,
    DEVICE_SERVICE, DR_VIO_CONFIGURE, DR_VIO_FORCE_UNCONFIG, DR_VIO_RES_BLOCKED,
    DR_VIO_RES_FAILURE, DR_VIO_RES_NOT_IN_MD, DR_VIO_RES_OK, DR_VIO_STAT_CONFIGURED,
    DR_VIO_STAT_NOT_PRESENT, DR_VIO_STAT_UNCONFIGURED, DR_VIO_STATUS, DR_VIO_UNCONFIGURE, DS_DATA,
    DS_HEADER_BYTES, DeviceOperation, Handled, State,
};

// the bytes of a response's payload, and of all of it
const PAYLOAD_BYTES: usize = DATA_HEADER_BYTES - DS_HEADER_BYTES + DEVICE_REPLY_BYTES;

const RESPONSE_BYTES: usize = DATA_HEADER_BYTES + DEVICE_REPLY_BYTES;

// What one of the four types asks for.
fn asks(changes: bool, configured: u64, blockable: bool) -> DeviceOperation
    ensures { result ≡ operation changes configured blockable }
{
    DeviceOperation {
        changes,
        configured,
        blockable,
    }
}

// What a type of message asks for. "Unconfigure of a busy device is BLOCKED; the forced form succeeds."
#[tactic(auto, unfolding(model::specs::DeviceRequests::operation_of, basics::specs::Choice::pick))]
fn operation(message_type: u32) -> Option<DeviceOperation>
    ensures { result ≡ operation_of message_type }
{
    match message_type {
        DR_VIO_CONFIGURE => Some(asks(true, 1, false)),
        DR_VIO_UNCONFIGURE => Some(asks(true, 0, true)),
        DR_VIO_FORCE_UNCONFIG => Some(asks(true, 0, false)),
        DR_VIO_STATUS => Some(asks(false, 0, false)),
        _ => None,
    }
}

// "under 16 bytes req_num is 0"
fn number(b: &[u8]) -> u64
    ensures { result ≡ device_number b.now }
{
    if b.len() < DEVICE_NUMBER_BYTES {
        return 0;
    }
    wire::get64(b, 0)
}

// None of the `n` bytes from `from` on is 0. All of them are read: a loop without another way out takes many bytes a turn.
fn none_is_zero(b: &[u8], from: usize, n: usize) -> bool
    requires { from + n ≤ length b.now }
    ensures { result ≡ every n (λ k. not (eqb (byte_at b.now (from + k)) 0)) }
{
    let mut none = true;
    for k in 0..n {
        none &= b[from + k] != 0;
    }
    none
}

// The name has its one zero, at the end.
fn has_name(b: &[u8]) -> bool
    ensures { result ≡ has_name b.now }
{
    if b.len() <= DEVICE_HEADER_BYTES {
        return false;
    }
    let last = b.len() - 1;
    if b[last] != 0 {
        return false;
    }
    none_is_zero(b, DEVICE_HEADER_BYTES, last - DEVICE_HEADER_BYTES)
}

// The response: req_num, result, status, and "The reason string is one zero byte."
fn put_response(out: &mut [u8], handle: u64, request: u64, res: u64, status: u64)
    requires { output_bytes ≤ length out.old }
    ensures { out.new ≡ written (device_reply handle request res status) out.old }
{
    wire::put32(out, 0, DS_DATA);
    wire::put32(out, 4, PAYLOAD_BYTES as u32);
    wire::put64(out, 8, handle);
    wire::put64(out, 16, request);
    wire::put32(out, 24, (res % 4294967296) as u32);
    wire::put32(out, 28, (status % 4294967296) as u32);
    out[32] = 0;
}

// "others write kind 10 with service 1 and the result as code"
fn refuse(channel: u64, handle: u64, request: u64, res: u64, out: &mut [u8]) -> Handled
    requires { output_bytes ≤ length out.old }
    ensures { (s : List ℕ) → Handles (answering_device s channel handle request res) out.old result.length result.event s out.new }
{
    put_response(out, handle, request, res, DR_VIO_STAT_NOT_PRESENT);
    Handled {
        length: RESPONSE_BYTES,
        event: events::answered(channel, DEVICE_SERVICE as u64, res, request),
    }
}

// "A device already as asked succeeds, tested before busy."
fn result_of(o: DeviceOperation, configured: u64, busy: u64) -> u64
    ensures { result ≡ device_result o (record { id = 0; configured = configured; busy = busy; name = [] }) }
{
    if !o.changes {
        return DR_VIO_RES_OK;
    }
    if configured == o.configured {
        return DR_VIO_RES_OK;
    }
    if !o.blockable {
        return DR_VIO_RES_OK;
    }
    if busy == 1 {
        return DR_VIO_RES_BLOCKED;
    }
    DR_VIO_RES_OK
}

// The state of the device after the request.
fn configured_after(o: DeviceOperation, configured: u64, res: u64) -> u64
    ensures { result ≡ pick (o.changes and eqb res DR-VIO-RES-OK) o.configured configured }
{
    if !o.changes {
        return configured;
    }
    if res == DR_VIO_RES_OK {
        return o.configured;
    }
    configured
}

fn status_of(configured: u64) -> u64
    ensures { result ≡ device_status configured }
{
    if configured == 1 {
        return DR_VIO_STAT_CONFIGURED;
    }
    DR_VIO_STAT_UNCONFIGURED
}

// A known device, at its place.
fn ask(
    state: &mut State,
    channel: u64,
    handle: u64,
    request: u64,
    o: DeviceOperation,
    place: usize,
    out: &mut [u8],
) -> Handled
    requires { (place < most_devices) × (output_bytes ≤ length out.old) }
    ensures { Handles (asking_device state.old channel handle request o place) out.old result.length result.event state.new out.new }
{
    let before = device_list::configured_of(state, place);
    let result = result_of(o, before, device_list::busy_of(state, place));
    let after = configured_after(o, before, result);
    put_response(out, handle, request, result, status_of(after));
    device_list::set_configured(state, place, after);
    Handled {
        length: RESPONSE_BYTES,
        event: events::device(channel, result, place as u64, after),
    }
}

// "Unknown: NOT_IN_MD with status NOT_PRESENT for changes, FAILURE with status 0 for a status request."
fn unknown_result(changes: bool) -> u64
    ensures { result ≡ pick changes DR-VIO-RES-NOT-IN-MD DR-VIO-RES-FAILURE }
{
    if changes {
        return DR_VIO_RES_NOT_IN_MD;
    }
    DR_VIO_RES_FAILURE
}

// A request of right form.
fn hear(
    state: &mut State,
    channel: u64,
    handle: u64,
    request: u64,
    o: DeviceOperation,
    id: u64,
    name: &[u8],
    out: &mut [u8],
) -> Handled
    requires { (sound state.old ≡ true) × (output_bytes ≤ length out.old) }
    ensures { Handles (device_for state.old channel handle request o (named_device state.old id name.now)) out.old result.length result.event state.new out.new }
{
    match device_list::named_device(state, id, name) {
        Some(place) => ask(state, channel, handle, request, o, place, out),
        None => refuse(channel, handle, request, unknown_result(o.changes), out),
    }
}

// What the virtual devices' service does with the bytes of a request: "An unknown message type, or a name without its one zero at the end, is FAILURE".
pub fn answer(state: &mut State, channel: u64, handle: u64, b: &[u8], out: &mut [u8]) -> Handled
    requires { (sound state.old ≡ true) × (output_bytes ≤ length out.old) × (channel < channel_count) }
    ensures { Handles (answered_device state.old channel handle b.now) out.old result.length result.event state.new out.new }
{
    let request = number(b);
    if !has_name(b) {
        return refuse(channel, handle, request, DR_VIO_RES_FAILURE, out);
    }
    let Some(o) = operation(wire::get32(b, DEVICE_NUMBER_BYTES) as u32) else {
        return refuse(channel, handle, request, DR_VIO_RES_FAILURE, out);
    };
    hear(
        state,
        channel,
        handle,
        request,
        o,
        wire::get64(b, 8),
        &b[DEVICE_HEADER_BYTES..],
        out,
    )
}
