// "Memory messages (service 0)": what each request does to the state, and its reply; CONFIGURE and QUERY by their own crates.
#![tactic(auto)]

ghost use Rattle.std.specs.Prelude.{◌≡◌, true, List, [], ℕ, ◌≤◌, ◌<◌, length};
ghost use Rattle.std.proofs.lemmas.List.Edits.{sets};
ghost use Rattle.basics.specs.Choice.{joined};
ghost use Rattle.model.specs.Layout.{channel_count, most_records, output_bytes, removal_of, reply_header_bytes, status_bytes};
ghost use Rattle.model.specs.Search.{BlocksInOrder};
ghost use Rattle.model.specs.Blocks.{most_pages};
ghost use Rattle.model.specs.State.{sound};
ghost use Rattle.model.specs.Memory.{DR-MEM-RES-BLOCKED, addr_in, answered_memory, answering, answering_error, beginning, blocked, cancelling, memory_reply, reporting, request_of, requested, result_record, size_in, status_record};
ghost use Rattle.model.specs.Handler.{Handles, HandlesSilently};

use model::{
    DR_MEM_ERROR, DR_MEM_OK, DR_MEM_RES_BLOCKED, Handled, REPLY_HEADER_BYTES, Request,
    STATUS_BYTES, State,
};
use requests::{Asked, Records};

// A reply without records to a request that changes nothing, noted with the code.
fn reply_bare(asked: Asked, kind: u32, code: u64, out: &mut [u8]) -> Handled
    requires { output_bytes ≤ length out.old }
    ensures { (s : List ℕ) → Handles (answering s asked.channel code asked.request (memory_reply asked.handle kind 0 asked.request [])) out.old result.length result.event s out.new }
{
    records::put_bare(out, asked.handle, kind, asked.request);
    Handled {
        length: REPLY_HEADER_BYTES,
        event: asked.answered(code),
    }
}

// "ERROR 0x65, argument 0, the same req_num .., no more."
fn error(asked: Asked, out: &mut [u8]) -> Handled
    requires { output_bytes ≤ length out.old }
    ensures { (s : List ℕ) → Handles (answering_error s asked.channel asked.handle asked.request) out.old result.length result.event s out.new }
{
    reply_bare(asked, DR_MEM_ERROR, events::CODE_ERROR, out)
}

// "UNCONFIGURE is begun; its reply comes from work."
fn begin(state: &mut State, asked: Asked, records: &Records) -> Handled
    ensures { HandlesSilently (beginning state.old asked.channel asked.handle asked.request records.now.bytes.now records.now.count) result.length result.event state.new }
{
    removal_state::begin(
        state,
        asked.channel,
        asked.handle,
        asked.request,
        records.count,
        records.bytes,
    );
    Handled {
        length: 0,
        event: events::begun(asked.channel, records.count as u64, asked.request),
    }
}

// "total (size of the record at the position) and collected bytes, both 0 once all are settled": the part is the record.
fn put_status_record(state: &State, part: &mut [u8])
    requires { ((removal_of state.now).count ≤ most_records) × ((removal_of state.now).collected ≤ most_pages) × (length part.old ≡ status_bytes) }
    ensures { part.new ≡ status_record (removal_of state.now) }
{
    let position = removal_state::position_of(state);
    if position < removal_state::count_of(state) {
        wire::put64(part, 0, removal_state::size_of(state, position as usize));
        wire::put64(
            part,
            8,
            removal_state::collected_of(state) * blocks::PAGE_SIZE,
        );
    } else {
        wire::put64(part, 0, 0);
        wire::put64(part, 8, 0);
    }
}

// STATUS: "argument 0 if none is outstanding, else 1 and" the record.
fn report(state: &State, asked: Asked, out: &mut [u8]) -> Handled
    requires { (sound state.now ≡ true) × (output_bytes ≤ length out.old) }
    ensures { Handles (reporting state.now asked.channel asked.handle asked.request) out.old result.length result.event state.now out.new }
{
    if state::is_outstanding(state) {
        records::put_header(out, asked.handle, DR_MEM_OK, 1, asked.request, STATUS_BYTES);
        let length = REPLY_HEADER_BYTES + STATUS_BYTES;
        put_status_record(state, &mut out[REPLY_HEADER_BYTES..length]);
        Handled {
            length,
            event: asked.answered(events::CODE_NONE),
        }
    } else {
        reply_bare(asked, DR_MEM_OK, events::CODE_NONE, out)
    }
}

// "CANCEL: reply argument 0. .. a second CANCEL changes nothing."
fn cancel(state: &mut State, asked: Asked, out: &mut [u8]) -> Handled
    requires { (sound state.old ≡ true) × (output_bytes ≤ length out.old) }
    ensures { Handles (cancelling state.old asked.channel asked.handle asked.request) out.old result.length result.event state.new out.new }
{
    let unchanged = reply_bare(asked, DR_MEM_OK, events::CODE_NONE, out);
    if state::is_outstanding(state) && !removal_state::is_cancelled(state) {
        removal_state::mark(state);
        return Handled {
            event: events::cancelled(asked.channel, asked.request),
            ..unchanged
        };
    }
    unchanged
}

// The records of a request, each BLOCKED.
fn put_blocked(state: &State, records: &Records, out: &mut [u8])
    requires { BlocksInOrder state.now × (output_bytes ≤ length out.old) }
    ensures { out.new ≡ sets out.old reply_header_bytes (joined (λ i. result_record state.now (addr_in records.now.bytes.now i) (size_in records.now.bytes.now i) DR-MEM-RES-BLOCKED) records.now.count) }
{
    for i in 0..records.count {
        let (addr, size) = records.pair(i);
        records::put_result(state, out, i, addr, size, DR_MEM_RES_BLOCKED);
    }
}

// "CONFIGURE or UNCONFIGURE while a removal is outstanding: every record BLOCKED (2)."
fn block(state: &State, asked: Asked, records: &Records, out: &mut [u8]) -> Handled
    requires { BlocksInOrder state.now × (output_bytes ≤ length out.old) }
    ensures { Handles (blocked state.now asked.channel asked.handle asked.request records.now.bytes.now records.now.count) out.old result.length result.event state.now out.new }
{
    let length = records::put_results_header(out, asked.handle, asked.request, records.count);
    put_blocked(state, records, out);
    Handled {
        length,
        event: asked.answered(events::CODE_BLOCKED),
    }
}

// Each request by its own function.
fn dispatch(state: &mut State, asked: Asked, b: &[u8], decoded: Request, out: &mut [u8]) -> Handled
    requires { (sound state.old ≡ true) × (output_bytes ≤ length out.old) × (decoded ≡ request_of b.now) }
    ensures { Handles (requested state.old asked.channel asked.handle asked.request b.now decoded) out.old result.length result.event state.new out.new }
{
    match decoded {
        Request::Configure { records } if state::is_outstanding(state) => {
            block(state, asked, &Records::new(b, records), out)
        }
        Request::Configure { records } => {
            configuration::configure(state, asked, &Records::new(b, records), out)
        }
        Request::Unconfigure { records } if state::is_outstanding(state) => {
            block(state, asked, &Records::new(b, records), out)
        }
        Request::Unconfigure { records } => begin(state, asked, &Records::new(b, records)),
        Request::Query { records } => {
            queries::query(state, asked, &Records::new(b, records), out)
        }
        Request::Status => report(state, asked, out),
        Request::Cancel => cancel(state, asked, out),
        Request::Malformed => error(asked, out),
    }
}

// What the memory service does with the bytes of a request: ERROR for its form, or for a number that does not rise, before BLOCKED is
// considered; one of right form that rises is the highest now.
pub fn answer(state: &mut State, channel: u64, handle: u64, b: &[u8], out: &mut [u8]) -> Handled
    requires { (sound state.old ≡ true) × (output_bytes ≤ length out.old) × (channel < channel_count) }
    ensures { Handles (answered_memory state.old channel handle b.now) out.old result.length result.event state.new out.new }
{
    let request = requests::number(b);
    let asked = Asked {
        channel,
        handle,
        request,
    };
    let decoded = requests::decode(b);
    if requests::right_form(decoded) && state::rises(state, channel as usize, request) {
        state::set_number(state, channel as usize, 1, request);
        dispatch(state, asked, b, decoded, out)
    } else {
        error(asked, out)
    }
}
