// QUERY: the permanent pages of each pair.
#![tactic(auto)]

ghost use Rattle.std.specs.Prelude.{◌≡◌, ◌<◌, ◌≤◌, true, length};
ghost use Rattle.std.proofs.lemmas.List.Edits.{sets};
ghost use Rattle.basics.specs.Choice.{joined};
ghost use Rattle.model.specs.Layout.{blocks_of, output_bytes, query_bytes, reply_header_bytes};
ghost use Rattle.model.specs.State.{sound};
ghost use Rattle.model.specs.Memory.{addr_in, permanent_range, query_record, querying, size_in};
ghost use Rattle.model.specs.Handler.{Handles};
ghost use Rattle.queries.specs.Ranges.{Permanent, PermanentAt};

use model::{DR_MEM_OK, Handled, QUERY_BYTES, REPLY_HEADER_BYTES, State};
use requests::{Asked, Records};

// The permanent pages of a pair: how many bytes, and where they begin.
#[derive(Clone, Copy)]
struct Range {
    bytes: u64,
    first: u64,
}

// Those of block `i`.
fn permanent_at(state: &State, i: usize) -> Range
    requires { (sound state.now ≡ true) × (i < blocks_of state.now) }
    ensures { PermanentAt state.now i result }
{
    let bytes = state::permanent_of(state, i) * blocks::PAGE_SIZE;
    let first = state::base_of(state, i) + state::first_of(state, i) * blocks::PAGE_SIZE;
    Range { bytes, first }
}

// "An unknown block counts as wholly permanent"
fn permanent_of(state: &State, addr: u64, size: u64) -> Range
    requires { sound state.now ≡ true }
    ensures { Permanent state.now addr size result }
{
    match blocks::named_block(state, addr, size) {
        Some(place) => permanent_at(state, place),
        None => Range {
            bytes: size,
            first: addr,
        },
    }
}

// "permanent bytes, first and last permanent address (last byte), all three 0 if none"
fn put_range(part: &mut [u8], range: Range)
    requires { length part.old ≡ query_bytes }
    ensures { part.new ≡ sets part.old 16 (permanent_range range.bytes range.first) }
{
    let Range { bytes, first } = range;
    if bytes == 0 {
        wire::put64(part, 16, 0);
        wire::put64(part, 24, 0);
        wire::put64(part, 32, 0);
    } else {
        wire::put64(part, 16, bytes);
        wire::put64(part, 24, first);
        wire::put64(part, 32, first.wrapping_add(bytes - 1));
    }
}

// "QUERY, 40 bytes a record": the part is the record.
fn put_query_record(state: &State, part: &mut [u8], addr: u64, size: u64)
    requires { (sound state.now ≡ true) × (length part.old ≡ query_bytes) }
    ensures { part.new ≡ query_record state.now addr size }
{
    let range = permanent_of(state, addr, size);
    wire::put64(part, 0, addr);
    wire::put64(part, 8, size);
    put_range(part, range);
}

// Each record is lent its own part, after the headers.
fn put_query_records(state: &State, records: &Records, out: &mut [u8])
    requires { (sound state.now ≡ true) × (output_bytes ≤ length out.old) }
    ensures { out.new ≡ sets out.old reply_header_bytes (joined (λ i. query_record state.now (addr_in records.now.bytes.now i) (size_in records.now.bytes.now i)) records.now.count) }
{
    for i in 0..records.count {
        let (addr, size) = records.pair(i);
        let at = REPLY_HEADER_BYTES + i * QUERY_BYTES;
        put_query_record(state, &mut out[at..at + QUERY_BYTES], addr, size);
    }
}

// QUERY changes nothing.
pub fn query(state: &State, asked: Asked, records: &Records, out: &mut [u8]) -> Handled
    requires { (sound state.now ≡ true) × (output_bytes ≤ length out.old) }
    ensures { Handles (querying state.now asked.channel asked.handle asked.request records.now.bytes.now records.now.count) out.old result.length result.event state.now out.new }
{
    let rest = records.count * QUERY_BYTES;
    records::put_header(
        out,
        asked.handle,
        DR_MEM_OK,
        records.count as u32,
        asked.request,
        rest,
    );
    put_query_records(state, records, out);
    Handled {
        length: REPLY_HEADER_BYTES + rest,
        event: asked.answered(events::CODE_NONE),
    }
}
