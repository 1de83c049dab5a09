// The parts of a memory reply: its headers, and its result records.
#![tactic(auto)]

ghost use Rattle.std.specs.Prelude.{◌≡◌, [], ◌++◌, ◌+◌, ◌*◌, ◌≤◌, ◌<◌, length, Some};
ghost use Rattle.std.proofs.lemmas.List.Edits.{sets};
ghost use Rattle.wire.specs.BigEndian.{bytes_of};
ghost use Rattle.model.specs.Layout.{most_blocks, most_records, output_bytes, reply_header_bytes, result_bytes};
ghost use Rattle.model.specs.Search.{BlocksInOrder};
ghost use Rattle.model.specs.Memory.{DR-MEM-OK, status_of, result_record, status_at, memory_reply};
ghost use Rattle.wire.specs.BigEndian.{written};
ghost use Rattle.records.specs.Header.{memory_header};

use model::{DR_MEM_OK, DS_DATA, DS_HEADER_BYTES, REPLY_HEADER_BYTES, RESULT_BYTES, State};

// the bytes of a reply's payload before its records
const PAYLOAD_HEADER_BYTES: usize = REPLY_HEADER_BYTES - DS_HEADER_BYTES;

// The status of block `i`: 1 unconfigured, 2 configured.
fn status_at(state: &State, i: usize) -> u64
    requires { i < most_blocks }
    ensures { result ≡ status_at state.now (Some i) }
{
    if state::configured_of(state, i) == 1 {
        2
    } else {
        1
    }
}

// "status after the request (0 unknown, 1 unconfigured, 2 configured)"
pub fn status_of(state: &State, addr: u64, size: u64) -> u64
    requires { BlocksInOrder state.now }
    ensures { result ≡ status_of state.now addr size }
{
    match blocks::named_block(state, addr, size) {
        Some(place) => status_at(state, place),
        None => 0,
    }
}

// The header of DATA with its handle, and the header of a memory message; `rest` bytes of records follow them.
pub fn put_header(out: &mut [u8], handle: u64, kind: u32, argument: u32, request: u64, rest: usize)
    requires { (reply_header_bytes + rest ≤ output_bytes) × (output_bytes ≤ length out.old) }
    ensures { out.new ≡ sets out.old 0 (memory_header handle kind argument request rest) }
{
    wire::put32(out, 0, DS_DATA);
    wire::put32(out, 4, (PAYLOAD_HEADER_BYTES + rest) as u32);
    wire::put64(out, 8, handle);
    wire::put32(out, 16, kind);
    wire::put32(out, 20, argument);
    wire::put64(out, 24, request);
}

// "Result records have 28 bytes: addr, size, result, status after the request .., string offset 0." The record fills its part.
pub fn put_result_record(part: &mut [u8], addr: u64, size: u64, res: u64, status: u64)
    requires { length part.old ≡ result_bytes }
    ensures { part.new ≡ bytes_of 8 addr ++ bytes_of 8 size ++ bytes_of 4 res ++ bytes_of 4 status ++ bytes_of 4 0 }
{
    wire::put64(part, 0, addr);
    wire::put64(part, 8, size);
    wire::put32(part, 16, (res % 4294967296) as u32);
    wire::put32(part, 20, (status % 4294967296) as u32);
    wire::put32(part, 24, 0);
}

// Record `i` of a reply, with the status of its block: it is lent its own part, and no other byte is touched.
pub fn put_result(state: &State, out: &mut [u8], i: usize, addr: u64, size: u64, res: u64)
    requires { (i < most_records) × BlocksInOrder state.now × (output_bytes ≤ length out.old) }
    ensures { out.new ≡ sets out.old (reply_header_bytes + i * result_bytes) (result_record state.now addr size res) }
{
    let status = status_of(state, addr, size);
    let at = REPLY_HEADER_BYTES + i * RESULT_BYTES;
    put_result_record(&mut out[at..at + RESULT_BYTES], addr, size, res, status);
}

// A reply without records.
pub fn put_bare(out: &mut [u8], handle: u64, kind: u32, request: u64)
    requires { output_bytes ≤ length out.old }
    ensures { out.new ≡ written (memory_reply handle kind 0 request []) out.old }
{
    put_header(out, handle, kind, 0, request, 0);
}

// The headers of a reply with a result for each of `n` records, and the reply's length.
pub fn put_results_header(out: &mut [u8], handle: u64, request: u64, n: usize) -> usize
    requires { (n ≤ most_records) × (output_bytes ≤ length out.old) }
    ensures { (result ≡ reply_header_bytes + n * result_bytes) × (out.new ≡ sets out.old 0 (memory_header handle DR-MEM-OK n request (n * result_bytes))) }
{
    put_header(out, handle, DR_MEM_OK, n as u32, request, n * RESULT_BYTES);
    REPLY_HEADER_BYTES + n * RESULT_BYTES
}
