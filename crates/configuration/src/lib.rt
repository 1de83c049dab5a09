// CONFIGURE: its records in order, and its reply.
#![tactic(auto)]

ghost use Rattle.std.specs.Prelude.{◌≡◌, ◌^◌, ◌≤◌, ◌<◌, length, Some};
ghost use Rattle.model.specs.Layout.{blocks_of, most_blocks, output_bytes};
ghost use Rattle.model.specs.Search.{BlocksInOrder};
ghost use Rattle.model.specs.Memory.{configured_by, answering_configure};
ghost use Rattle.model.specs.Handler.{Handles};
ghost use Rattle.configuration.specs.Progress.{ConfiguresAt, ConfiguresOne, ConfiguresAll};

use model::{DR_MEM_RES_FAILURE, DR_MEM_RES_NOWORK, DR_MEM_RES_OK, Handled, State};
use requests::{Asked, Records};

// The bit of block `i`.
fn bit(i: usize) -> u64
    requires { i < most_blocks }
    ensures { result ≡ 2 ^ i }
{
    1u64 << i
}

// One record of CONFIGURE: its result, and the bit of the block that it configured, else 0.
#[derive(Drop)]
struct OneDone {
    result: u64,
    bit: u64,
}

// "unconfigured gives OK (0) and configures, configured gives NOWORK (4)"
fn configure_at(state: &mut State, i: usize) -> OneDone
    requires { (i < blocks_of state.old) × BlocksInOrder state.old }
    ensures { ConfiguresAt state.old (Some i) result state.new }
{
    if state::configured_of(state, i) != 0 {
        return OneDone {
            result: DR_MEM_RES_NOWORK,
            bit: 0,
        };
    }
    state::set_configured(state, i, 1);
    OneDone {
        result: DR_MEM_RES_OK,
        bit: bit(i),
    }
}

// "unknown gives FAILURE (1) and so does every record after it"
fn configure_one(state: &mut State, failed: bool, addr: u64, size: u64) -> OneDone
    requires { BlocksInOrder state.old }
    ensures { ConfiguresOne state.old failed addr size result state.new }
{
    if failed {
        return OneDone {
            result: DR_MEM_RES_FAILURE,
            bit: 0,
        };
    }
    match blocks::named_block(state, addr, size) {
        Some(place) => configure_at(state, place),
        None => OneDone {
            result: DR_MEM_RES_FAILURE,
            bit: 0,
        },
    }
}

// "CONFIGURE: in order": the bits of the blocks configured. Each record is told after it is handled, with its block's status by then: a block that a record names is not
// unconfigured after it, and after a failure none changes, so that is the status after the request.
fn configure_all(state: &mut State, records: &Records, out: &mut [u8]) -> u64
    requires { BlocksInOrder state.old × (output_bytes ≤ length out.old) }
    ensures { ConfiguresAll state.old records.now.bytes.now records.now.count out.old result state.new out.new }
{
    let mut mask = 0;
    let mut failed = false;
    for i in 0..records.count {
        let (addr, size) = records.pair(i);
        let step = configure_one(state, failed, addr, size);
        records::put_result(state, out, i, addr, size, step.result);
        mask += step.bit;
        failed = step.result == DR_MEM_RES_FAILURE;
    }
    mask
}

// CONFIGURE while none is: kind 11 where a block was configured, else kind 10.
pub fn configure(state: &mut State, asked: Asked, records: &Records, out: &mut [u8]) -> Handled
    requires { BlocksInOrder state.old × (output_bytes ≤ length out.old) }
    ensures { Handles (answering_configure (configured_by state.old records.now.bytes.now records.now.count) asked.channel asked.handle asked.request records.now.bytes.now records.now.count) out.old result.length result.event state.new out.new }
{
    let length = records::put_results_header(out, asked.handle, asked.request, records.count);
    let mask = configure_all(state, records, out);
    let event = if mask == 0 {
        asked.answered(events::CODE_NONE)
    } else {
        events::configured(asked.channel, mask)
    };
    Handled { length, event }
}
