// The words of the outstanding removal: each read and each change of them. No function loads the removal whole: with 64 records it has 200 words.
#![tactic(auto)]

ghost use Rattle.std.specs.Prelude.{◌≡◌, [], ◌∷◌, ◌+◌, ◌*◌, ◌<◌, ◌≤◌, get_or, length};
ghost use Rattle.std.proofs.lemmas.List.Edits.{sets};
ghost use Rattle.wire.specs.BigEndian.{number_at};
ghost use Rattle.basics.specs.Choice.{tabulate};
ghost use Rattle.model.specs.Layout.{cancelled_of, collected_word, count_word, first_address_word, first_result_word, first_size_word, is_set, memory_header_bytes, most_records, outstanding_of, outstanding_word, pair_bytes, position_word, removal_channel_word, removal_handle_word, removal_of, request_word, state_words, with_removal};
ghost use Rattle.model.specs.Memory.{marked, new_removal};
ghost use Rattle.model.specs.Work.{settled, collecting};

use model::{
    CANCELLED_WORD, COLLECTED_WORD, COUNT_WORD, FIRST_ADDRESS_WORD, FIRST_RESULT_WORD,
    FIRST_SIZE_WORD, MEMORY_HEADER_BYTES, MOST_RECORDS, OUTSTANDING_WORD, PAIR_BYTES,
    POSITION_WORD, REMOVAL_CHANNEL_WORD, REMOVAL_HANDLE_WORD, REQUEST_WORD, State,
};

// Reads. Each promises its word: `removal_of` is made of them.

// It is cancelled.
pub fn is_cancelled(state: &State) -> bool
    ensures { result ≡ is_set (cancelled_of state.now) }
{
    state[CANCELLED_WORD] != 0
}

// The channel and the handle that it was asked on.
pub fn channel_of(state: &State) -> u64
    ensures { result ≡ get_or state.now removal_channel_word 0 }
{
    state[REMOVAL_CHANNEL_WORD]
}

pub fn handle_of(state: &State) -> u64
    ensures { result ≡ get_or state.now removal_handle_word 0 }
{
    state[REMOVAL_HANDLE_WORD]
}

// The request's number, its count of records, the position, and the pages collected there.
pub fn request_of(state: &State) -> u64
    ensures { result ≡ get_or state.now request_word 0 }
{
    state[REQUEST_WORD]
}

pub fn count_of(state: &State) -> u64
    ensures { result ≡ get_or state.now count_word 0 }
{
    state[COUNT_WORD]
}

pub fn position_of(state: &State) -> u64
    ensures { result ≡ get_or state.now position_word 0 }
{
    state[POSITION_WORD]
}

pub fn collected_of(state: &State) -> u64
    ensures { result ≡ get_or state.now collected_word 0 }
{
    state[COLLECTED_WORD]
}

// Record i's address and size, and its result if it is settled.
pub fn address_of(state: &State, i: usize) -> u64
    requires { i < most_records }
    ensures { result ≡ get_or state.now (first_address_word + i) 0 }
{
    state[FIRST_ADDRESS_WORD + i]
}

pub fn size_of(state: &State, i: usize) -> u64
    requires { i < most_records }
    ensures { result ≡ get_or state.now (first_size_word + i) 0 }
{
    state[FIRST_SIZE_WORD + i]
}

pub fn result_of(state: &State, i: usize) -> u64
    requires { i < most_records }
    ensures { result ≡ get_or state.now (first_result_word + i) 0 }
{
    state[FIRST_RESULT_WORD + i]
}

// Changes of an outstanding removal.

// So many pages more are collected.
pub fn add_pages(state: &mut State, pages: u64)
    requires { (outstanding_of state.old ≡ 1) × (cancelled_of state.old ≤ 1) × ((removal_of state.old).collected + pages < 18446744073709551616) }
    ensures { state.new ≡ with_removal state.old (collecting (removal_of state.old) pages) }
{
    state[COLLECTED_WORD] += pages;
}

// The record at the position is settled with this result.
pub fn settle(state: &mut State, res: u64)
    requires { (outstanding_of state.old ≡ 1) × (cancelled_of state.old ≤ 1) × ((removal_of state.old).position < most_records) }
    ensures { state.new ≡ with_removal state.old (settled (removal_of state.old) res) }
{
    let position = state[POSITION_WORD];
    state[FIRST_RESULT_WORD + position as usize] = res;
    state[POSITION_WORD] = position + 1;
    state[COLLECTED_WORD] = 0;
}

// "An outstanding removal is marked and its collected pages go back to 0"
pub fn mark(state: &mut State)
    requires { (outstanding_of state.old ≡ 1) × (cancelled_of state.old ≤ 1) }
    ensures { state.new ≡ with_removal state.old (marked (removal_of state.old)) }
{
    let collected: u64 = 0;
    state[CANCELLED_WORD] = 1;
    state[COLLECTED_WORD] = collected;
}

// A new removal, from the bytes of a request of `n` records.

// The 64-bit number at the same place of record `i`, `at` in the first one; 0 where there is no such record.
fn number_of(b: &[u8], n: usize, at: usize, i: usize) -> u64
    requires { (length b.now ≡ memory_header_bytes + n * pair_bytes) × (memory_header_bytes ≤ at) × (at + 8 ≤ memory_header_bytes + pair_bytes) }
    ensures { result ≡ number_at b.now (at + i * pair_bytes) 8 }
{
    if n <= i {
        return 0;
    }
    wire::get64(b, at + i * PAIR_BYTES)
}

// Writes each record's into the words from `word` on.
fn put_column(state: &mut State, word: usize, b: &[u8], n: usize, at: usize)
    requires { (word + most_records ≤ state_words) × (length b.now ≡ memory_header_bytes + n * pair_bytes) × (memory_header_bytes ≤ at) × (at + 8 ≤ memory_header_bytes + pair_bytes) }
    ensures { state.new ≡ sets state.old word (tabulate (λ i. number_at b.now (at + i * pair_bytes) 8) most_records) }
{
    for i in 0..MOST_RECORDS {
        state[word + i] = number_of(b, n, at, i);
    }
}

// The words before the records, of a removal that is not cancelled, with no record settled and no page collected.
fn put_head(state: &mut State, channel: u64, handle: u64, request: u64, count: u64)
    ensures { state.new ≡ sets state.old outstanding_word (1 ∷ 0 ∷ channel ∷ handle ∷ request ∷ count ∷ 0 ∷ 0 ∷ []) }
{
    state[OUTSTANDING_WORD] = 1;
    state[CANCELLED_WORD] = 0;
    state[REMOVAL_CHANNEL_WORD] = channel;
    state[REMOVAL_HANDLE_WORD] = handle;
    state[REQUEST_WORD] = request;
    state[COUNT_WORD] = count;
    state[POSITION_WORD] = 0;
    state[COLLECTED_WORD] = 0;
}

// "UNCONFIGURE is begun": the removal is outstanding.
pub fn begin(state: &mut State, channel: u64, handle: u64, request: u64, n: usize, b: &[u8])
    requires { length b.now ≡ memory_header_bytes + n * pair_bytes }
    ensures { state.new ≡ with_removal state.old (new_removal channel handle request b.now n) }
{
    put_head(state, channel, handle, request, n as u64);
    put_column(state, FIRST_ADDRESS_WORD, b, n, MEMORY_HEADER_BYTES);
    put_column(state, FIRST_SIZE_WORD, b, n, MEMORY_HEADER_BYTES + 8);
    state::clear(state, FIRST_RESULT_WORD, MOST_RECORDS);
}
