// "Blocks: 0 to 16, given at setup": the rules of a block list, and the block that a pair names.
#![tactic(auto)]

ghost use Rattle.std.specs.Prelude.{◌≡◌, ◌+◌, ◌*◌, ◌≤◌, length, eqb, Some, None};
ghost use Rattle.basics.specs.Choice.{every, pick};
ghost use Rattle.model.specs.Layout.{most_blocks, block_words, block_in, blocks_of, first_block_word};
ghost use Rattle.model.specs.Blocks.{most_pages, page_size, block_keeps, end_before, blocks_keep, accepted_blocks, named_block};
ghost use Rattle.model.specs.Search.{BlocksInOrder, Tells, search_of};
ghost use Rattle.blocks.specs.Permanent.{permanent_keeps};

use model::{
    BLOCK_COUNT_WORD, BLOCK_WORDS, CONFIGURED_PLACE, FIRST_BLOCK_WORD, FIRST_PLACE, MOST_BLOCKS,
    MOST_LOOKED, PAGES_PLACE, PERMANENT_PLACE, Searched, State,
};

pub const PAGE_SIZE: u64 = 8192;

const MOST_PAGES: u64 = 1048576;

// 2^63
const HIGHEST_END: u64 = 9223372036854775808;

// "first plus count of permanent pages is at most pages; count 0 needs first 0; a count above 0 needs configured 1"
fn permanent_keeps(pages: u64, first: u64, permanent: u64, configured: u64) -> bool
    ensures { result ≡ permanent_keeps pages first permanent configured }
{
    if pages < first {
        return false;
    }
    if pages - first < permanent {
        return false;
    }
    if 1 < configured {
        return false;
    }
    if permanent == 0 {
        return first == 0;
    }
    configured == 1
}

// The rules of one block; `floor` is the end of the block before it. No sum or product wraps: its numbers are bounded first.
fn block_keeps(
    base: u64,
    pages: u64,
    first: u64,
    permanent: u64,
    configured: u64,
    floor: u64,
) -> bool
    ensures { result ≡ block_keeps (record { base = base; pages = pages; first = first; permanent = permanent; configured = configured }) floor }
{
    if base % PAGE_SIZE != 0 {
        return false;
    }
    if pages < 1 {
        return false;
    }
    if MOST_PAGES < pages {
        return false;
    }
    if HIGHEST_END < base {
        return false;
    }
    if HIGHEST_END < base + pages * PAGE_SIZE {
        return false;
    }
    if base < floor {
        return false;
    }
    permanent_keeps(pages, first, permanent, configured)
}

// The `n` blocks whose words stand from `at` on keep the rules, each with the end of the block before it as its floor.
fn keep_rules(words: &[u64], at: usize, n: usize) -> bool
    requires { (n ≤ most_blocks) × (at + n * block_words ≤ length words.now) }
    ensures { result ≡ every n (λ i. block_keeps (block_in words.now at i) (end_before words.now at i)) }
{
    let mut floor: u64 = 0;
    for i in 0..n {
        let b = at + i * BLOCK_WORDS;
        let base = words[b];
        let pages = words[b + PAGES_PLACE];
        if !block_keeps(
            base,
            pages,
            words[b + FIRST_PLACE],
            words[b + PERMANENT_PLACE],
            words[b + CONFIGURED_PLACE],
            floor,
        ) {
            return false;
        }
        floor = base + pages * PAGE_SIZE;
    }
    true
}

// Whole blocks, not too many, that keep the rules.
pub fn accepted_blocks(l: &[u64]) -> bool
    ensures { result ≡ accepted_blocks l.now }
{
    if l.len() % BLOCK_WORDS != 0 {
        return false;
    }
    let n = l.len() / BLOCK_WORDS;
    if MOST_BLOCKS < n {
        return false;
    }
    keep_rules(l, 0, n)
}

// The state's blocks keep the rules, and are not too many.
pub fn state_blocks_keep(state: &State) -> bool
    ensures { result ≡ blocks_keep state.now first_block_word (blocks_of state.now) }
{
    let n = state[BLOCK_COUNT_WORD] as usize;
    if MOST_BLOCKS < n {
        return false;
    }
    keep_rules(state, FIRST_BLOCK_WORD, n)
}

// "A pair names a block if addr is its base and size is all of it": of the block at `place`, whose base is the pair's address. Its size
// does not wrap: its pages are not too many.
fn found_at(pages: u64, size: u64, place: usize) -> Option<usize>
    requires { pages ≤ most_pages }
    ensures { result ≡ pick (eqb (pages * page_size) size) (Some place) None }
{
    if pages * PAGE_SIZE == size {
        return Some(place);
    }
    None
}

// "look for each record by halves, and return which blocks were looked at, in order, each the (lower) middle of those left": `left` blocks
// are, from `low` on.
// A `while`, as each turn leaves half of them; an array and a count tell the places, as there is no heap.
pub fn look_for(state: &State, addr: u64, size: u64) -> Searched
    requires { BlocksInOrder state.now }
    ensures { Tells (search_of state.now addr size) result }
{
    let mut looked = [0usize; MOST_LOOKED];
    let mut count: usize = 0;
    let mut low: usize = 0;
    let mut left = state[BLOCK_COUNT_WORD] as usize;
    while 0 < left {
        let below = (left - 1) / 2;
        let middle = low + below;
        looked[count] = middle;
        count += 1;
        let b = FIRST_BLOCK_WORD + middle * BLOCK_WORDS;
        let base = state[b];
        if base == addr {
            return Searched {
                found: found_at(state[b + PAGES_PLACE], size, middle),
                looked,
                count,
            };
        }
        if base < addr {
            low = middle + 1;
            left = left / 2;
        } else {
            left = below;
        }
    }
    Searched {
        found: None,
        looked,
        count,
    }
}

// The block that the pair names, if there is one.
pub fn named_block(state: &State, addr: u64, size: u64) -> Option<usize>
    requires { BlocksInOrder state.now }
    ensures { result ≡ named_block state.now addr size }
{
    let searched = look_for(state, addr, size);
    searched.found
}
