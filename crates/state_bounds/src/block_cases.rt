// Cases of blocks.
use crate::cases::{changed, sound};
use crate::each::each_call;
use crate::places::{FIRST, SECOND};
use lines::output::Output;
use model::{
    BLOCK_COUNT_WORD, BLOCK_WORDS, CONFIGURED_PLACE, FIRST_BLOCK_WORD, FIRST_PLACE, HELD_WORD,
    LAST_WORD, MOST_BLOCKS, PAGES_PLACE, PERMANENT_PLACE, STATE_WORDS, State,
};

pub(crate) fn places_of_blocks(out: &mut Output) {
    changed(
        out,
        b"# a base that is no multiple of 8192",
        FIRST,
        0x10000001,
    );
    changed(out, b"# a block of 0 pages", FIRST + PAGES_PLACE, 0);
    changed(
        out,
        b"# a block of 1048577 pages",
        SECOND + PAGES_PLACE,
        1048577,
    );
    changed(
        out,
        b"# a block that ends above the base after it",
        FIRST + PAGES_PLACE,
        32769,
    );
    changed(
        out,
        b"# a block that ends above 2^63",
        SECOND,
        9223372036854767616,
    );
}

pub(crate) fn permanent_pages(out: &mut Output) {
    changed(
        out,
        b"# permanent pages beyond the block's pages",
        FIRST + PERMANENT_PLACE,
        5,
    );
    changed(
        out,
        b"# a first permanent page with a count of 0",
        FIRST + FIRST_PLACE,
        1,
    );
    changed(
        out,
        b"# permanent pages in an unconfigured block",
        SECOND + PERMANENT_PLACE,
        1,
    );
    changed(
        out,
        b"# a block neither configured nor not",
        FIRST + CONFIGURED_PLACE,
        2,
    );
}

// A state of sixty-four blocks of a page each, from 0 on.
fn sixty_four_blocks() -> State {
    let mut state = [0u64; STATE_WORDS];
    for i in 0..MOST_BLOCKS {
        let block = FIRST_BLOCK_WORD + i * BLOCK_WORDS;
        state[block] = (i * 8192) as u64;
        state[block + PAGES_PLACE] = 1;
    }
    state
}

// 64 blocks, and a count of 65: the words after the sixty-fourth block, which are the last number and those after it,
// would make a sixty-fifth that is valid.
pub(crate) fn sixty_five_blocks(out: &mut Output) {
    let mut state = sixty_four_blocks();
    state[BLOCK_COUNT_WORD] = MOST_BLOCKS as u64;
    state[LAST_WORD] = 524288;
    sound(out, b"# 64 blocks", &state);
    state[BLOCK_COUNT_WORD] = MOST_BLOCKS as u64 + 1;
    state[HELD_WORD] = 1;
    out.put_text(b"# 65 blocks");
    each_call(out, &state);
}
