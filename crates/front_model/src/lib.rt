// The types of the front of 02's ticket 9, and the map of its words and bytes. Every rule over them is in specs/; each number here has the name of its definition there.
#![tactic(auto)]

ghost use Rattle.std.specs.Prelude.{◌≡◌, ◌*◌, ◌+◌, ◌<◌, get_or};
ghost use Rattle.model.specs.Layout.{channel_count};
ghost use Rattle.front_model.specs.Front.{part_words};

use model::{CHANNEL_COUNT, DS_HEADER_BYTES, MOST_PAYLOAD};

// The longest message; an unfinished one has at most a byte less.
pub const MOST_MESSAGE: usize = DS_HEADER_BYTES + MOST_PAYLOAD;

pub const MOST_KEPT: usize = MOST_MESSAGE - 1;

// Two words a channel: how many bytes are kept, and 1 where bytes are dropped. A message's room of bytes a channel.
pub const PART_WORDS: usize = 2;

pub const FRONT_WORDS: usize = CHANNEL_COUNT * PART_WORDS;

pub const FRONT_BYTES: usize = CHANNEL_COUNT * MOST_MESSAGE;

pub type FrontWords = [u64; FRONT_WORDS];

pub type FrontBytes = [u8; FRONT_BYTES];

// The answer to a piece, as the definition `PiecePost` has it: the refusal; how many bytes were taken; whether a message
// was given to the agent; the reply's length.
#[derive(Clone, Copy)]
pub struct Piece {
    pub refusal: u64,
    pub taken: usize,
    pub given: bool,
    pub length: usize,
}

// How many bytes are kept of a channel.
pub fn kept_of(words: &FrontWords, channel: usize) -> u64
    requires { channel < channel_count }
    ensures { result ≡ get_or words.now (channel * part_words) 0 }
{
    words[channel * PART_WORDS]
}

// 1 where a channel's bytes are dropped.
pub fn dropping_of(words: &FrontWords, channel: usize) -> u64
    requires { channel < channel_count }
    ensures { result ≡ get_or words.now (channel * part_words + 1) 0 }
{
    words[channel * PART_WORDS + 1]
}
