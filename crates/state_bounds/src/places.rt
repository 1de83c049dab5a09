// The words of a made state that the cases change.
use model::{
    BLOCK_WORDS, CHANNEL_WORDS, FIRST_BLOCK_WORD, FIRST_DEVICE_WORD, FIRST_HANDLE_WORD,
    FIRST_ID_WORD, FIRST_MINOR_WORD, FIRST_PEER_WORD, FIRST_STAGE_WORD, MARK_WORDS, MOST_IDS,
    PEER_WORDS, SERVICE_WORDS,
};

// The words of the services of channel 2: of service 0 the stage, the handle and the minor version. The words of the
// next service come SERVICE_WORDS later.
pub(crate) const STAGE: usize = FIRST_STAGE_WORD + 2 * CHANNEL_WORDS;

pub(crate) const HANDLE: usize = FIRST_HANDLE_WORD + 2 * CHANNEL_WORDS;

pub(crate) const MINOR: usize = FIRST_MINOR_WORD + 2 * CHANNEL_WORDS;

// The words of the first block and of the second.
pub(crate) const FIRST: usize = FIRST_BLOCK_WORD;

pub(crate) const SECOND: usize = FIRST_BLOCK_WORD + BLOCK_WORDS;

// The words of the first device, and the first word of the name `disk`.
pub(crate) const DEVICE: usize = FIRST_DEVICE_WORD;

pub(crate) const DISK: u64 = 0x6469736b00000000;

// The words of the first id, and the first word of the id `sp-log`; the words of channel 2's peer registrations: of the
// first id's the mark, the handle and the minor version.
pub(crate) const ID: usize = FIRST_ID_WORD;

pub(crate) const SP_LOG: u64 = 0x73702d6c6f670000;

pub(crate) const PEER: usize = FIRST_PEER_WORD + 2 * PEER_WORDS;

pub(crate) const PEER_HANDLE: usize = PEER + MARK_WORDS;

pub(crate) const PEER_MINOR: usize = PEER_HANDLE + MOST_IDS;

// What every word of the journal and every byte of the output holds before a call.
pub(crate) const WORD: u64 = 7;

pub(crate) const BYTE: u8 = 7;
