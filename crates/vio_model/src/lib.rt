// The types of one end of the VIO version handshake (02, ticket 10), and the places of its words. Every rule over them is in specs/.
#![tactic(auto)]

use vio_message::Message;

// An end is 39 words that the caller lends: its class, the class that it accepts, the session's four words (stage, session id, major,
// minor), the number of versions held, and two words a version, major and minor.
pub const CLASS: usize = 0;

pub const ACCEPTS: usize = 1;

pub const STAGE: usize = 2;

pub const ID: usize = 3;

pub const MAJOR: usize = 4;

pub const MINOR: usize = 5;

pub const COUNT: usize = 6;

pub const FIRST_VERSION: usize = 7;

pub const VERSION_WORDS: usize = 2;

pub const MOST_VERSIONS: usize = 16;

pub const END_WORDS: usize = 39;

pub type End = [u64; END_WORDS];

// The words of a message.
pub const MESSAGE_WORDS: u64 = 2;

// What the stage's word says of the session; 0 is no session.
pub const ASKED: u64 = 1;

pub const AGREED: u64 = 2;

pub const ENDED: u64 = 3;

// Above every class, every major or minor, every session id.
pub const CLASS_LIMIT: u64 = 256;

pub const VERSION_LIMIT: u64 = 65536;

pub const ID_LIMIT: u64 = 4294967296;

// 004, 1.1.1: "VIO_TYPE_CTRL 0x01", "VIO_SUBTYPE_INFO 0x01", "VIO_SUBTYPE_ACK 0x02", "VIO_VER_INFO 0x0001"; ticket 10: "NACK is 0x04".
pub const CTRL: u64 = 0x01;

pub const INFO: u64 = 0x01;

pub const ACK: u64 = 0x02;

pub const NACK: u64 = 0x04;

pub const VER_INFO: u64 = 0x0001;

// An end's session: nothing; an open request; a version agreed; or a try of its own that ended without a version.
#[derive(Clone, Copy)]
pub enum Session {
    Nothing,
    Asked { id: u64, major: u64, minor: u64 },
    Agreed { id: u64, major: u64, minor: u64 },
    Ended,
}

// What a message does: nothing; a session without an answer; or a session and a message sent.
#[derive(Clone, Copy)]
pub enum Effect {
    Ignored,
    Becomes(Session),
    Sends(Session, Message),
}

// The answer of setup: 0 or 7, and the end.
#[repr(C)]
#[derive(Clone, Copy)]
pub struct Ready {
    pub refusal: u64,
    pub end: End,
}

// The answer of start and receive: 0 or 8, the number of words sent (0 or 2), and these words.
#[repr(C)]
#[derive(Clone, Copy)]
pub struct Answer {
    pub refusal: u64,
    pub count: u64,
    pub first: u64,
    pub second: u64,
}
