// Which DS message a slice of bytes is.
#![tactic(auto)]

ghost use Rattle.std.specs.Prelude.{◌≡◌, true, ◌+◌, ◌≤◌, length, drop};
ghost use Rattle.wire.specs.BigEndian.{number_at};
ghost use Rattle.model.specs.Messages.{payload_length, whole_message, id_fits, payload_fits, well_formed, decoded_by_type, decoded};
ghost use Rattle.model.specs.Layout.{data_header_bytes};
ghost use Rattle.messages.specs.Id.{no_zero};

use model::{
    DATA_HEADER_BYTES, DS_DATA, DS_HEADER_BYTES, DS_INIT_REQ, DS_NACK, DS_REG_ACK, DS_REG_NACK,
    DS_REG_REQ, DS_UNREG, DS_UNREG_ACK, DS_UNREG_NACK, MOST_PAYLOAD, Message,
};

// "it has 8 + payload_len bytes, payload_len is at most 4,096"
fn whole_message(m: &[u8]) -> bool
    ensures { result ≡ whole_message m.now }
{
    if m.len() < DS_HEADER_BYTES {
        return false;
    }
    let payload_len = wire::get32(m, 4) as usize;
    payload_len <= MOST_PAYLOAD && m.len() == DS_HEADER_BYTES + payload_len
}

// Whether none of `count` bytes from byte 20 on is zero: the id's, but for its last.
fn no_zero(m: &[u8], count: usize) -> bool
    requires { 20 + count ≤ length m.now }
    ensures { result ≡ no_zero m.now count }
{
    !m[20..20 + count].contains(&0)
}

// REG_REQ: "13 to 1,036, its last byte the only zero of the id". It stays a call, so that other messages cost no frame.
#[inline(never)]
fn id_fits(m: &[u8], payload_len: usize) -> bool
    requires { (whole_message m.now ≡ true) × (payload_len ≡ payload_length m.now) }
    ensures { result ≡ id_fits m.now }
{
    match payload_len {
        13..=1036 => m[payload_len + 7] == 0 && no_zero(m, payload_len - 13),
        _ => false,
    }
}

// "the payload fits its type"
#[tactic(auto, unfolding(model::specs::Messages::payload_fits, basics::specs::Choice::pick))]
fn payload_fits(m: &[u8]) -> bool
    requires { whole_message m.now ≡ true }
    ensures { result ≡ payload_fits m.now }
{
    let message_type = wire::get32(m, 0) as u32;
    let payload_len = wire::get32(m, 4) as usize;
    match message_type {
        DS_INIT_REQ => payload_len == 4,
        DS_REG_REQ => id_fits(m, payload_len),
        DS_REG_ACK => payload_len == 10,
        DS_REG_NACK => payload_len == 18,
        DS_UNREG | DS_UNREG_ACK | DS_UNREG_NACK => payload_len == 8,
        DS_DATA => payload_len >= 8,
        DS_NACK => payload_len == 16,
        _ => false,
    }
}

// svc_handle, in all of its 64 bits.
fn handle_of(m: &[u8]) -> u64
    requires { data_header_bytes ≤ length m.now }
    ensures { result ≡ number_at m.now 8 8 }
{
    wire::get64(m, 8)
}

// Each message by its type, with its values.
#[tactic(auto, unfolding(model::specs::Messages::decoded_by_type, basics::specs::Choice::pick))]
fn by_type(m: &[u8]) -> Message
    requires { well_formed m.now ≡ true }
    ensures { result ≡ decoded_by_type m.now }
{
    let message_type = wire::get32(m, 0) as u32;
    if message_type == DS_INIT_REQ {
        return Message::InitReq {
            major: wire::get16(m, 8) as u16,
        };
    }
    let handle = handle_of(m);
    match message_type {
        DS_REG_REQ => Message::RegReq { handle },
        DS_REG_ACK => Message::RegAck {
            handle,
            minor: wire::get16(m, 16) as u16,
        },
        DS_REG_NACK => Message::RegNack { handle },
        DS_UNREG => Message::Unreg { handle },
        DS_UNREG_ACK => Message::UnregAck,
        DS_UNREG_NACK => Message::UnregNack,
        DS_DATA => Message::Data { handle },
        DS_NACK => Message::Nack,
        _ => Message::Bad,
    }
}

// The message that a slice of bytes is: every other type, and any badly formed message, is `Bad`.
pub fn decode(m: &[u8]) -> Message
    ensures { result ≡ decoded m.now }
{
    if whole_message(m) && payload_fits(m) {
        by_type(m)
    } else {
        Message::Bad
    }
}

// What a DATA message carries: "the part of its own message from byte 16 on"
pub fn payload(m: &[u8]) -> &[u8]
    requires { data_header_bytes ≤ length m.now }
    ensures { result.now ≡ drop data_header_bytes m.now }
{
    &m[DATA_HEADER_BYTES..]
}
