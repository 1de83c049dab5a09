// A VIO version message (004, 1.1.2.1): its two words, packed and unpacked.

#![tactic(auto)]

ghost use Rattle.std.specs.Prelude.{◌≡◌};
ghost use Rattle.vio_message.specs.Words.{InRange, packed, unpacked};

// The fields of the two words. `kind` is the type, which is a reserved word; the reserved bits are no field.
#[derive(Clone, Copy)]
pub struct Message {
    pub session: u64,
    pub envelope: u64,
    pub subtype: u64,
    pub kind: u64,
    pub class: u64,
    pub minor: u64,
    pub major: u64,
}

#[derive(Clone, Copy)]
pub struct Words {
    pub first: u64,
    pub second: u64,
}

// The words of these fields, each of which has to fit its width.
pub fn pack(m: Message) -> Words
    requires { InRange m }
    ensures { result ≡ packed m }
{
    Words {
        first: (m.session << 32) | (m.envelope << 16) | (m.subtype << 8) | m.kind,
        second: (m.class << 32) | (m.minor << 16) | m.major,
    }
}

// The fields of any two words.
pub fn unpack(w: Words) -> Message
    ensures { result ≡ unpacked w }
{
    Message {
        session: w.first >> 32,
        envelope: (w.first >> 16) & 65535,
        subtype: (w.first >> 8) & 255,
        kind: w.first & 255,
        class: (w.second >> 32) & 255,
        minor: (w.second >> 16) & 65535,
        major: w.second & 65535,
    }
}
