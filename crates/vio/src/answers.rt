// The answers of the handshake's calls as lines of text.
ghost use Rattle.std.specs.Prelude.{◌≤◌, length};
ghost use Rattle.lines.specs.Forms.{shown_bytes};
ghost use Rattle.lines.specs.Output.{Adds};
ghost use Rattle.vio.specs.Answers.{ready_line, refused_line, sent_line, state_line};

use lines::output::Output;
use vio_model::{AGREED, ASKED, Answer, ENDED, End, ID, MAJOR, MESSAGE_WORDS, MINOR, STAGE};

fn put_refused(out: &mut Output, name: &[u8], refusal: u64)
    requires { length name.now ≤ shown_bytes }
    ensures { Adds (refused_line name.now refusal) out.old out.new }
{
    out.put_bytes(b"\x06 refused \0", name, [refusal, 0, 0, 0], b"");
}

#[tactic(auto, unfolding(crate::specs::Answers::ready_line, basics::specs::Choice::pick))]
pub(crate) fn put_ready(out: &mut Output, refusal: u64)
    ensures { Adds (ready_line refusal) out.old out.new }
{
    if refusal != 0 {
        return put_refused(out, b"end", refusal);
    }
    out.put_line(b"end accepted", [0u64; 4]);
}

// The call's name, and the words sent, if any.
#[tactic(auto, unfolding(crate::specs::Answers::sent_line, basics::specs::Choice::pick))]
pub(crate) fn put_sent(out: &mut Output, name: &[u8], a: Answer)
    requires { length name.now ≤ shown_bytes }
    ensures { Adds (sent_line name.now a) out.old out.new }
{
    if a.refusal != 0 {
        return put_refused(out, name, a.refusal);
    }
    if a.count == MESSAGE_WORDS {
        return out.put_bytes(b"\x06 \x04 \x05", name, [a.first, a.second, 0, 0], b"");
    }
    out.put_bytes(b"\x06", name, [0u64; 4], b"");
}

// What an end's session is.
#[tactic(auto, unfolding(crate::specs::Answers::form_of, basics::specs::Choice::pick))]
pub(crate) fn put_state(out: &mut Output, number: u64, end: &End)
    ensures { Adds (state_line number end.now) out.old out.new }
{
    let values = [number, end[MAJOR], end[MINOR], end[ID]];
    match end[STAGE] {
        ASKED => out.put_line(b"end \0 asked \x01 \x02", values),
        AGREED => out.put_line(b"end \0 agreed \x01 \x02 session \x03", values),
        ENDED => out.put_line(b"end \0 refused", values),
        _ => out.put_line(b"end \0 no version", values),
    }
}
