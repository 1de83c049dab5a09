// The rules of ticket 10: what a sound end sends, and what each message does.
#![tactic(auto)]

ghost use Rattle.std.specs.Prelude.{◌≡◌, true, eqb, ltb};
ghost use Rattle.basics.specs.Choice.{◌and◌, ◌or◌};
ghost use Rattle.vio_model.specs.Layout.{end_of};
ghost use Rattle.vio_model.specs.Sound.{sound};
ghost use Rattle.vio_model.specs.Rules.{message, is_version, asking, requested, acknowledged, refused, answers_open, answered, heard};

use vio_message::Message;
use vio_model::{ACCEPTS, ACK, CLASS, CTRL, Effect, INFO, NACK, Session, VER_INFO};
use vio_versions::{highest_below, holds, minor_of, session_of, versions_of};

// An end's open request: its session id and the version asked.
#[derive(Clone, Copy)]
struct Request {
    id: u64,
    major: u64,
    minor: u64,
}

// A CTRL message of a subtype, with VER_INFO.
#[tactic(auto, unfolding(vio_model::specs::Rules::message))]
fn message(subtype: u64, id: u64, class: u64, major: u64, minor: u64) -> Message
    ensures { result ≡ message subtype id class major minor }
{
    Message {
        session: id,
        envelope: VER_INFO,
        subtype,
        kind: CTRL,
        class,
        minor,
        major,
    }
}

// The message is one of these.
#[tactic(auto, using(crate::proofs::Laws::tests), unfolding(vio_model::specs::Rules::is_version))]
fn is_version(subtype: u64, m: Message) -> bool
    ensures { result ≡ is_version subtype m }
{
    m.kind == CTRL && m.envelope == VER_INFO && m.subtype == subtype
}

// The next request: for the highest major held below a bound. Where there is none the try has ended.
#[tactic(auto, using(crate::proofs::Laws::tests))]
pub fn asking(end: &[u64], id: u64, bound: u64) -> Effect
    requires { sound end.now ≡ true }
    ensures { result ≡ asking (end_of end.now) id bound }
{
    let list = versions_of(end);
    let major = highest_below(list, bound);
    if major == 0 {
        return Effect::Becomes(Session::Ended);
    }
    let minor = minor_of(list, major);
    Effect::Sends(
        Session::Asked { id, major, minor },
        message(INFO, id, end[CLASS], major, minor),
    )
}

// The answer to a request: refused unchanged, acknowledged with the lower minor, or refused with the next lower major.
#[tactic(auto, using(crate::proofs::Laws::tests))]
fn requested(end: &[u64], m: Message) -> Effect
    requires { sound end.now ≡ true }
    ensures { result ≡ requested (end_of end.now) m }
{
    if m.class != end[ACCEPTS] {
        return Effect::Sends(
            Session::Nothing,
            message(NACK, m.session, m.class, m.major, m.minor),
        );
    }
    let list = versions_of(end);
    if holds(list, m.major) {
        let minor = m.minor.min(minor_of(list, m.major));
        return Effect::Sends(
            Session::Agreed {
                id: m.session,
                major: m.major,
                minor,
            },
            message(ACK, m.session, m.class, m.major, minor),
        );
    }
    let major = highest_below(list, m.major);
    let minor = minor_of(list, major);
    Effect::Sends(
        Session::Nothing,
        message(NACK, m.session, m.class, major, minor),
    )
}

// An acknowledgement of an open request: of the major asked, at a minor that is not above the one asked.
#[tactic(auto, using(crate::proofs::Laws::tests), unfolding(vio_model::specs::Rules::acknowledged))]
fn acknowledged(request: Request, m: Message) -> Effect
    ensures { result ≡ acknowledged request.id request.major request.minor m }
{
    if m.major == request.major && m.minor <= request.minor {
        Effect::Becomes(Session::Agreed {
            id: request.id,
            major: request.major,
            minor: m.minor,
        })
    } else {
        Effect::Ignored
    }
}

#[tactic(auto, using(crate::proofs::Laws::tests))]
fn is_unchanged(request: Request, m: Message) -> bool
    ensures { result ≡ (eqb m.major request.major and eqb m.minor request.minor) }
{
    m.major == request.major && m.minor == request.minor
}

// A lower major, with any minor, or 0 and 0.
#[tactic(auto, using(crate::proofs::Laws::tests))]
fn tells_lower(major: u64, m: Message) -> bool
    ensures { result ≡ (ltb m.major major and (ltb 0 m.major or eqb m.minor 0)) }
{
    m.major < major && (0 < m.major || m.minor == 0)
}

// A refusal of an open request: the parameters unchanged, which ends the try, or a lower major.
#[tactic(auto, using(crate::proofs::Laws::tests), unfolding(vio_model::specs::Rules::refused))]
fn refused(end: &[u64], next: u64, request: Request, m: Message) -> Effect
    requires { sound end.now ≡ true }
    ensures { result ≡ refused (end_of end.now) next request.major request.minor m }
{
    if is_unchanged(request, m) {
        Effect::Becomes(Session::Ended)
    } else if tells_lower(request.major, m) {
        asking(end, next, m.major + 1)
    } else {
        Effect::Ignored
    }
}

// An answer to the open request.
#[tactic(auto, using(crate::proofs::Laws::tests), unfolding(vio_model::specs::Rules::answers_open))]
fn answers_open(end: &[u64], next: u64, request: Request, m: Message) -> Effect
    requires { sound end.now ≡ true }
    ensures { result ≡ answers_open (end_of end.now) next request.id request.major request.minor m }
{
    if m.session != request.id || m.class != end[CLASS] {
        return Effect::Ignored;
    }
    if is_version(ACK, m) {
        return acknowledged(request, m);
    }
    if is_version(NACK, m) {
        return refused(end, next, request, m);
    }
    Effect::Ignored
}

// Any message but a request: without an open request nothing.
#[tactic(auto, using(crate::proofs::Laws::tests), unfolding(vio_model::specs::Rules::answered))]
fn answered(end: &[u64], next: u64, m: Message) -> Effect
    requires { sound end.now ≡ true }
    ensures { result ≡ answered (end_of end.now) next (end_of end.now).session m }
{
    let session = session_of(end);
    let Session::Asked { id, major, minor } = session else {
        return Effect::Ignored;
    };
    answers_open(end, next, Request { id, major, minor }, m)
}

// What a message does to a sound end.
#[tactic(auto, using(crate::proofs::Laws::tests), unfolding(vio_model::specs::Rules::heard))]
pub fn heard(end: &[u64], next: u64, m: Message) -> Effect
    requires { sound end.now ≡ true }
    ensures { result ≡ heard (end_of end.now) next m }
{
    if is_version(INFO, m) {
        requested(end, m)
    } else {
        answered(end, next, m)
    }
}
