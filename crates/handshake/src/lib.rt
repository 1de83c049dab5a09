// The VIO version handshake: setup, start and receive of one end.
#![tactic(auto)]

ghost use Rattle.std.specs.Prelude.{◌≡◌, ◌+◌, ◌≤◌, length, ◌∷◌, []};
ghost use Rattle.std.proofs.lemmas.List.Edits.{sets};
ghost use Rattle.vio_model.specs.Layout.{end_words, first_version_word, stage_word, with_session};
ghost use Rattle.vio_model.specs.Sound.{sound};
ghost use Rattle.vio_model.specs.Rules.{heard};
ghost use Rattle.vio_model.specs.Calls.{new_end, accepted, Fits};
ghost use Rattle.vio_model.specs.Step.{outcome_of, SetupPost, StartPost, ReceivePost};

use vio_message::Words;
use vio_model::{
    ACCEPTS, AGREED, ASKED, Answer, CLASS, COUNT, END_WORDS, ENDED, Effect, End, FIRST_VERSION, ID,
    MAJOR, MESSAGE_WORDS, MINOR, Ready, STAGE, Session, VERSION_LIMIT, VERSION_WORDS,
};

// The refusals: a list that is not accepted, and words that are no sound end.
// Numbers and no enum: Ready and Answer are repr(C), and each refusal is made at its place and looked at by none here.
const BAD_LIST: u64 = 7;

const NOT_SOUND: u64 = 8;

// An end of these classes and of the versions of an accepted list.
#[tactic(auto, unfolding(vio_model::specs::Calls::new_end, vio_model::specs::Calls::blank_end))]
fn new_end(class: u8, accepts: u8, list: &[u64]) -> End
    requires { first_version_word + length list.now ≤ end_words }
    ensures { result ≡ new_end class accepts list.now }
{
    let mut end = [0u64; END_WORDS];
    end[CLASS] = u64::from(class);
    end[ACCEPTS] = u64::from(accepts);
    end[COUNT] = (list.len() / VERSION_WORDS) as u64;
    end[FIRST_VERSION..FIRST_VERSION + list.len()].copy_from_slice(list);
    end
}

// Takes an end's class, the class that it accepts and the versions that it holds, two words each: 0 and the end, or 7.
#[tactic(auto, using(crate::proofs::Laws::calls), unfolding(vio_model::specs::Calls::ready))]
pub fn setup(class: u8, accepts: u8, list: &[u64]) -> Ready
    ensures { SetupPost class accepts list.now result }
{
    if vio_versions::accepted_list(list) {
        Ready {
            refusal: 0,
            end: new_end(class, accepts, list),
        }
    } else {
        Ready {
            refusal: BAD_LIST,
            end: [0u64; END_WORDS],
        }
    }
}

fn set_words(end: &mut [u64], stage: u64, id: u64, major: u64, minor: u64)
    requires { length end.old ≡ end_words }
    ensures { end.new ≡ sets end.old stage_word (stage ∷ id ∷ major ∷ minor ∷ []) }
{
    end[STAGE] = stage;
    end[ID] = id;
    end[MAJOR] = major;
    end[MINOR] = minor;
}

#[tactic(auto, unfolding(vio_model::specs::Layout::with_session, vio_model::specs::Layout::session_words))]
fn set_session(end: &mut [u64], session: Session)
    requires { length end.old ≡ end_words }
    ensures { end.new ≡ with_session end.old session }
{
    match session {
        Session::Nothing => set_words(end, 0, 0, 0, 0),
        Session::Asked { id, major, minor } => set_words(end, ASKED, id, major, minor),
        Session::Agreed { id, major, minor } => set_words(end, AGREED, id, major, minor),
        Session::Ended => set_words(end, ENDED, 0, 0, 0),
    }
}

// An answer without words.
fn silent(refusal: u64) -> Answer
    ensures { result ≡ record { refusal = refusal; count = 0; first = 0; second = 0 } }
{
    Answer {
        refusal,
        count: 0,
        first: 0,
        second: 0,
    }
}

// The effect on a sound end, and the answer.
#[tactic(auto, using(crate::proofs::Laws::calls), unfolding(vio_model::specs::Calls::accepted))]
fn accepted(end: &mut [u64], effect: Effect) -> Answer
    requires { (length end.old ≡ end_words) × Fits effect }
    ensures { outcome_of result end.new ≡ accepted end.old effect }
{
    match effect {
        Effect::Ignored => silent(0),
        Effect::Becomes(session) => {
            set_session(end, session);
            silent(0)
        }
        Effect::Sends(session, message) => {
            set_session(end, session);
            let words = vio_message::pack(message);
            Answer {
                refusal: 0,
                count: MESSAGE_WORDS,
                first: words.first,
                second: words.second,
            }
        }
    }
}

// Starts a handshake under a session id: the request for the highest major. Words that are no sound end are refused
// by 8.
#[tactic(auto, using(crate::proofs::Laws::calls), unfolding(vio_model::specs::Calls::started))]
pub fn start(end: &mut [u64], id: u32) -> Answer
    ensures { StartPost end.old id result end.new }
{
    if !vio_versions::sound(end) {
        return silent(NOT_SOUND);
    }
    let effect = vio_rules::asking(end, u64::from(id), VERSION_LIMIT);
    accepted(end, effect)
}

// Receives the two words of a message; `next` is the session id of the request that it may send next.
#[tactic(auto, using(crate::proofs::Laws::calls), unfolding(vio_model::specs::Calls::received))]
pub fn receive(end: &mut [u64], next: u32, first: u64, second: u64) -> Answer
    ensures { ReceivePost end.old next first second result end.new }
{
    if !vio_versions::sound(end) {
        return silent(NOT_SOUND);
    }
    let m = vio_message::unpack(Words { first, second });
    let effect = vio_rules::heard(end, u64::from(next), m);
    accepted(end, effect)
}
