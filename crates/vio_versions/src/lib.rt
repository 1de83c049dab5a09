// The versions that an end holds, its session, and its soundness, read from words that the caller lends.
#![tactic(auto)]

ghost use Rattle.std.specs.Prelude.{◌≡◌, ◌≤◌, ◌<◌, length, ltb};
ghost use Rattle.basics.specs.Choice.{◌and◌};
ghost use Rattle.vio_model.specs.Layout.{end_words, most_versions, versions_held, versions_of, session_in, session_of};
ghost use Rattle.vio_model.specs.Versions.{count_of, holds_in, holds, minor_of, highest_below, version_keeps, accepted_list};
ghost use Rattle.vio_model.specs.Sound.{id_limit, session_keeps, sound};

use vio_model::{
    ACCEPTS, AGREED, ASKED, CLASS, CLASS_LIMIT, COUNT, END_WORDS, ENDED, FIRST_VERSION, ID,
    ID_LIMIT, MAJOR, MINOR, MOST_VERSIONS, STAGE, Session, VERSION_LIMIT, VERSION_WORDS,
};

// The first `n` versions of a list have this major.
#[tactic(auto, using(crate::proofs::Turns::turns))]
fn holds_in(list: &[u64], major: u64, n: usize) -> bool
    requires { n ≤ count_of list.now }
    ensures { result ≡ holds_in list.now major n }
{
    for i in 0..n {
        if list[i * VERSION_WORDS] == major {
            return true;
        }
    }
    false
}

// A list has this major.
pub fn holds(list: &[u64], major: u64) -> bool
    ensures { result ≡ holds list.now major }
{
    holds_in(list, major, list.len() / VERSION_WORDS)
}

// The minor of a major held, 0 of any other.
#[tactic(auto, unfolding(vio_model::specs::Versions::minor_in, basics::specs::Choice::pick))]
pub fn minor_of(list: &[u64], major: u64) -> u64
    ensures { result ≡ minor_of list.now major }
{
    let mut minor = 0;
    for i in 0..list.len() / VERSION_WORDS {
        if list[i * VERSION_WORDS] == major {
            minor = list[i * VERSION_WORDS + 1];
        }
    }
    minor
}

// The highest major held below a bound, 0 where there is none.
// A number and no Option: a refusal tells this 0 to the peer (vio_rules::requested), and the definition gives it.
#[tactic(auto, unfolding(vio_model::specs::Versions::highest_in, basics::specs::Choice::pick))]
pub fn highest_below(list: &[u64], bound: u64) -> u64
    ensures { result ≡ highest_below list.now bound }
{
    let mut highest = 0;
    for i in 0..list.len() / VERSION_WORDS {
        let major = list[i * VERSION_WORDS];
        if major < bound {
            highest = highest.max(major);
        }
    }
    highest
}

// "different majors from 1 up", each number of 16 bits
#[tactic(auto, using(crate::proofs::Tests::ands), unfolding(vio_model::specs::Versions::version_keeps))]
fn version_keeps(list: &[u64], i: usize) -> bool
    requires { i < count_of list.now }
    ensures { result ≡ version_keeps list.now i }
{
    let major = list[i * VERSION_WORDS];
    1 <= major
        && major < VERSION_LIMIT
        && list[i * VERSION_WORDS + 1] < VERSION_LIMIT
        && !holds_in(list, major, i)
}

// Setup accepts the list: whole versions, 1 to 16 of them, that keep the rules.
#[tactic(auto, using(crate::proofs::Tests::listed))]
pub fn accepted_list(list: &[u64]) -> bool
    ensures { result ≡ accepted_list list.now }
{
    let n = list.len() / VERSION_WORDS;
    if list.len() % VERSION_WORDS != 0 || n < 1 || MOST_VERSIONS < n {
        return false;
    }
    for i in 0..n {
        if !version_keeps(list, i) {
            return false;
        }
    }
    true
}

// The versions of an end, two words each.
#[tactic(auto, unfolding(vio_model::specs::Layout::versions_of))]
pub fn versions_of(end: &[u64]) -> &[u64]
    requires { (length end.now ≡ end_words) × (versions_held end.now ≤ most_versions) }
    ensures { result.now ≡ versions_of end.now }
{
    let last = FIRST_VERSION + end[COUNT] as usize * VERSION_WORDS;
    &end[FIRST_VERSION..last]
}

#[tactic(auto, unfolding(vio_model::specs::Layout::session_in, basics::specs::Choice::pick))]
fn session_in(stage: u64, id: u64, major: u64, minor: u64) -> Session
    ensures { result ≡ session_in stage id major minor }
{
    match stage {
        ASKED => Session::Asked { id, major, minor },
        AGREED => Session::Agreed { id, major, minor },
        ENDED => Session::Ended,
        _ => Session::Nothing,
    }
}

// The session of an end.
#[tactic(auto, unfolding(vio_model::specs::Layout::session_of))]
pub fn session_of(end: &[u64]) -> Session
    requires { length end.now ≡ end_words }
    ensures { result ≡ session_of end.now }
{
    session_in(end[STAGE], end[ID], end[MAJOR], end[MINOR])
}

// A session's id has 32 bits, and its major is held.
#[tactic(auto, using(crate::proofs::Tests::ands))]
fn names_held(list: &[u64], id: u64, major: u64) -> bool
    ensures { result ≡ (ltb id id_limit and holds list.now major) }
{
    id < ID_LIMIT && holds(list, major)
}

// An open request asks for a version held; a version agreed is of a major held, with a minor that is held with it.
#[tactic(auto, using(crate::proofs::Tests::ands), unfolding(vio_model::specs::Sound::session_keeps))]
fn session_keeps(list: &[u64], session: Session) -> bool
    ensures { result ≡ session_keeps list.now session }
{
    match session {
        Session::Asked { id, major, minor } => {
            names_held(list, id, major) && minor == minor_of(list, major)
        }
        Session::Agreed { id, major, minor } => {
            names_held(list, id, major) && minor <= minor_of(list, major)
        }
        Session::Nothing | Session::Ended => true,
    }
}

// The words are a sound end.
#[tactic(auto, using(crate::proofs::Tests::ands), unfolding(vio_model::specs::Sound::sound))]
pub fn sound(end: &[u64]) -> bool
    ensures { result ≡ sound end.now }
{
    if end.len() != END_WORDS
        || CLASS_LIMIT <= end[CLASS]
        || CLASS_LIMIT <= end[ACCEPTS]
        || ENDED < end[STAGE]
        || (MOST_VERSIONS as u64) < end[COUNT]
    {
        return false;
    }
    let list = versions_of(end);
    accepted_list(list) && session_keeps(list, session_of(end))
}
