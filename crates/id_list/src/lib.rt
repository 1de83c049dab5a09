// "up to 16 different ids, at most 32 bytes with the zero, that the host lists at setup": the rules of an id list, and the listed id that has given bytes.
#![tactic(auto)]

ghost use Rattle.std.specs.Prelude.{◌≡◌, true, ◌+◌, ◌*◌, ◌≤◌, ◌<◌, length, Some, None};
ghost use Rattle.basics.specs.Choice.{every, pick};
ghost use Rattle.model.specs.Layout.{first_id_word, id_at, ids_of, id_words, most_ids};
ghost use Rattle.model.specs.Peers.{accepted_ids, id_apart, id_keeps, ids_keep, listed_id};
ghost use Rattle.id_list.specs.Hashes.{HashesStand, apart_at, folded, hash_in, hashes_apart};

use model::{
    FIRST_ID_WORD, HIGHEST_MINOR, ID_BYTES_PLACE, ID_COUNT_WORD, ID_MINOR_PLACE, ID_PLACE,
    ID_WORDS, MOST_ID_BYTES, MOST_IDS, State,
};

// The hash of an id that keeps the rules: a major and a highest minor of 16 bits, and its bytes.
fn hashed_id(words: &[u64], at: usize, p: usize) -> Option<u64>
    requires { at + p * id_words + id_words ≤ length words.now }
    ensures { result ≡ pick (id_keeps words.now at p) (Some (hash_in words.now at p)) None }
{
    let d = at + p * ID_WORDS;
    if HIGHEST_MINOR < words[d] {
        return None;
    }
    if HIGHEST_MINOR < words[d + ID_MINOR_PLACE] {
        return None;
    }
    let n = words[d + ID_BYTES_PLACE] as usize;
    names::hashed_name(words, d + ID_PLACE, n, MOST_ID_BYTES)
}

// No id before the one at place `p` has its bytes.
fn id_apart(words: &[u64], at: usize, p: usize) -> bool
    requires { (at + p * id_words + id_words ≤ length words.now) × (every p (id_keeps words.now at) ≡ true) × (id_keeps words.now at p ≡ true) }
    ensures { result ≡ id_apart words.now at p }
{
    let d = at + p * ID_WORDS;
    let n = words[d + ID_BYTES_PLACE] as usize;
    for q in 0..p {
        let e = at + q * ID_WORDS;
        let m = words[e + ID_BYTES_PLACE] as usize;
        if names::same_names(words, e + ID_PLACE, m, d + ID_PLACE, n) {
            return false;
        }
    }
    true
}

// Each id has other bytes than those before it. (`each_keeps` writes the hashes on its way.)
fn each_apart(words: &[u64], at: usize, n: usize) -> bool
    requires { (at + n * id_words ≤ length words.now) × (every n (id_keeps words.now at) ≡ true) }
    ensures { result ≡ every n (id_apart words.now at) }
{
    for p in 0..n {
        if !id_apart(words, at, p) {
            return false;
        }
    }
    true
}

// Every call of the agent tests the whole list. So that not each pair of ids is compared, each has a hash of 32 bits; ids are compared only where two hashes are the same.
// A hash stands twice, so that each stands beside each other one at a distance up to half of them.
type Hashes = [u32; 2 * MOST_IDS];

// The 32 bits of a name's hash.
fn folded(hash: u64) -> u32
    ensures { result ≡ folded hash }
{
    ((hash ^ (hash >> 29)) % 4294967296) as u32
}

// The ids keep the rules, each by itself; where they do, their hashes are written.
fn each_keeps(words: &[u64], at: usize, n: usize, hashes: &mut Hashes) -> bool
    requires { (n ≤ most_ids) × (at + n * id_words ≤ length words.now) × (length hashes.old ≡ 2 * most_ids) }
    ensures { (result ≡ every n (id_keeps words.now at)) × (result ≡ true → HashesStand words.now at n hashes.new) }
{
    for p in 0..n {
        let Some(whole) = hashed_id(words, at, p) else {
            return false;
        };
        let hash = folded(whole);
        hashes[p] = hash;
        hashes[p + MOST_IDS] = hash;
    }
    true
}

// No hash is the one so many places on. All of them are read: a loop without another way out takes several hashes a turn.
fn apart_at(hashes: &Hashes, distance: usize) -> bool
    requires { distance ≤ most_ids }
    ensures { result ≡ apart_at hashes.now distance }
{
    let mut apart = true;
    for k in 0..MOST_IDS {
        apart &= hashes[k] != hashes[k + distance];
    }
    apart
}

// No two hashes are the same.
fn hashes_apart(hashes: &Hashes) -> bool
    ensures { result ≡ hashes_apart hashes.now }
{
    let mut apart = true;
    for d in 0..MOST_IDS / 2 {
        apart &= apart_at(hashes, d + 1);
    }
    apart
}

// Hashes that differ, for the places past the last id.
fn first_hashes() -> Hashes
    ensures { length result ≡ 2 * most_ids }
{
    let mut hashes: Hashes = [0; 2 * MOST_IDS];
    for p in 0..MOST_IDS {
        hashes[p] = p as u32;
        hashes[p + MOST_IDS] = p as u32;
    }
    hashes
}

// The ids keep the rules, and differ. It stays a call, so that a list without ids costs no frame.
#[inline(never)]
fn keep_apart(words: &[u64], at: usize, n: usize) -> bool
    requires { (n ≤ most_ids) × (at + n * id_words ≤ length words.now) }
    ensures { result ≡ ids_keep words.now at n }
{
    let mut hashes = first_hashes();
    if !each_keeps(words, at, n, &mut hashes) {
        return false;
    }
    if hashes_apart(&hashes) {
        return true;
    }
    each_apart(words, at, n)
}

// The `n` ids whose words stand from `at` on are not too many, keep the rules, and differ. No list is as short as can be.
fn keep_rules(words: &[u64], at: usize, n: usize) -> bool
    requires { n ≤ most_ids → at + n * id_words ≤ length words.now }
    ensures { result ≡ ids_keep words.now at n }
{
    if MOST_IDS < n {
        return false;
    }
    if n < 1 {
        return true;
    }
    keep_apart(words, at, n)
}

// Whole ids, not too many, that keep the rules.
pub fn accepted_ids(l: &[u64]) -> bool
    ensures { result ≡ accepted_ids l.now }
{
    if l.len() % ID_WORDS != 0 {
        return false;
    }
    keep_rules(l, 0, l.len() / ID_WORDS)
}

// The state's ids keep the rules, and are not too many.
pub fn state_ids_keep(state: &State) -> bool
    ensures { result ≡ ids_keep state.now first_id_word (ids_of state.now) }
{
    keep_rules(state, FIRST_ID_WORD, state[ID_COUNT_WORD] as usize)
}

// The place of the state's id that has the bytes of `id`, if there is one.
pub fn listed_id(state: &State, id: &[u8]) -> Option<usize>
    requires { ids_keep state.now first_id_word (ids_of state.now) ≡ true }
    ensures { result ≡ listed_id state.now id.now }
{
    let count = state[ID_COUNT_WORD] as usize;
    for p in 0..count {
        let d = FIRST_ID_WORD + p * ID_WORDS;
        let n = state[d + ID_BYTES_PLACE] as usize;
        if names::has_name(state, d + ID_PLACE, n, id) {
            return Some(p);
        }
    }
    None
}

// The number of ids.
pub fn ids_of(state: &State) -> usize
    ensures { result ≡ ids_of state.now }
{
    state[ID_COUNT_WORD] as usize
}

// The major of id p, and its highest minor.
pub fn major_of(state: &State, p: usize) -> u64
    requires { p < most_ids }
    ensures { result ≡ (id_at state.now p).major }
{
    state[FIRST_ID_WORD + p * ID_WORDS]
}

pub fn highest_minor_of(state: &State, p: usize) -> u64
    requires { p < most_ids }
    ensures { result ≡ (id_at state.now p).minor }
{
    state[FIRST_ID_WORD + p * ID_WORDS + ID_MINOR_PLACE]
}
