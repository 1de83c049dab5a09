// Names held in words, eight bytes each: the rules of a name, and names that are the same. Every call of the agent tests the name of every device and id: it is
// read word by word, and no further than its length.
#![tactic(auto)]

ghost use Rattle.std.specs.Prelude.{◌≡◌, true, ◌+◌, ◌*◌, ◌^◌, ◌≤◌, ◌<◌, eqb, length, get_or, Some, None};
ghost use Rattle.wire.specs.BigEndian.{byte_at, number_at};
ghost use Rattle.basics.specs.Choice.{every, pick};
ghost use Rattle.model.specs.Layout.{word_bytes};
ghost use Rattle.model.specs.Devices.{same_name, words_holding};
ghost use Rattle.names.specs.NameWords.{whole_word, last_word, same_bytes, held_bytes, padded, holds_name};
ghost use Rattle.names.specs.Hashes.{hash_of, mixed, mixed_words};

use model::WORD_BYTES;

// The low seven bits of each byte, and its top bit.
const LOW_BITS: u64 = 0x7f7f7f7f7f7f7f7f;

const TOP_BITS: u64 = 0x8080808080808080;

const ALL_BITS: u64 = 0xffffffffffffffff;

// The top bits of the word's bytes that are 0, and no other bit: 0x7f added to a byte's low seven bits carries into its top bit, unless they are 0.
fn zero_bytes(w: u64) -> u64
    ensures { eqb result 0 ≡ whole_word w }
{
    let other = ((w & LOW_BITS) + LOW_BITS) | w;
    (other & TOP_BITS) ^ TOP_BITS
}

// None of the bytes of `n` words from `from` on is 0. All of them are read: a loop without another way out takes two words a turn.
fn whole_words(words: &[u64], from: usize, n: usize) -> bool
    requires { from + n ≤ length words.now }
    ensures { result ≡ every n (λ q. whole_word (get_or words.now (from + q) 0)) }
{
    let mut zeros: u64 = 0;
    for w in &words[from..from + n] {
        zeros |= zero_bytes(*w);
    }
    zeros == 0
}

// The last word of a name, whose zero is its byte `end`: no byte before that is 0, and all from it on are.
fn last_word_keeps(w: u64, end: usize) -> bool
    requires { end < word_bytes }
    ensures { result ≡ last_word w end }
{
    let rest = ALL_BITS >> (end as u64 * 8);
    if w & rest != 0 {
        return false;
    }
    zero_bytes(w | rest) == 0
}

// The words from `from` on hold a name of `n` bytes with its zero, at most `most`.
pub fn holds_name(words: &[u64], from: usize, n: usize, most: usize) -> bool
    requires { from + words_holding most ≤ length words.now }
    ensures { result ≡ holds_name words.now from n most }
{
    if n < 1 {
        return false;
    }
    if most < n {
        return false;
    }
    let last = (n - 1) / WORD_BYTES;
    if !whole_words(words, from, last) {
        return false;
    }
    last_word_keeps(words[from + last], (n - 1) % WORD_BYTES)
}

// One word more in a hash, turned first, so that words in another order give another one.
fn mixed(hash: u64, word: u64) -> u64
    ensures { result ≡ mixed hash word }
{
    ((hash << 25) | (hash >> 39)) ^ word
}

// The top bits of the bytes that are 0, of all words passed, and the words mixed.
#[derive(Clone, Copy)]
struct Passed {
    zeros: u64,
    hash: u64,
}

// `n` words from `from` on are tested, and mixed in a hash, in one pass.
fn pass_words(words: &[u64], from: usize, n: usize, first: u64) -> Passed
    requires { from + n ≤ length words.now }
    ensures { (eqb result.zeros 0 ≡ every n (λ q. whole_word (get_or words.now (from + q) 0))) × (result.hash ≡ mixed_words words.now from first n) }
{
    let mut zeros: u64 = 0;
    let mut hash = first;
    for word in &words[from..from + n] {
        zeros |= zero_bytes(*word);
        hash = mixed(hash, *word);
    }
    Passed { zeros, hash }
}

// The name's hash where `holds_name` does; None for what is no name.
pub fn hashed_name(words: &[u64], from: usize, n: usize, most: usize) -> Option<u64>
    requires { from + words_holding most ≤ length words.now }
    ensures { result ≡ pick (holds_name words.now from n most) (Some (hash_of words.now from n)) None }
{
    if n == 0 {
        return None;
    }
    if n > most {
        return None;
    }
    let last = (n - 1) / WORD_BYTES;
    let passed = pass_words(words, from, last, n as u64);
    if passed.zeros != 0 {
        return None;
    }
    let word = words[from + last];
    let end = (n - 1) % WORD_BYTES;
    if !last_word_keeps(word, end) {
        return None;
    }
    Some(mixed(passed.hash, word))
}

// The `n` words from `a` on are those from `b` on.
fn same_words(words: &[u64], a: usize, b: usize, n: usize) -> bool
    requires { (a + n ≤ length words.now) × (b + n ≤ length words.now) }
    ensures { result ≡ every n (λ q. same_bytes (get_or words.now (a + q) 0) (get_or words.now (b + q) 0)) }
{
    // A loop: `==` of two slices holds more registers in what tests each pair of ids, and so more of the stack.
    for q in 0..n {
        if words[a + q] != words[b + q] {
            return false;
        }
    }
    true
}

// The `n` bytes from the word `a` on and the `m` from `b` on are the same. Where they are as many, their words are the same: what follows them is 0.
pub fn same_names(words: &[u64], a: usize, n: usize, b: usize, m: usize) -> bool
    requires { (1 ≤ n) × (a + words_holding n ≤ length words.now) × (b + words_holding m ≤ length words.now) × (padded words.now a n ≡ true) × (padded words.now b m ≡ true) }
    ensures { result ≡ same_name (held_bytes words.now a n) (held_bytes words.now b m) }
{
    if n != m {
        return false;
    }
    let count = (n - 1) / WORD_BYTES + 1;
    same_words(words, a, b, count)
}

// The byte at `i`, 0 past the end.
fn byte_or_zero(b: &[u8], i: usize) -> u64
    ensures { (result ≡ byte_at b.now i) × (result < 256) }
{
    if i < b.len() {
        return b[i] as u64;
    }
    0
}

// The numbers in four and in eight bytes from `at` on, those past the end 0.
fn half_word(b: &[u8], at: usize) -> u64
    requires { at + 4 < 2 ^ 64 }
    ensures { (result ≡ number_at b.now at 4) × (result < 4294967296) }
{
    byte_or_zero(b, at) * 16777216
        + byte_or_zero(b, at + 1) * 65536
        + byte_or_zero(b, at + 2) * 256
        + byte_or_zero(b, at + 3)
}

fn last_word(b: &[u8], at: usize) -> u64
    requires { at < length b.now }
    ensures { result ≡ number_at b.now at word_bytes }
{
    let high = half_word(b, at);
    let low = half_word(b, at + 4);
    high * 4294967296 + low
}

fn word_at(b: &[u8], at: usize) -> u64
    requires { at < length b.now }
    ensures { result ≡ number_at b.now at word_bytes }
{
    if WORD_BYTES <= b.len() - at {
        return wire::get64(b, at);
    }
    last_word(b, at)
}

// The `n` words from `from` on have the bytes of `name`, those past its end 0.
fn has_bytes(words: &[u64], from: usize, n: usize, name: &[u8]) -> bool
    requires { (from + n ≤ length words.now) × (n * word_bytes < length name.now + word_bytes) }
    ensures { result ≡ every n (λ q. same_bytes (get_or words.now (from + q) 0) (number_at name.now (q * word_bytes) word_bytes)) }
{
    for q in 0..n {
        if words[from + q] != word_at(name, q * WORD_BYTES) {
            return false;
        }
    }
    true
}

// The `n` bytes from the word `from` on are those of `name`.
pub fn has_name(words: &[u64], from: usize, n: usize, name: &[u8]) -> bool
    requires { (1 ≤ n) × (from + words_holding n ≤ length words.now) × (padded words.now from n ≡ true) }
    ensures { result ≡ same_name (held_bytes words.now from n) name.now }
{
    if n != name.len() {
        return false;
    }
    let count = (n - 1) / WORD_BYTES + 1;
    has_bytes(words, from, count, name)
}
