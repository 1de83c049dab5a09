// "up to 32 devices given at setup": the rules of a device list, and the device that an id and a name name.
#![tactic(auto)]

ghost use Rattle.std.specs.Prelude.{◌≡◌, true, not, ◌+◌, ◌*◌, ◌≤◌, ◌<◌, eqb, length};
ghost use Rattle.basics.specs.Choice.{every};
ghost use Rattle.model.specs.Layout.{device_at, device_in, devices_of, device_words, first_device_word, most_devices, with_device};
ghost use Rattle.model.specs.Devices.{accepted_devices, device_apart, device_keeps, devices_keep, is_device, name_keeps, named_device};
ghost use Rattle.device_list.specs.Rising.{ids_rise};

use model::{
    BUSY_PLACE, DEVICE_CONFIGURED_PLACE, DEVICE_COUNT_WORD, DEVICE_WORDS, FIRST_DEVICE_WORD,
    MOST_DEVICES, MOST_NAME_BYTES, NAME_BYTES_PLACE, NAME_PLACE, State,
};

// The rules of one device.
fn device_keeps(words: &[u64], at: usize, i: usize) -> bool
    requires { at + i * device_words + device_words ≤ length words.now }
    ensures { result ≡ device_keeps words.now at i }
{
    let d = at + i * DEVICE_WORDS;
    if 1 < words[d + DEVICE_CONFIGURED_PLACE] {
        return false;
    }
    if 1 < words[d + BUSY_PLACE] {
        return false;
    }
    names::holds_name(
        words,
        d + NAME_PLACE,
        words[d + NAME_BYTES_PLACE] as usize,
        MOST_NAME_BYTES,
    )
}

// The loops of `each_keeps` and `each_apart` differ in the test and in what it may ask of the words, which a closure's
// contract would have to say for each.
fn each_keeps(words: &[u64], at: usize, n: usize) -> bool
    requires { at + n * device_words ≤ length words.now }
    ensures { result ≡ every n (device_keeps words.now at) }
{
    for i in 0..n {
        if !device_keeps(words, at, i) {
            return false;
        }
    }
    true
}

// The device at place `j` has the id and the name of the one at place `i`.
fn same_device(words: &[u64], at: usize, i: usize, j: usize) -> bool
    requires { (at + i * device_words + device_words ≤ length words.now) × (at + j * device_words + device_words ≤ length words.now) × (name_keeps words.now at i ≡ true) × (name_keeps words.now at j ≡ true) }
    ensures { result ≡ is_device (device_in words.now at i).id (device_in words.now at i).name (device_in words.now at j) }
{
    let a = at + j * DEVICE_WORDS;
    let b = at + i * DEVICE_WORDS;
    if words[a] != words[b] {
        return false;
    }
    let n = words[a + NAME_BYTES_PLACE] as usize;
    let m = words[b + NAME_BYTES_PLACE] as usize;
    names::same_names(words, a + NAME_PLACE, n, b + NAME_PLACE, m)
}

// No device before the one at place `i` has its id. All ids are read, and none of the names.
fn id_apart(words: &[u64], at: usize, i: usize) -> bool
    requires { at + i * device_words + device_words ≤ length words.now }
    ensures { result ≡ every i (λ j. not (eqb (device_in words.now at j).id (device_in words.now at i).id)) }
{
    let id = words[at + i * DEVICE_WORDS];
    let mut apart = true;
    for j in 0..i {
        apart &= words[at + j * DEVICE_WORDS] != id;
    }
    apart
}

// No device before the one at place `i` has its id and name.
fn name_apart(words: &[u64], at: usize, i: usize) -> bool
    requires { (at + i * device_words + device_words ≤ length words.now) × (every (i + 1) (device_keeps words.now at) ≡ true) }
    ensures { result ≡ device_apart words.now at i }
{
    for j in 0..i {
        if same_device(words, at, i, j) {
            return false;
        }
    }
    true
}

// The same: where no other device has the id, no name is read.
fn device_apart(words: &[u64], at: usize, i: usize) -> bool
    requires { (at + i * device_words + device_words ≤ length words.now) × (every (i + 1) (device_keeps words.now at) ≡ true) }
    ensures { result ≡ device_apart words.now at i }
{
    id_apart(words, at, i) || name_apart(words, at, i)
}

fn each_apart(words: &[u64], at: usize, n: usize) -> bool
    requires { (at + n * device_words ≤ length words.now) × (every n (device_keeps words.now at) ≡ true) }
    ensures { result ≡ every n (device_apart words.now at) }
{
    for i in 0..n {
        if !device_apart(words, at, i) {
            return false;
        }
    }
    true
}

// The ids rise, and so differ.
fn ids_rise(words: &[u64], at: usize, n: usize) -> bool
    requires { at + n * device_words ≤ length words.now }
    ensures { result ≡ ids_rise words.now at n }
{
    let mut rise = true;
    for j in 1..n {
        rise &= words[at + (j - 1) * DEVICE_WORDS] < words[at + j * DEVICE_WORDS];
    }
    rise
}

// No device has another's id and name. Where the ids rise, no two are compared.
fn all_apart(words: &[u64], at: usize, n: usize) -> bool
    requires { (at + n * device_words ≤ length words.now) × (every n (device_keeps words.now at) ≡ true) }
    ensures { result ≡ every n (device_apart words.now at) }
{
    ids_rise(words, at, n) || each_apart(words, at, n)
}

// The `n` devices whose words stand from `at` on keep the rules.
fn keep_rules(words: &[u64], at: usize, n: usize) -> bool
    requires { (n ≤ most_devices) × (at + n * device_words ≤ length words.now) }
    ensures { result ≡ devices_keep words.now at n }
{
    each_keeps(words, at, n) && all_apart(words, at, n)
}

// Whole devices, not too many, that keep the rules.
pub fn accepted_devices(l: &[u64]) -> bool
    ensures { result ≡ accepted_devices l.now }
{
    if l.len() % DEVICE_WORDS != 0 {
        return false;
    }
    let n = l.len() / DEVICE_WORDS;
    if MOST_DEVICES < n {
        return false;
    }
    keep_rules(l, 0, n)
}

// The state's devices keep the rules, and are not too many.
pub fn state_devices_keep(state: &State) -> bool
    ensures { result ≡ devices_keep state.now first_device_word (devices_of state.now) }
{
    let n = state[DEVICE_COUNT_WORD] as usize;
    if MOST_DEVICES < n {
        return false;
    }
    keep_rules(state, FIRST_DEVICE_WORD, n)
}

// The id and the name name the device at place `i`; few devices have the id, so that the name is read last.
fn is_device(words: &[u64], at: usize, i: usize, id: u64, name: &[u8]) -> bool
    requires { (at + i * device_words + device_words ≤ length words.now) × (name_keeps words.now at i ≡ true) }
    ensures { result ≡ is_device id name.now (device_in words.now at i) }
{
    let d = at + i * DEVICE_WORDS;
    if words[d] != id {
        return false;
    }
    let n = words[d + NAME_BYTES_PLACE] as usize;
    names::has_name(words, d + NAME_PLACE, n, name)
}

// The state's device that the id and the name name, if there is one.
pub fn named_device(state: &State, id: u64, name: &[u8]) -> Option<usize>
    requires { devices_keep state.now first_device_word (devices_of state.now) ≡ true }
    ensures { result ≡ named_device state.now id name.now }
{
    let count = state[DEVICE_COUNT_WORD] as usize;
    for i in 0..count {
        if is_device(state, FIRST_DEVICE_WORD, i, id, name) {
            return Some(i);
        }
    }
    None
}

// The number of devices.
pub fn devices_of(state: &State) -> usize
    ensures { result ≡ devices_of state.now }
{
    state[DEVICE_COUNT_WORD] as usize
}

// The words of device i: whether it is configured, and its busy mark.
pub fn configured_of(state: &State, i: usize) -> u64
    requires { i < most_devices }
    ensures { result ≡ (device_at state.now i).configured }
{
    state[FIRST_DEVICE_WORD + i * DEVICE_WORDS + DEVICE_CONFIGURED_PLACE]
}

pub fn busy_of(state: &State, i: usize) -> u64
    requires { i < most_devices }
    ensures { result ≡ (device_at state.now i).busy }
{
    state[FIRST_DEVICE_WORD + i * DEVICE_WORDS + BUSY_PLACE]
}

// Device i configured (1) or unconfigured (0).
pub fn set_configured(state: &mut State, i: usize, flag: u64)
    requires { i < most_devices }
    ensures { state.new ≡ with_device state.old i flag }
{
    state[FIRST_DEVICE_WORD + i * DEVICE_WORDS + DEVICE_CONFIGURED_PLACE] = flag;
}
