// Every pair of lists of versions over majors 1 to 3 and minors 0 and 1, in every order: the exchange that one end
// starts with the other, held to what must come of it by a direct definition, the highest major that both hold and
// the lower of its minors.
#![tactic(auto)]

ghost use Rattle.std.specs.Prelude.{◌≤◌};

use lines::outcome::report_failure;
use lines::output::Output;
use vio_model::{AGREED, ENDED, End, ID, MAJOR, MESSAGE_WORDS, MINOR, STAGE};

// A list is a code of three digits to the base 7: 0 for no version, else 1 to 6 for 1.0, 1.1, 2.0, 2.1, 3.0, 3.1.
const CODES: u64 = 343;

#[derive(Clone, Copy)]
struct Version {
    major: u64,
    minor: u64,
}

// A list, and an end that holds its versions.
#[derive(Drop)]
struct Side {
    code: u64,
    end: End,
}

// What is counted.
#[derive(Default, Drop)]
struct Counts {
    lists: u64,
    pairs: u64,
    with_a_version: u64,
    without: u64,
    requests: u64,
    most_requests: u64,
    differences: u64,
}

fn digits(code: u64) -> [u64; 3] {
    [code % 7, code / 7 % 7, code / 49 % 7]
}

fn major_of(digit: u64) -> u64 {
    digit / 2 + digit % 2
}

fn minor_of(digit: u64) -> u64 {
    1 - digit % 2
}

// The digits are a list: the versions stand first, with different majors, and there is one.
fn is_list(code: u64) -> bool {
    let [a, b, c] = digits(code);
    let (first, second, third) = (major_of(a), major_of(b), major_of(c));
    match (a, b, c) {
        (0, _, _) => false,
        (_, 0, _) => c == 0,
        (_, _, 0) => first != second,
        _ => first != second && first != third && second != third,
    }
}

// How many versions the list has.
fn versions(code: u64) -> usize
    ensures { result ≤ 3 }
{
    match digits(code) {
        [_, 0, _] => 1,
        [_, _, 0] => 2,
        _ => 3,
    }
}

// An end of the list: network (1) and switch (2).
fn side_of(code: u64, class: u8, accepts: u8) -> Side {
    let [a, b, c] = digits(code);
    let list = [
        major_of(a),
        minor_of(a),
        major_of(b),
        minor_of(b),
        major_of(c),
        minor_of(c),
    ];
    let words = versions(code) * 2;
    let end = handshake::setup(class, accepts, &list[..words]).end;
    Side { code, end }
}

// The exchange that the first end starts: the number of requests, each under the next session id. 9 are more than any
// starter here holds majors.
fn exchange(starter: &mut End, other: &mut End, id: u32) -> u64 {
    let mut sent = handshake::start(starter, id);
    let mut next = id;
    for requests in 0..9 {
        if sent.count != MESSAGE_WORDS {
            return requests;
        }
        next = next.wrapping_add(1);
        let answer = handshake::receive(other, 0, sent.first, sent.second);
        sent = handshake::receive(starter, next, answer.first, answer.second);
    }
    9
}

// The minor that a list has for a major, by its digits.
fn minor_for(code: u64, major: u64) -> Option<u64> {
    for digit in digits(code) {
        if major_of(digit) == major {
            return Some(minor_of(digit));
        }
    }
    None
}

// The highest major that both lists hold, with the lower of its minors.
fn highest_common(a: u64, b: u64) -> Option<Version> {
    for major in [3, 2, 1] {
        if let (Some(x), Some(y)) = (minor_for(a, major), minor_for(b, major)) {
            let minor = x.min(y);
            return Some(Version { major, minor });
        }
    }
    None
}

fn has_agreed(end: &End, id: u64, version: Version) -> bool {
    end[STAGE] == AGREED
        && end[ID] == id
        && end[MAJOR] == version.major
        && end[MINOR] == version.minor
}

impl Counts {
    // One exchange between ends in whatever session they are. Both agree on what the lists say, under the last
    // request's session id; or the starter's try has ended, and the other has none.
    fn exchange(&mut self, starter: &mut Side, other: &mut Side, id: u32) {
        let requests = exchange(&mut starter.end, &mut other.end, id);
        let last_id = u64::from(id).wrapping_add(requests).wrapping_sub(1);
        self.requests = self.requests.wrapping_add(requests);
        self.most_requests = self.most_requests.max(requests);
        let is_right = match highest_common(starter.code, other.code) {
            None => {
                self.without = self.without.wrapping_add(1);
                starter.end[STAGE] == ENDED && other.end[STAGE] == 0
            }
            Some(version) => {
                self.with_a_version = self.with_a_version.wrapping_add(1);
                has_agreed(&starter.end, last_id, version)
                    && has_agreed(&other.end, last_id, version)
            }
        };
        if !is_right {
            self.differences = self.differences.wrapping_add(1);
        }
    }

    // A pair: between new ends, once more between the ends that this left, and then started by the other end.
    fn pair(&mut self, a: u64, b: u64) {
        let mut one = side_of(a, 1, 2);
        let mut two = side_of(b, 2, 1);
        self.pairs = self.pairs.wrapping_add(1);
        self.exchange(&mut one, &mut two, 100);
        self.exchange(&mut one, &mut two, 200);
        self.exchange(&mut two, &mut one, 300);
    }

    fn with_all(&mut self, a: u64) {
        for b in 0..CODES {
            if is_list(b) {
                self.pair(a, b);
            }
        }
    }

    fn all_pairs(&mut self) {
        for a in 0..CODES {
            if is_list(a) {
                self.lists = self.lists.wrapping_add(1);
                self.with_all(a);
            }
        }
    }

    fn put(&self, out: &mut Output) {
        out.put_line(b"lists \0", [self.lists, 0, 0, 0]);
        out.put_line(b"pairs \0", [self.pairs, 0, 0, 0]);
        out.put_line(
            b"exchanges with a version agreed \0",
            [self.with_a_version, 0, 0, 0],
        );
        out.put_line(b"exchanges without a version \0", [self.without, 0, 0, 0]);
        out.put_line(b"requests \0", [self.requests, 0, 0, 0]);
        out.put_line(
            b"most requests of an exchange \0",
            [self.most_requests, 0, 0, 0],
        );
        out.put_line(b"differences \0", [self.differences, 0, 0, 0]);
    }
}

fn main(rt: HostRuntime) {
    let mut counts = Counts::default();
    counts.all_pairs();
    let mut out = Output::new(rt.stdout());
    counts.put(&mut out);
    out.flush();
    if out.failed {
        report_failure(rt.stderr(), b"vio_pairs", b"the output cannot be written");
    }
}
