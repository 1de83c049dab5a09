// A program's arguments: an option of its own, and `--status-fd N`, the descriptor on which it reports how it ended.
// Its script gives the latter.
#![tactic(auto)]

ghost use Rattle.std.specs.Prelude.{◌≤◌, IfSome, length};

use lines::fields;
use lines::outcome::{Outcome, tell};
use std::env::{Env, FillError};
use std::fmt::InlineText;
use std::fs::{Files, OpenOptions};
use std::io::{ErrorKind, Print, Write};
use std::os::unix::fs::PermissionsExt;
use std::{fs, io};

const MOST_BYTES: usize = 64;

// The highest number of a descriptor.
const MOST_DESCRIPTOR: u64 = 2147483647;

// The owner's permission to write, among those of a file.
const WRITES: u32 = 0o200;

#[derive(Clone, Copy)]
pub struct Options {
    // The program's own option is there.
    pub own: bool,
    // The arguments are none that the program takes.
    pub wrong: bool,
    // The descriptor, if one is given.
    pub status_fd: Option<i32>,
    // The descriptor's number comes next.
    awaits_number: bool,
}

impl Options {
    // The number that comes after `--status-fd`.
    fn take_number(&mut self, word: &[u8]) {
        self.awaits_number = false;
        match fields::number_in(word) {
            Some(n) if n <= MOST_DESCRIPTOR => self.status_fd = Some(n as i32),
            _ => self.wrong = true,
        }
    }

    // One argument more.
    fn take(&mut self, own: &[u8], word: &[u8]) {
        if self.awaits_number {
            self.take_number(word);
        } else if word == b"--status-fd".as_slice() {
            self.awaits_number = true;
        } else if word.len() != 0 && word == own {
            self.own = true;
        } else {
            self.wrong = true;
        }
    }
}

// How many bytes an argument has, which are put at the start of a run; none where there is no such argument. One that
// is longer than the run counts as an empty one: a program takes neither.
fn word_at<R: Env>(rt: &R, i: usize, into: &mut [u8]) -> Option<usize>
    ensures { IfSome result (λ n. n ≤ length into.new) }
{
    match rt.arg(i, into) {
        Ok(length) => Some(length),
        Err(FillError::TooLong) => Some(0),
        Err(FillError::NotPresent) => None,
    }
}

// The program's arguments; `own` is its own option, empty where it has none.
pub fn read<R: Env>(rt: &R, own: &[u8]) -> Options {
    let mut options = Options {
        own: false,
        wrong: false,
        status_fd: None,
        awaits_number: false,
    };
    for i in 1..usize::MAX {
        let mut word = [0u8; MOST_BYTES];
        let Some(length) = word_at(rt, i, &mut word) else {
            break;
        };
        options.take(own, &word[..length]);
    }
    options.wrong = options.wrong || options.awaits_number;
    options
}

// Writes a byte to an open descriptor, which the system names as a file; behind what the file has, where it is one. The
// name is a link, whose permissions tell whether the descriptor is one to write to.
fn write_to_file<R: Files>(rt: &R, descriptor: i32, byte: u8) -> io::Result<()> {
    let name = InlineText::<32>::of(format_args!("/dev/fd/{descriptor}"));
    let link = fs::symlink_metadata(rt, name.as_str())?;
    if link.permissions().mode() & WRITES == 0 {
        return Err(io::Error::from(ErrorKind::PermissionDenied));
    }
    let mut file = OpenOptions::new().append(true).open(rt, name.as_str())?;
    file.write_all(&[byte])
}

fn write_to(rt: HostRuntime, descriptor: i32, byte: u8) -> io::Result<()> {
    match descriptor {
        1 => Print::write_all(&rt.stdout(), &[byte]),
        2 => Print::write_all(&rt.stderr(), &[byte]),
        _ => write_to_file(&rt, descriptor, byte),
    }
}

// Reports by a byte how the program ended, where it was given a descriptor for that.
pub fn report(rt: HostRuntime, options: Options, outcome: u8) {
    let Some(descriptor) = options.status_fd else {
        return;
    };
    if write_to(rt, descriptor, outcome).is_err() {
        tell(rt.stderr(), b"the outcome cannot be reported\n");
    }
}

// The answer to arguments that the program does not take.
pub fn usage(rt: HostRuntime, options: Options, text: &[u8]) {
    tell(rt.stderr(), text);
    report(rt, options, Outcome::Failed.byte());
}
