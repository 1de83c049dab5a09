// How a program ended. A program of Rattle has no exit status: it reports one of these bytes on a descriptor that an
// option names, and its script ends with that status.
ghost use Rattle.std.specs.Prelude.{◌≡◌};
ghost use Rattle.lines.specs.Outcome.{byte_of};

use std::io::{Print, Stderr};

#[derive(Clone, Copy, PartialEq, Eq)]
pub enum Outcome {
    // The input was read to its end, and all of it is good.
    Good,
    // The input was read to its end, and a part of it is bad.
    Bad,
    // The input could not be read, the output could not be written, or the arguments are wrong.
    Failed,
}

impl Outcome {
    // The byte that reports it.
    pub fn byte(self) -> u8
        ensures { result ≡ byte_of self }
    {
        match self {
            Outcome::Good => b'0',
            Outcome::Bad => b'1',
            Outcome::Failed => b'2',
        }
    }
}

// Writes to standard error. Where that fails, nothing is left to report it on.
pub fn tell(to: Stderr, text: &[u8]) {
    let _ = Print::write_all(&to, text);
}

// Reports what failed on standard error, after the program's name.
pub fn report_failure(to: Stderr, program: &[u8], failure: &[u8]) -> Outcome {
    tell(to, program);
    tell(to, b": ");
    tell(to, failure);
    tell(to, b"\n");
    Outcome::Failed
}

// How a program ended whose input was not read to its end, whose output was not written, or that found a bad line.
pub fn outcome_of(to: Stderr, program: &[u8], unread: bool, unwritten: bool, bad: bool) -> Outcome {
    if unwritten {
        return report_failure(to, program, b"the output cannot be written");
    }
    if unread {
        return report_failure(to, program, b"the input cannot be read");
    }
    if bad {
        return Outcome::Bad;
    }
    Outcome::Good
}
