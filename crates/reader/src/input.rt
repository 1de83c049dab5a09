// Reads of standard input. A read that fails is reported, and is never taken for the end of the input.
ghost use Rattle.std.specs.Prelude.{MatchResult};
ghost use Rattle.io.specs.Counts.{IsPrefixLen};

use crate::errors;
use crate::errors::Failure;
use std::io;
use std::io::{ErrorKind, Read};

// A read has failed, after so many bytes.
#[derive(Clone, Copy)]
pub struct Unread {
    pub count: usize,
}

impl From<Unread> for Failure {
    fn from(_unread: Unread) -> Failure {
        Failure::Unread
    }
}

// A call that a signal interrupted is made again.
pub fn is_interrupted(e: &io::Error) -> bool {
    e.kind() == ErrorKind::Interrupted
}

// Reads until the buffer is full, the input ends or a read fails, and counts the bytes, which are at the start of the
// buffer: fewer than it holds at the end of the input.
pub fn fill(rt: HostRuntime, input: &mut [u8]) -> Result<usize, Unread>
    ensures { MatchResult result (λ n. IsPrefixLen n input.new) (λ e. IsPrefixLen e.count input.new) }
{
    let mut from = rt.stdin();
    let mut count: usize = 0;
    for _ in 0..u64::MAX {
        if input.len() <= count {
            break;
        }
        match from.read(&mut input[count..]) {
            Ok(0) => return Ok(count),
            Ok(got) => count += got,
            Err(e) if is_interrupted(&e) => {}
            Err(e) => {
                errors::report(rt, b"reader: the input cannot be read", e);
                return Err(Unread { count });
            }
        }
    }
    if count < input.len() {
        return Err(Unread { count });
    }
    Ok(count)
}
