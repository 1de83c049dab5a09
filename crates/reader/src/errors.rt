// What stops the reader, and errors of the system in its own words.
use lines::outcome::tell;
use std::fmt::InlineText;
use std::io;

// The words that std puts before the number of an error, behind the system's words for it.
const BEFORE_NUMBER: &str = " (os error ";

// Why the entries are not read to their end. A read or a write that has failed is reported where it fails.
#[derive(Clone, Copy, PartialEq, Eq)]
pub enum Failure {
    Unread,
    Unwritten,
    // The block list is cut short, or setup would refuse it.
    BadBlocks,
}

// Writes a line to standard error: what failed, a colon and the system's words for the error.
pub fn report(rt: HostRuntime, what: &[u8], e: io::Error) {
    let shown = InlineText::<320>::of(e);
    let text = shown.as_str();
    let words = match text.split_once(BEFORE_NUMBER) {
        Some((words, _)) => words,
        None => text,
    };
    tell(rt.stderr(), what);
    tell(rt.stderr(), b": ");
    tell(rt.stderr(), words.as_bytes());
    tell(rt.stderr(), b"\n");
}
