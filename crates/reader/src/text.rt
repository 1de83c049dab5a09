// Lines gathered, and written to standard output in large pieces. A write that fails is reported once.
ghost use Rattle.std.specs.Prelude.{◌≡◌, ◌*◌, ◌≤◌, length};
ghost use Rattle.entry_lines.specs.Output.{line_bytes};
ghost use Rattle.model.specs.Replay.{entry_bytes};

use crate::errors;
use crate::errors::Failure;
use entry_lines::LINE_BYTES;
use std::io::Write;

// Room for a line behind those gathered.
const TEXT_BYTES: usize = 2 * LINE_BYTES;

// The lines gathered, at the start of the text.
#[derive(Clone, Copy)]
pub struct Lines {
    text: [u8; TEXT_BYTES],
    used: usize,
}

// Writes all of the text. A write that a signal interrupted is made again.
pub fn write(rt: HostRuntime, text: &[u8]) -> Result<(), Failure> {
    let mut to = rt.stdout();
    // By its trait: `Print` has a method of that name too, which gives up after a count of interrupted writes.
    match Write::write_all(&mut to, text) {
        Ok(()) => Ok(()),
        Err(e) => {
            errors::report(rt, b"reader: the output cannot be written", e);
            Err(Failure::Unwritten)
        }
    }
}

impl Lines {
    pub fn new() -> Lines
        ensures { result.used ≡ 0 }
    {
        Lines {
            text: [0u8; TEXT_BYTES],
            used: 0,
        }
    }

    // Writes out what is gathered. Nothing is left to be written again, not even where that fails.
    pub fn flush(&mut self, rt: HostRuntime) -> Result<(), Failure>
        ensures { self.new.used ≡ 0 }
    {
        let end = self.used.min(TEXT_BYTES);
        self.used = 0;
        write(rt, &self.text[..end])
    }

    // Puts the line of an entry behind those gathered.
    pub fn tell(&mut self, rt: HostRuntime, entry: &[u8], marked: bool) -> Result<(), Failure>
        requires { length entry.now ≡ entry_bytes }
        ensures { self.new.used ≤ 2 * line_bytes }
    {
        if LINE_BYTES < self.used {
            self.flush(rt)?;
        }
        let at = self.used;
        self.used = at + entry_lines::write(entry, marked, &mut self.text[at..]);
        Ok(())
    }
}
