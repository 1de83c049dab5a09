// Lines gathered, and written to standard output in large pieces. Once a write has failed nothing more is written; the
// program that asks for `failed` reports it once and ends.
ghost use Rattle.std.specs.Prelude.{◌≡◌, ◌≤◌, [], ◌∷◌, length};
ghost use Rattle.lines.specs.Forms.{bad_line, line_of, most_form, shown_bytes, start_of};
ghost use Rattle.lines.specs.Output.{Adds};

use crate::form::Values;
use std::io::{Print, Stdout};

pub const TEXT_BYTES: usize = 65536;

// The most bytes of a line.
const LINE_BYTES: usize = 35330;

pub type Text = [u8; TEXT_BYTES];

// Where the bytes go, those that are gathered, how many they are, and whether a write has failed.
#[derive(Clone, Copy)]
pub struct Output {
    to: Stdout,
    pub(crate) text: Text,
    pub(crate) used: usize,
    pub failed: bool,
}

impl Output {
    pub fn new(to: Stdout) -> Output
        ensures { result.used ≡ 0 }
    {
        Output {
            to,
            text: [0u8; TEXT_BYTES],
            used: 0,
            failed: false,
        }
    }

    // Writes out what is gathered.
    pub fn flush(&mut self)
        ensures used { self.new.used ≡ 0 }
        ensures text { self.new.text ≡ self.old.text }
    {
        if !self.failed {
            let end = self.used.min(TEXT_BYTES);
            self.failed = Print::write_all(&self.to, &self.text[..end]).is_err();
        }
        self.used = 0;
    }

    // Makes room for a line.
    fn make_room(&mut self)
        ensures used { self.new.used ≡ start_of self.old.used }
        ensures text { self.new.text ≡ self.old.text }
    {
        if TEXT_BYTES - LINE_BYTES < self.used {
            self.flush();
        }
    }

    // A line: the form, with the name and the numbers that its marks stand for, and bytes after it.
    pub fn put_bytes(&mut self, form: &[u8], name: &[u8], values: Values, bytes: &[u8])
        requires { (length form.now ≤ most_form) × (length name.now ≤ shown_bytes) }
        ensures { Adds (line_of form.now name.now values bytes.now) self.old self.new }
    {
        self.make_room();
        self.put_whole(form, name, values, bytes);
    }

    // A line of a form and numbers.
    pub fn put_line(&mut self, form: &[u8], values: Values)
        requires { length form.now ≤ most_form }
        ensures { Adds (line_of form.now [] values []) self.old self.new }
    {
        self.put_bytes(form, b"", values, b"");
    }

    // The line of this number is bad.
    pub fn put_bad_line(&mut self, number: u64)
        ensures { Adds (bad_line number) self.old self.new }
    {
        self.put_line(b"bad line \0", [number, 0, 0, 0]);
    }

    // A line that has no mark.
    pub fn put_text(&mut self, line: &[u8])
        requires { length line.now ≤ most_form }
        ensures { Adds (line_of line.now [] (0 ∷ 0 ∷ 0 ∷ 0 ∷ []) []) self.old self.new }
    {
        self.put_line(line, [0u64; 4]);
    }

    // The line where something is so, else none.
    pub fn put_if(&mut self, is_so: bool, line: &[u8])
        requires { length line.now ≤ most_form }
    {
        if is_so {
            self.put_text(line);
        }
    }
}
