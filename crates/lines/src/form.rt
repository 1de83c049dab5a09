// A line made from a form. A byte of a form stands for itself, or it is a mark: for a number in decimal, a word in
// hexadecimal, or a name. After the form come bytes as hexadecimal digits, if there are any, and the line's end.
ghost use Rattle.std.specs.Prelude.{◌≡◌, ◌+◌, ◌*◌, ◌<◌, ◌≤◌, [], ◌∷◌, length};
ghost use Rattle.io.specs.Digits.{hex_digit_ascii as Digits·glyph};
ghost use Rattle.lines.specs.Forms.{Puts, decimal, decimal_places, filled, hex_of, line_bytes, line_of, most_form};
ghost use Rattle.lines.specs.Forms.{pair_of, shown, shown_bytes, tail_of, text_bytes, word, word_places};
ghost use Rattle.lines.specs.Output.{PutsInto};

use crate::output::{Output, Text};

// The marks: four numbers in decimal, two of them as words, and the name.
const NUMBERS: u8 = 4;

const PAST_WORDS: u8 = 6;

const NAME: u8 = 6;

// The most bytes that a line shows as digits. No list has more: a line of 32,768 bytes gives no more than 16,384.
const MOST_BYTES: usize = 16384;

// What the marks for numbers and words stand for.
pub type Values = [u64; 4];

// A hexadecimal digit in small letters.
fn glyph(d: u8) -> u8
    requires { d < 16 }
    ensures { result ≡ Digits·glyph d }
{
    if d < 10 {
        return 48 + d;
    }
    87 + d
}

// Puts a byte's two digits at a place; the next place.
fn put_pair(text: &mut Text, at: usize, b: u8) -> usize
    requires { at + 2 ≤ text_bytes }
    ensures { Puts (pair_of b) text.old at 2 result text.new }
{
    text[at] = glyph(b / 16);
    text[at + 1] = glyph(b % 16);
    at + 2
}

impl Output {
    // Puts the bytes behind those gathered.
    fn put(&mut self, bytes: &[u8])
        requires { self.old.used + length bytes.now ≤ text_bytes }
        ensures { PutsInto bytes.now (length bytes.now) self.old self.new }
    {
        let end = self.used + bytes.len();
        self.text[self.used..end].copy_from_slice(bytes);
        self.used = end;
    }

    fn put_decimal(&mut self, n: u64)
        requires { self.old.used + decimal_places ≤ text_bytes }
        ensures { PutsInto (decimal n) decimal_places self.old self.new }
    {
        let mut digits = [0u8; 20];
        let count = io::decimal(n, &mut digits);
        self.put(&digits[..count]);
    }

    fn put_word(&mut self, n: u64)
        requires { self.old.used + word_places ≤ text_bytes }
        ensures { PutsInto (word n) word_places self.old self.new }
    {
        let mut digits = [0u8; 16];
        let count = io::hex(n, 16, &mut digits);
        self.put(&digits[..count]);
    }

    fn put_byte(&mut self, b: u8)
        requires { self.old.used < text_bytes }
        ensures { PutsInto (b ∷ []) 1 self.old self.new }
    {
        self.text[self.used] = b;
        self.used += 1;
    }

    // What a byte of a form shows.
    fn put_shown(&mut self, name: &[u8], values: Values, b: u8)
        requires { (length name.now ≤ shown_bytes) × (self.old.used + shown_bytes ≤ text_bytes) }
        ensures { PutsInto (shown name.now values b) shown_bytes self.old self.new }
    {
        if b < NUMBERS {
            return self.put_decimal(values[b as usize]);
        }
        if b < PAST_WORDS {
            return self.put_word(values[(b - NUMBERS) as usize]);
        }
        if b == NAME {
            return self.put(name);
        }
        self.put_byte(b)
    }

    fn put_form(&mut self, form: &[u8], name: &[u8], values: Values)
        requires { (length name.now ≤ shown_bytes) × (self.old.used + length form.now * shown_bytes ≤ text_bytes) }
        ensures { PutsInto (filled form.now name.now values) (length form.now * shown_bytes) self.old self.new }
    {
        for b in form {
            self.put_shown(name, values, *b);
        }
    }

    // The next place is a number of its own, and `used` is set at the end: a store to the text could be one to `used`,
    // as far as the compiler knows, which would load it again for each digit.
    fn put_hex(&mut self, bytes: &[u8])
        requires { self.old.used + length bytes.now * 2 ≤ text_bytes }
        ensures { PutsInto (hex_of bytes.now) (length bytes.now * 2) self.old self.new }
    {
        let mut next = self.used;
        for b in bytes {
            next = put_pair(&mut self.text, next, *b);
        }
        self.used = next;
    }

    // Bytes after a space, nothing for no bytes; then the line's end.
    fn put_tail(&mut self, bytes: &[u8])
        requires { self.old.used + 2 + length bytes.now * 2 ≤ text_bytes }
        ensures { PutsInto (tail_of bytes.now) (2 + length bytes.now * 2) self.old self.new }
    {
        if bytes.len() == 0 {
            return self.put_byte(b'\n');
        }
        self.put_byte(b' ');
        self.put_hex(bytes);
        self.put_byte(b'\n');
    }

    // Puts a whole line where there is room for it.
    pub(crate) fn put_whole(&mut self, form: &[u8], name: &[u8], values: Values, bytes: &[u8])
        requires form { length form.now ≤ most_form }
        requires name { length name.now ≤ shown_bytes }
        requires room { self.old.used + line_bytes ≤ text_bytes }
        ensures { PutsInto (line_of form.now name.now values bytes.now) line_bytes self.old self.new }
    {
        let end = MOST_BYTES.min(bytes.len());
        self.put_form(form, name, values);
        self.put_tail(&bytes[..end]);
    }
}
