// The fields of a line: names, numbers and bytes.
ghost use Rattle.std.specs.Prelude.{◌≡◌, ◌≤◌, length};
ghost use Rattle.io.specs.Counts.{IsPrefixLen};
ghost use Rattle.lines.specs.Fields.{appended, digits_in, number_in, pair_in, BytesRead, end_of, is_comment, is_blank};

use crate::scan::find;

// The number with one digit more, if that is one and it stays below 2^64.
fn with_digit(base: u32, value: u64, b: u8) -> Option<u64>
    requires { (2 ≤ base) × (base ≤ 36) }
    ensures { result ≡ appended base value b }
{
    let digit = char::from(b).to_digit(base)?;
    value
        .checked_mul(u64::from(base))?
        .checked_add(u64::from(digit))
}

// One or more digits.
fn digits(base: u32, field: &[u8]) -> Option<u64>
    requires { (2 ≤ base) × (base ≤ 36) }
    ensures { result ≡ digits_in base field.now }
{
    if field.len() == 0 {
        return None;
    }
    let mut value: u64 = 0;
    for b in field {
        value = with_digit(base, value, *b)?;
    }
    Some(value)
}

// A number in decimal, or with 0x in hexadecimal.
pub fn number_in(field: &[u8]) -> Option<u64>
    ensures { result ≡ number_in field.now }
{
    match field.strip_prefix(b"0x") {
        Some(rest) => digits(16, rest),
        None => digits(10, field),
    }
}

// The byte of two hexadecimal digits.
fn pair(high: u8, low: u8) -> Option<u8>
    ensures { result ≡ pair_in high low }
{
    let h = char::from(high).to_digit(16)?;
    let l = char::from(low).to_digit(16)?;
    Some((h * 16 + l) as u8)
}

// The bytes that a field's digits give, at the start of a lent run that they fit; their count.
pub fn bytes_in(field: &[u8], into: &mut [u8]) -> Option<usize>
    ensures { BytesRead field.now into.old result into.new }
{
    let count = field.len() / 2;
    if field.len() == 0 {
        return None;
    }
    if field.len() % 2 != 0 {
        return None;
    }
    if into.len() < count {
        return None;
    }
    for i in 0..count {
        into[i] = pair(field[i * 2], field[i * 2 + 1])?;
    }
    Some(count)
}

// Where the field that begins at `from` ends: the next space, or the line's end.
pub fn end_of(line: &[u8], from: usize) -> usize
    requires { from ≤ length line.now }
    ensures value { result ≡ end_of line.now from }
    ensures lower_bound { from ≤ result }
    ensures prefix_len { IsPrefixLen result line.now }
{
    find(line, from, line.len(), b' ')
}

// The line begins with #.
pub fn is_comment(line: &[u8]) -> bool
    ensures { result ≡ is_comment line.now }
{
    line.len() != 0 && line[0] == b'#'
}

// All bytes are spaces.
pub fn is_blank(line: &[u8]) -> bool
    ensures { result ≡ is_blank line.now }
{
    line.iter().all(|b| *b == b' ')
}

// The numbers of all fields of a part of a line, at the start of the list; their count. Each field begins with its
// space.
pub fn numbers_in(rest: &[u8], list: &mut [u64]) -> Option<usize> {
    let Some((_, fields)) = rest.split_first() else {
        return Some(0);
    };
    let mut count: usize = 0;
    for field in fields.split(|b| *b == b' ') {
        *list.get_mut(count)? = number_in(field)?;
        count += 1;
    }
    Some(count)
}
