// The numbers and bytes that a line's fields give. `rest` is the line from the end of its name on: each field begins
// with its space.
use lines::fields;

// The numbers of a line that has so many, and no other field.
pub fn exactly<const N: usize>(rest: &[u8]) -> Option<[u64; N]> {
    let mut numbers = [0u64; N];
    if fields::numbers_in(rest, &mut numbers)? != N {
        return None;
    }
    Some(numbers)
}

// So many numbers, and how many bytes come after them, which are put at the start of a run.
pub fn numbers_and_bytes<const N: usize>(
    rest: &[u8],
    bytes: &mut [u8],
) -> Option<([u64; N], usize)> {
    let mut numbers = [0u64; N];
    let mut at: usize = 0;
    for i in 0..N {
        if rest.len() <= at {
            return None;
        }
        let end = fields::end_of(rest, at + 1);
        numbers[i] = fields::number_in(&rest[at + 1..end])?;
        at = end;
    }
    if rest.len() <= at {
        return Some((numbers, 0));
    }
    let count = fields::bytes_in(&rest[at + 1..], bytes)?;
    Some((numbers, count))
}
