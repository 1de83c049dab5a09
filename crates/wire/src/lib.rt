// Big-endian fields of a byte slice.

#![tactic(auto)]

ghost use Rattle.std.specs.Prelude.{◌≡◌, ◌+◌, ◌≤◌, ◌<◌, length};
ghost use Rattle.std.proofs.lemmas.List.Edits.{sets};
ghost use Rattle.wire.specs.BigEndian.{byte_at, number_at, bytes_of};

// The byte at `at`, as a number.
fn byte(m: &[u8], at: usize) -> u64
    requires { at < length m.now }
    ensures { (result ≡ byte_at m.now at) × (result < 256) }
{
    m[at] as u64
}

// The number in the two bytes from `at` on.
pub fn get16(m: &[u8], at: usize) -> u64
    requires { at + 2 ≤ length m.now }
    ensures { (result ≡ number_at m.now at 2) × (result < 65536) }
{
    byte(m, at) * 256 + byte(m, at + 1)
}

// The number in the four bytes from `at` on, as one flat sum, which becomes one load.
pub fn get32(m: &[u8], at: usize) -> u64
    requires { at + 4 ≤ length m.now }
    ensures { (result ≡ number_at m.now at 4) × (result < 4294967296) }
{
    byte(m, at) * 16777216 + byte(m, at + 1) * 65536 + byte(m, at + 2) * 256 + byte(m, at + 3)
}

// The number in the eight bytes from `at` on, as two halves, which become one load; a flat sum of eight bytes does not.
pub fn get64(m: &[u8], at: usize) -> u64
    requires { at + 8 ≤ length m.now }
    ensures { result ≡ number_at m.now at 8 }
{
    let high = get32(m, at);
    let low = get32(m, at + 4);
    high * 4294967296 + low
}

// Writes the two bytes of `v` from `at` on, and no other byte.
pub fn put16(out: &mut [u8], at: usize, v: u16)
    requires { at + 2 ≤ length out.old }
    ensures { out.new ≡ sets out.old at (bytes_of 2 v) }
{
    out[at] = (v / 256 % 256) as u8;
    out[at + 1] = (v % 256) as u8;
}

// Writes the four bytes of `v` from `at` on, and no other byte.
pub fn put32(out: &mut [u8], at: usize, v: u32)
    requires { at + 4 ≤ length out.old }
    ensures { out.new ≡ sets out.old at (bytes_of 4 v) }
{
    out[at] = (v / 16777216 % 256) as u8;
    out[at + 1] = (v / 65536 % 256) as u8;
    out[at + 2] = (v / 256 % 256) as u8;
    out[at + 3] = (v % 256) as u8;
}

// Copies eight bytes to `at` and on, and no other byte: one load and one store, whatever is written beside them.
// `copy_from_slice` is slower here, by five instructions for an empty slice.
fn put_eight(out: &mut [u8], at: usize, bytes: [u8; 8])
    requires { at + 8 ≤ length out.old }
    ensures { out.new ≡ sets out.old at bytes }
{
    for i in 0..8 {
        out[at + i] = bytes[i];
    }
}

// Writes the eight bytes of `v` from `at` on, and no other byte. They are made by halves in an array, which becomes a register.
pub fn put64(out: &mut [u8], at: usize, v: u64)
    requires { at + 8 ≤ length out.old }
    ensures { out.new ≡ sets out.old at (bytes_of 8 v) }
{
    let mut bytes = [0u8; 8];
    put32(&mut bytes, 0, (v / 4294967296) as u32);
    put32(&mut bytes, 4, (v % 4294967296) as u32);
    put_eight(out, at, bytes);
}
