// The first place of a byte in a part of a run.
ghost use Rattle.std.specs.Prelude.{◌≡◌, ◌+◌, ◌≤◌, length};
ghost use Rattle.lines.specs.Search.{index_of, slice};

// The first index from `from` on and below `end` at which the byte stands, or `end` where it does not.
pub(crate) fn find(run: &[u8], from: usize, end: usize, b: u8) -> usize
    requires from_le_end { from ≤ end }
    requires end_le_length { end ≤ length run.now }
    ensures value { result ≡ from + index_of b (slice from end run.now) }
    ensures lower_bound { from ≤ result }
    ensures upper_bound { result ≤ end }
{
    for i in from..end {
        if run[i] == b {
            return i;
        }
    }
    end
}
