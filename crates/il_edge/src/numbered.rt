ghost use Rattle.std.specs.Prelude.{◌≡◌, ◌↔◌, IsTrue, length, take, min};
ghost use Rattle.il_edge.specs.Memory.{FailsNext};

/// Whether the next call fails, after `calls` calls: whether its number, counted from 1, is in `fails`.
pub fn fails_next(fails: &[usize], calls: usize) -> bool
    ensures { IsTrue result ↔ FailsNext fails.now calls }
{
    match calls.checked_add(1) {
        Some(number) => fails.contains(&number),
        None => false,
    }
}

/// Copies as many of `bytes` as fit, at most `most`, to the front of `buf`, and answers how many.
pub fn copy_front(bytes: &[u8], most: usize, buf: &mut [u8]) -> usize
    ensures count { result ≡ min most (min (length buf.old) (length bytes.now)) }
    ensures front { take result buf.new ≡ take result bytes.now }
    ensures whole { result ≡ length (take result buf.new) }
{
    let count = most.min(buf.len().min(bytes.len()));
    buf[..count].copy_from_slice(&bytes[..count]);
    count
}
