// Searching forward in bytes.
ghost use Rattle.words.specs.Bytes.{NextAt, NextOther};
ghost use Rattle.std.specs.Prelude.{◌≡◌, ℕ, ◌<◌, ◌≤◌, max, length, slice_index, true, false};
ghost use Rattle.std.specs.Fn.{FnReturnsAt};

/// The place of the next `byte` at or after `from`, or the length; `from` itself past the end.
pub fn next_at(bytes: &[u8], byte: u8, from: usize) -> usize
    ensures { NextAt bytes.now byte from result }
{
    next(bytes, from, |b| *b == byte)
}

/// The place of the next byte other than `byte` at or after `from`, or the length; `from` itself past the end.
pub fn next_other(bytes: &[u8], byte: u8, from: usize) -> usize
    ensures { NextOther bytes.now byte from result }
{
    next(bytes, from, |b| *b != byte)
}

/// The place of the next byte at which `stop` holds, at or after `from`, or the length; `from` itself past the end.
fn next<P: Fn(&u8) -> bool>(bytes: &[u8], from: usize, stop: P) -> usize
    requires { P.IsAlwaysCallable stop }
    ensures after { from ≤ result }
    ensures within { result ≤ max from (length bytes.now) }
    ensures before { (k : ℕ) → from ≤ k → k < result → FnReturnsAt P.Fn stop (slice_index bytes.now k) false }
    ensures there { result < length bytes.now → FnReturnsAt P.Fn stop (slice_index bytes.now result) true }
{
    let Some(rest) = bytes.get(from..) else {
        return from;
    };
    from + rest.iter().position(stop).unwrap_or(rest.len())
}
