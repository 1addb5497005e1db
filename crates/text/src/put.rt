// Lent buffers, written from a place on.
ghost use Rattle.std.specs.Prelude.{ℕ, ◌+◌, ◌≤◌, map, length};
ghost use Rattle.text.specs.Text.{Computes, Put};

// Writes what `of` makes of each byte, from place `at` on; returns the next place. Buffer and place are not one
// struct: who calls goes on at the place that the call before gave back.
pub(crate) fn put_mapped<F: Fn(u8) -> u8>(
    bytes: &[u8],
    of: F,
    buffer: &mut [u8],
    at: usize,
) -> usize
    requires callable { F.IsAlwaysCallable of }
    requires room { at + length bytes.now ≤ length buffer.old }
    ensures { (f : ℕ → ℕ) → Computes (F.post of) f → Put buffer.old at (map f bytes.now) result buffer.new }
{
    // By index: of what is written through a `zip` a proof learns nothing.
    for (i, byte) in bytes.iter().enumerate() {
        buffer[at + i] = of(*byte);
    }
    at + bytes.len()
}
