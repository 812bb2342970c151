// The descent of two ascending halves that both searches of sets share: which numbers come next at a place.
ghost use Rattle.std.specs.Prelude.{◌≡◌, ◌+◌, ◌<◌, ◌≤◌, ◌^◌, ℕ, length};
ghost use Rattle.dutch_sequence.specs.Halves.{half_start, half_stop};

/// The first number to try after a path: 0 at the beginning of a half, else one more than the last.
#[tactic(auto, unfolding(crate::specs::Halves::half_start))]
pub fn first_of_half(half: usize, path: &[u16]) -> usize
    ensures { result ≡ half_start half path.now }
{
    match path.last() {
        Some(last) if path.len() != half => *last as usize + 1,
        _ => 0,
    }
}

/// The end of the numbers to try after a path: it leaves room for the rest of its half.
#[tactic(auto, unfolding(crate::specs::Halves::half_stop))]
pub fn end_of_half(half: usize, first_count: usize, second_count: usize, path: &[u16]) -> usize
    requires few { half < 2 ^ 32 }
    requires opened { length path.now < half + half }
    ensures { result ≡ half_stop half first_count second_count path.now }
{
    if path.len() < half {
        first_count.saturating_sub(half - 1 - path.len())
    } else {
        second_count.saturating_sub(half + half - 1 - path.len())
    }
}
