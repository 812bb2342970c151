// Bits by place in words, specified by the test of each. They say which numbers of a bracket have a place in a
// beginning.
ghost use Rattle.std.specs.Prelude.{◌≡◌, ◌*◌, ◌<◌, ℕ, true, length};
ghost use Rattle.dutch_bracket.specs.BitTables.{has_bit};

/// The bits of a word.
pub const WORD: usize = 64;

/// Yes if the bit at the place is set; behind the last word none is.
#[tactic(auto, unfolding(dutch_bracket::specs::BitTables::has_bit))]
pub fn has_bit(words: &[u64], place: usize) -> bool
    ensures { result ≡ has_bit words.now place }
{
    match words.get(place / WORD) {
        Some(word) => (word >> (place % WORD)) & 1 == 1,
        None => false,
    }
}

/// Sets the bit at a place, unless that is behind the last word.
pub fn set_bit(words: &mut [u64], place: usize)
    ensures set { place < 64 * length words.old → has_bit words.new place ≡ true }
    ensures others { (i : ℕ) → ¬ (i ≡ place) → has_bit words.new i ≡ has_bit words.old i }
    ensures room { length words.new ≡ length words.old }
{
    if place / WORD < words.len() {
        words[place / WORD] |= 1u64 << (place % WORD);
    }
}
