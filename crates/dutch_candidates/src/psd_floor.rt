// The PSD that S1 gives in a bracket whose residents have one score (C.04.3 C.6).
ghost use Rattle.std.specs.Prelude.{◌≡◌, ◌+◌, ◌-◌, ◌≤◌, length, map};
ghost use Rattle.arrayvec.specs.ArrayVec.{array_vec_len};
ghost use Rattle.dutch_sequence.specs.declared.numbers.TheConstants.{LIMIT};
ghost use Rattle.dutch_arrangements.specs.Prelude.{left_of, remainder_pairs, numbers_from};
ghost use Rattle.dutch_bracket.specs.Seated.{seat_of, score_at};
ghost use Rattle.dutch_bracket.specs.Quality.{placed_all};
ghost use Rattle.dutch_bracket.specs.ColourFloors.{residents_down};
ghost use Rattle.dutch_bracket.specs.PsdFloors.{is_uniform, psd_with};

use dutch_arrangements::{Numbers, Shape};
use dutch_bracket::differences::{put, put_times};
use dutch_bracket::reached::ByNumber;

/// Yes if every S1 of the shape leaves moved-down players with the same scores.
pub fn is_uniform(rule: ByNumber<'_>, shape: Shape) -> bool
    ensures { result ≡ is_uniform rule.entry.field.now rule.entry.reached.now shape }
{
    let mdps = rule.reached.mdps();
    if shape.mdps == 0 || shape.mdps == mdps {
        return true;
    }
    rule.score(1) == rule.score(mdps as u16)
}

/// A shape of a bracket in which all residents have one score, in half points.
#[derive(Clone, Copy)]
pub struct FlatShape<'a> {
    pub rule: ByNumber<'a>,
    pub shape: Shape,
    pub score: u16,
}

impl<'a> FlatShape<'a> {
    /// Puts the differences of moved-down players who are paired with residents.
    fn put_paired(&self, s1: &[u16], psd: &mut Numbers)
        requires { array_vec_len psd.old + length s1.now ≤ LIMIT }
        ensures items { psd.new.items ≡ placed_all psd.old.items
            (map (λ i. score_at self.now.rule.field.now (seat_of self.now.rule.reached.now.seats i) - self.now.score)
            s1.now) }
        ensures len { array_vec_len psd.new ≡ array_vec_len psd.old + length s1.now }
    {
        for number in s1 {
            put(psd, self.rule.score(*number).saturating_sub(self.score));
        }
    }

    /// Puts the differences of the moved-down players who are not in S1, and so are not paired.
    #[tactic(auto, using(dutch_bracket::proofs::ArrangementParts::next_number))]
    fn put_limbo(&self, s1: &[u16], psd: &mut Numbers)
        requires { array_vec_len psd.old + self.now.rule.reached.now.mdps ≤ LIMIT }
        ensures items { psd.new.items ≡ placed_all psd.old.items
            (map (λ i. (score_at self.now.rule.field.now (seat_of self.now.rule.reached.now.seats i)
            - self.now.score) + 2)
            (left_of (numbers_from 1 self.now.rule.reached.now.mdps) s1.now)) }
        ensures len { array_vec_len psd.new ≤ array_vec_len psd.old + self.now.rule.reached.now.mdps }
    {
        for above in 0..self.rule.reached.mdps() {
            let number = above as u16 + 1;
            if !s1.contains(&number) {
                put(psd, self.rule.score(number).saturating_sub(self.score) + 2);
            }
        }
    }

    /// Fills a list with the PSD of each arrangement with an S1.
    #[tactic(auto, using(dutch_bracket::proofs::Places::placed_all_append), unfolding(dutch_bracket::specs::PsdFloors::psd_with))]
    pub fn fill_psd(&self, s1: &[u16], psd: &mut Numbers)
        requires { (length s1.now + self.now.rule.reached.now.mdps)
            + (remainder_pairs self.now.shape + residents_down self.now.rule.reached.now self.now.shape) ≤ LIMIT }
        ensures { psd.new.items
            ≡ psd_with self.now.rule.field.now self.now.rule.reached.now self.now.shape self.now.score s1.now }
    {
        psd.clear();
        self.put_paired(s1, psd);
        self.put_limbo(s1, psd);
        put_times(0, self.shape.pairs.saturating_sub(self.shape.mdps), psd);
        put_times(2, self.rule.residents_down(self.shape), psd);
    }
}
