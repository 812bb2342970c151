// Which beginnings rule a wish out (C.04.3 B.3) by their first halves: of two who meet, one is in S1 or in S1R, and the
// other is not; whoever is left over is in neither. So behind halves that keep the two apart no permutation is looked
// at. The pairs of a beginning need no look, as they are listed by rules that are narrowed to the wish.
ghost use Rattle.std.specs.Prelude.{◌≡◌, ℕ, List, false, nat_le, true};
ghost use Rattle.dutch_arrangements.specs.Prelude.{IsExchange, IsIn};
ghost use Rattle.dutch_choice.specs.RuledOut.{half_pairs, has_one_of, s1_bars, s1r_bars, halves_bar, rules_out};

use dutch_arrangements::{Exchange, Filling, Prefix};
use dutch_candidates::wish::Wish;

fn has_one_of(p: u16, q: u16, numbers: &[u16]) -> bool
    ensures { result ≡ has_one_of p q numbers.now }
{
    let (has_p, has_q) = (numbers.contains(&p), numbers.contains(&q));
    (has_p && !has_q) || (has_q && !has_p)
}

/// Of a moved-down player and a resident who meet, S1 has one alone.
fn s1_bars(p: u16, q: u16, prefix: &Prefix<'_>) -> bool
    ensures { result ≡ s1_bars prefix.now.filling p q prefix.now.lists }
{
    match prefix.filling() {
        Filling::ChoosingS1 => false,
        Filling::S2 | Filling::S2r => !has_one_of(p, q, prefix.s1()),
    }
}

/// Of two residents who meet, S1R has one alone.
fn s1r_bars(p: u16, q: u16, prefix: &Prefix<'_>) -> bool
    ensures { result ≡ s1r_bars prefix.now.filling p q prefix.now.lists }
{
    match prefix.filling() {
        Filling::ChoosingS1 | Filling::S2 => false,
        Filling::S2r => !has_one_of(p, q, prefix.s1r()),
    }
}

/// Two moved-down players meet in no candidate of their bracket.
fn halves_bar(mdps: usize, p: u16, q: u16, prefix: &Prefix<'_>) -> bool
    ensures { result ≡ halves_bar (nat_le p mdps) (nat_le q mdps) prefix.now.filling p q prefix.now.lists }
{
    match (usize::from(p) <= mdps, usize::from(q) <= mdps) {
        (true, true) => true,
        (true, false) | (false, true) => s1_bars(p, q, prefix),
        (false, false) => s1r_bars(p, q, prefix),
    }
}

/// Whoever is in a first half is in a pair.
fn half_pairs(p: u16, prefix: &Prefix<'_>) -> bool
    ensures { result ≡ half_pairs prefix.now.filling p prefix.now.lists }
{
    match prefix.filling() {
        Filling::ChoosingS1 => false,
        Filling::S2 => prefix.s1().contains(&p),
        Filling::S2r => prefix.s1r().contains(&p),
    }
}

pub(crate) fn is_ruled_out(wish: Wish, mdps: usize, prefix: &Prefix<'_>) -> bool
    ensures { result ≡ rules_out mdps wish prefix.now }
{
    match wish {
        Wish::Pair(p, q) => halves_bar(mdps, p, q, prefix),
        Wish::LeftOver(p) => half_pairs(p, prefix),
    }
}

/// Yes only if a number is in each S1R of a class: the sum of one without it is too great (C.04.3 D.2).
#[tactic(auto, using(crate::proofs::ExchangeClasses::always_in))]
fn is_always_in(number: u16, exchange: &Exchange<'_>) -> bool
    ensures { result ≡ true → (s1r : List ℕ) → IsExchange exchange.now s1r → IsIn number s1r }
{
    match exchange.others().split_first() {
        Some((first, _)) => {
            exchange.difference() < usize::from(first.saturating_sub(number))
                && exchange.original().contains(&number)
        }
        None => false,
    }
}

/// Yes only if a number is in no S1R of a class: the sum of one with it is too great.
#[tactic(auto, using(crate::proofs::ExchangeClasses::never_in))]
fn is_never_in(number: u16, exchange: &Exchange<'_>) -> bool
    ensures { result ≡ true → (s1r : List ℕ) → IsExchange exchange.now s1r → IsIn number s1r → ⊥ }
{
    match exchange.original().split_last() {
        Some((last, _)) => exchange.difference() < usize::from(number.saturating_sub(*last)),
        None => false,
    }
}

/// Yes only if each S1R of a class has both of two numbers, or none has one of them.
#[tactic(auto, using(crate::proofs::RuledOutLemmas::both_in, crate::proofs::RuledOutLemmas::both_out))]
pub(crate) fn keeps_together(p: u16, q: u16, exchange: &Exchange<'_>) -> bool
    ensures { result ≡ true → (s1r : List ℕ) → IsExchange exchange.now s1r → has_one_of p q s1r ≡ false }
{
    (is_always_in(p, exchange) && is_always_in(q, exchange))
        || (is_never_in(p, exchange) && is_never_in(q, exchange))
}
