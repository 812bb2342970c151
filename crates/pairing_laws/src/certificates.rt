// Laws of the definitions alone: what certificates, barriers and witnesses tell.
ghost use Rattle.std.specs.Prelude.{◌≡◌, ◌+◌, ◌*◌, ◌≤◌, ℕ, Bool, true, List, Option, All, length, sum_by, count_by};
ghost use Rattle.dual.specs.Matchings.{Costs, IsMatching, IsPartOf, IsWitness, Covers, Completable, cost, beside_times};
ghost use Rattle.dual.specs.Barriers.{IsBarrier, IsTooNarrow, blockers, odd_groups, is_of_odd_group};
ghost use Rattle.dual.specs.Duals.{Certificate, IsFeasible, gains, losses, slack, slack_left};

/// Weak duality: no matching costs less than the value of a feasible certificate, which is what its potentials gain
/// less its losses.
#[tactic(auto, using(dual::proofs::WeakDuality::bounded))]
pub fn a_certificate_bounds_every_matching()
    ensures { (costs : Costs) (players : List ℕ) (certificate : Certificate) (pairs : List (ℕ × ℕ)) (left : List ℕ)
        → IsFeasible costs players certificate → IsMatching costs players pairs left
        → gains certificate players ≤ cost costs pairs left + losses certificate players (length pairs) (length left) }
{}

/// Where some of the pairs and some of those left over are known, their slack comes on top, each once.
#[tactic(auto, using(dual::proofs::WeakDuality::bounded_beside))]
pub fn known_pairs_cost_their_slack()
    ensures { (costs : Costs) (players : List ℕ) (certificate : Certificate) (pairs : List (ℕ × ℕ)) (left : List ℕ)
        → IsFeasible costs players certificate → IsMatching costs players pairs left
        → (known : List (ℕ × ℕ)) (known_left : List ℕ) → IsPartOf known pairs → IsPartOf known_left left
        → gains certificate players + (sum_by (slack costs certificate) known + sum_by
        (slack_left costs certificate) known_left)
        ≤ cost costs pairs left + losses certificate players (length pairs) (length left) }
{}

/// Pairs that cover players, in the form that completion is stated in, are a matching with those whom they leave out.
#[tactic(auto, using(crate::proofs::Covered::covering_is_matching))]
pub fn a_covering_is_a_matching()
    ensures { (costs : Costs) (players : List ℕ) (pairs : List (ℕ × ℕ)) (out : List ℕ)
        → Covers costs.meets players pairs out
        → All (λ v. costs.may_be_left v ≡ true) out → IsMatching costs players pairs out }
{}

/// A barrier: of each odd group somebody meets a blocker, or is left out.
#[tactic(auto, using(dual::proofs::Barriers::left_out))]
pub fn odd_groups_are_served()
    ensures { (meets : ℕ → ℕ → Bool) (players : List ℕ) (label : ℕ → ℕ) (k : ℕ) → IsBarrier meets players label k
        → (pairs : List (ℕ × ℕ)) (out : List ℕ) → Covers meets players pairs out
        → odd_groups players label k ≤ blockers players label + count_by (is_of_odd_group players label) out }
{}

/// So players behind a barrier that is too narrow are not completable.
pub fn players_behind_a_barrier_are_not_completable()
    ensures { (meets : ℕ → ℕ → Bool) (may_be_left : ℕ → Bool) (players : List ℕ) (label : ℕ → ℕ) (k : ℕ)
        → IsTooNarrow meets may_be_left players label k → ¬ Completable meets may_be_left players }
{}

/// Players for whom there is a witness are completable.
pub fn players_with_a_witness_are_completable()
    ensures { (meets : ℕ → ℕ → Bool) (may_be_left : ℕ → Bool) (players : List ℕ) (pairs : List (ℕ × ℕ))
        (left : Option ℕ)
        → IsWitness meets may_be_left players pairs left → Completable meets may_be_left players }
{}

/// Two costs at once come to what the first does and so many times the second: so a certificate for both, less a first
/// cost that is known, bounds the second.
#[tactic(auto, using(crate::proofs::Covered::added))]
pub fn costs_beside_others_are_added()
    ensures { (costs : Costs) (factor : ℕ) (more : Costs) (pairs : List (ℕ × ℕ)) (left : List ℕ)
        → cost (beside_times costs factor more) pairs left ≡ cost costs pairs left + factor * cost more pairs left }
{}
