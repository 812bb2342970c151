// Steps that are made at once, for so many questions, and one by one.
ghost use Rattle.std.specs.Prelude.{◌≡◌, ◌+◌, ◌<◌, min};
ghost use Rattle.std.specs.Result.{MatchResult};
ghost use Rattle.dutch_arrangements.specs.Prelude.{Spends};

use dutch_arrangements::{Budget, Stopped};

/// Makes one step. It is stopped only where none is left.
pub fn step(budget: &mut Budget) -> Result<(), Stopped>
    ensures counts { MatchResult result (λ _. budget.new.used ≡ budget.old.used + 1)
        (λ _. budget.old.used ≡ budget.old.limit) }
    ensures stopped { MatchResult result (λ _. Unit {0}) (λ _. budget.new.used ≡ budget.new.limit) }
    ensures spends { Spends budget.old budget.new }
{
    if budget.used == budget.limit {
        return Err(Stopped);
    }
    budget.used += 1;
    Ok(())
}

/// Makes steps, exactly as many as are asked for. If the budget's limit would be passed, all that are left are made.
pub fn spend(steps: u64, budget: &mut Budget) -> Result<(), Stopped>
    ensures counts { MatchResult result (λ _. budget.new.used ≡ budget.old.used + steps)
        (λ _. budget.old.limit < budget.old.used + steps) }
    ensures stopped { MatchResult result (λ _. Unit {0}) (λ _. budget.new.used ≡ budget.new.limit) }
    ensures spends { Spends budget.old budget.new }
{
    if budget.limit - budget.used < steps {
        budget.used = budget.limit;
        return Err(Stopped);
    }
    budget.used += steps;
    Ok(())
}

/// A budget of so many steps at most, of those that are left.
pub fn at_most(steps: u64, budget: &Budget) -> Budget
    ensures used { result.used ≡ budget.now.used }
    ensures limit { result.limit ≡ min (budget.now.used + steps) budget.now.limit }
{
    Budget {
        limit: budget.used.saturating_add(steps).min(budget.limit),
        used: budget.used,
    }
}
