// How far a call may go, and what it answers if it is stopped.
ghost use Rattle.std.specs.Prelude.{◌≤◌};

/// Steps that a run of calls may make, and those that it has made.
#[derive(Clone, Copy)]
pub struct Budget {
    /// The most steps that may be made.
    pub limit: u64,
    /// The steps made so far: no more than the limit.
    pub used: u64,
    pub ghost within: { used ≤ limit },
}

/// The answer of a call that looks for the next of something.
#[derive(Clone, Copy)]
pub enum Step<T> {
    /// The next one.
    Found(T),
    /// There is none left.
    End,
    /// The budget's limit was reached first; with a higher limit the same call goes on.
    Undecided,
}

/// The budget's limit was reached first: with a higher one the same call goes on.
#[derive(Clone, Copy)]
pub struct Stopped;

/// Yes or no, mostly whether there was a next one, unless the limit was reached first.
pub type Drawn = Result<bool, Stopped>;

/// How far a search came that stands still at each beginning.
#[derive(Clone, Copy)]
pub enum Progress {
    /// It stands at a beginning. A caller who knows that all that begins so is pruned may leave it.
    Beginning,
    /// It has found the next one.
    Whole,
    /// There is none left.
    Over,
}

impl<T: Drop> Step<T> {
    ghost use Rattle.std.specs.Prelude.{◌≡◌, Ok, Some, None};
    ghost use Rattle.std.specs.Result.{IsErr};
    ghost use Rattle.dutch_sequence.specs.Steps.{MatchStep};

    /// What was found, or none at the end. If the limit was reached first, `?` passes that on.
    pub fn found(self) -> Result<Option<T>, Stopped>
        ensures { MatchStep self (λ x. result ≡ Ok (Some x)) (result ≡ Ok None) (IsErr result) }
    {
        match self {
            Step::Found(found) => Ok(Some(found)),
            Step::End => Ok(None),
            Step::Undecided => Err(Stopped),
        }
    }
}
