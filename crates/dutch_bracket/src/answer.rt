// What a search for pairs answers, article A.9.
ghost use Rattle.std.specs.Prelude.{◌≡◌, Ok, true, false};
ghost use Rattle.std.specs.Result.{IsErr};
ghost use Rattle.dutch_bracket.specs.Completion.{MatchAnswer};

use dutch_arrangements::Stopped;

/// `Yes` if players are completable, `No` if they are not.
#[derive(Debug, Clone, Copy, PartialEq, Eq)]
pub enum Answer {
    Yes,
    No,
    /// The budget's limit was reached first.
    Undecided,
}

impl Answer {
    /// The answer as a `bool`. If the limit was reached first, `?` passes that on.
    pub fn decided(self) -> Result<bool, Stopped>
        ensures { MatchAnswer self (result ≡ Ok true) (result ≡ Ok false) (IsErr result) }
    {
        match self {
            Answer::Yes => Ok(true),
            Answer::No => Ok(false),
            Answer::Undecided => Err(Stopped),
        }
    }
}
