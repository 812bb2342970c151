// What the carried lines of a report say beside total and colour: who is absent, the first line of each kind that is
// not supported, and whether there is a line `XXP`. It is noted while they are read, so no question walks the text
// again.
use crate::start_ranks::StartRanks;

/// Who is absent by a line `XXZ`, the first line of each kind that is not supported, and whether there is a line `XXP`.
#[derive(Drop)]
pub struct Notes {
    // a line may name the start rank of nobody, or of a player whose line comes later
    pub(crate) absent: StartRanks,
    // numbers of lines, from 1
    pub(crate) xxa: Option<usize>,
    pub(crate) xxs: Option<usize>,
    pub(crate) rank: Option<usize>,
    // whether some line `XXP` names players together
    pub together: bool,
}
