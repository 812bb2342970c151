// The numbers of the search: the steps that one way has before another one is asked, how many players a bracket may
// have for a way, and how much is kept.
//
// None of them changes what is chosen, and no clause names one: only steps change, and so what is undecided at a limit.
// The prover refuses a value that would not be safe. What was measured stands in brackets, and `bench/RESULTS.md` says
// how; where there is nothing in brackets, no measurement was kept. There it also stands how many reports are decided
// with all of them.
//
// Five stand elsewhere. `LOOKS_IN_A_STEP` is in `found.rt` of `cheapest`, which does not see this crate (a question of a
// matching takes a tenth of a microsecond, and a step of a walk from a fifth of one to three). `MOST` is in
// `remembered.rt` of `dutch_passes`: clauses say that 64 values of C.7 are kept. `TOGETHER` and `FEW` of the first passes
// are in `passes.rt` of that crate. `MOST_STEPS` of a turn is in `guide.rt` of `dutch_search`.

/// Steps for each player: of a search for completion, and of a listing for a shape, before a matching is asked. They
/// decide nearly all of both. With fewer, a matching is made where the listing would soon end; with more, a listing
/// that does not end soon takes more in vain.
pub const FIRST_STEPS: u64 = 64;

/// A divisor of the cube of the players: a matching of least cost takes at least that part of it in looks, and the
/// listing before it gets no fewer steps. If it is too great, a matching takes far more than the listing before it; if
/// it is too small, the listing takes far more. (Without such a part, reports of 1,024 players took up to nine times as
/// long; with an eighth, four reports fewer were decided in 1,000,000 steps.)
pub const CUBE_DIVISOR: u64 = 1024;

/// Steps of the first passes, without weights: so many for each player, and so many for each player with each. They
/// decide most brackets. With fewer, more brackets are weighed; with more, a hard one is weighed later. (Where nothing is
/// wished, they are asked for few players at once. When they were asked for whole brackets, one for each player with each
/// decided two more of 237 hard reports in 1,000,000 steps, but one of 400 players took ten times as long.)
const PASS_STEPS: u64 = 128;

const PASS_STEPS_WITH_EACH: u64 = 2;

/// The most players of a bracket and the next scoregroup whose pairs are weighed together (C.7); the bracket's own are
/// weighed always. With fewer, C.7 is known by counts alone in more brackets; with more, matchings take more steps.
/// (With 1,024, one report of 1,024 players took eleven times as long.)
pub const MOST_WEIGHED: usize = 512;

/// The most players that a matching for a floor goes over if it takes in all lower ones (C.4). With fewer, floors of
/// more penultimate brackets do not know of C.4; with more, floors take more steps there.
pub const MOST_REACHED: usize = 400;

/// Floors by weight that are kept, at least 3: the first, one that counts an order (D.2), and another. With fewer, one
/// is forgotten that would rule more out; with more, questions take longer, as each floor is asked at each beginning.
pub const FLOORS_KEPT: usize = 4;

/// The most bits of a weight, of the 1,024 of a number. They leave room for the sum of weights over all players, for
/// twice that sum, and for what it costs to be left over. With fewer, weights leave out D.2 and C.16 to C.19 more
/// often; with more, a sum may not fit, and then there is no floor. (After 23 to 43 rounds 56 players have differences
/// of so many sizes that some of their weights take more than 738 bits.)
const MOST_BITS: usize = 994;

/// The most bits of a weight in a bracket of more than `MANY` players: there questions take longer with each digit
/// more. (With `MOST_BITS`, one of the longest questions of `explain` was undecided.)
const MOST_BITS_OF_MANY: usize = 482;

/// The most players of a bracket whose weights may have `MOST_BITS` bits.
const MANY: usize = 128;

/// Times what is more than any weight: so much it costs to leave over a player who is in a pair in all arrangements. If
/// it is too small, a matching may do so, and its floor says less; if it is too great, a sum may not fit, and then
/// there is no floor.
pub const NEVER_LEFT: u32 = 2048;

/// How many steps passes make before the pairs of a bracket of so many players are weighed.
pub fn first_pass_steps(players: usize) -> u64 {
    let players = players as u64;
    players
        .saturating_mul(PASS_STEPS_WITH_EACH)
        .saturating_add(PASS_STEPS)
        .saturating_mul(players)
}

/// The most bits of a weight in a bracket of so many players.
pub fn most_bits(players: usize) -> usize {
    if players <= MANY {
        MOST_BITS
    } else {
        MOST_BITS_OF_MANY
    }
}
