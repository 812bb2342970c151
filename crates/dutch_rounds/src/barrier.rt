// Why the players of a round cannot be paired out (C.04.3 A.9): the blocking players, and the groups behind them.
//
// Whoever finds the labels is not trusted: they are handed out only if the check of a barrier confirms them.
ghost use Rattle.std.specs.Prelude.{◌≡◌, ◌<◌, ◌==◌, length, IfOk, IfSome};
ghost use Rattle.std.specs.List.{list_any};
ghost use Rattle.dual.specs.Prelude.{group_size, is_of_odd_group};
ghost use Rattle.dutch_rounds.specs.Barriers.{Blocks, has_blockers, lacks_bye, label, opens_odd_group};
ghost use Rattle.dutch_rounds.specs.Round.{everybody};
ghost use Rattle.dutch_bracket.specs.Prelude.{seats_may_be_left};

use crate::walk::everybody;
use dual::tells_incompletable;
use dutch_arrangements::{Rule, numbered_from};
use dutch_bracket::fault::PairFault;
use dutch_completion::matched::by_seat;
use dutch_completion::meetings::Meetings;
use dutch_completion::seats::seats;
use dutch_player::Field;
use matching::{Fault, Found, greatest};
use std::alloc::Global;
use std::marker::Model;

/// A barrier between the players of a round: who blocks, and of which group each other player is.
#[derive(Drop)]
pub struct Barrier {
    // by seat: 0 for a blocking player, else the number of the group
    labels: Vec<u16>,
    most: u16,
}

impl Model for Barrier {
    ghost use Rattle.dutch_rounds.specs.Barriers.{Barrier};

    ghost Value = { Barrier };

    ghost view = { λ b. record { labels = b.labels.items; most = b.most } };
}

impl Barrier {
    /// The label of a seat: 0 if its player blocks, else the number of its group, from 1.
    pub fn label(&self, seat: u16) -> u16
        ensures { result ≡ label self.now seat }
    {
        let seat = usize::from(seat);
        if seat < self.labels.len() {
            self.labels[seat]
        } else {
            0
        }
    }

    /// Yes if some player blocks. If nobody does, the groups alone block the round.
    pub fn has_blockers(&self, field: &Field) -> bool
        ensures { result ≡ has_blockers field.now self.now }
    {
        let all = everybody(field);
        all.iter().any(|seat| self.label(*seat) == 0)
    }

    fn count(&self, players: &[u16], group: u16) -> usize
        ensures { result ≡ group_size players.now (label self.now) group }
    {
        players
            .iter()
            .filter(|seat| self.label(**seat) == group)
            .count()
    }

    fn is_of_odd_group(&self, players: &[u16], seat: u16) -> bool
        ensures { result ≡ is_of_odd_group players.now (label self.now) seat }
    {
        let group = self.label(seat);
        group != 0 && self.count(players, group) % 2 == 1
    }

    fn has_group(&self, players: &[u16], group: u16) -> bool
        ensures { result ≡ list_any (λ seat. label self.now seat == group) players.now }
    {
        players.iter().any(|seat| self.label(*seat) == group)
    }

    /// Yes if a seat is the first, by rank, of a group of an odd number of players: so each such group is told once.
    pub fn opens_odd_group(&self, field: &Field, seat: u16) -> bool
        requires { seat < length field.now.seats }
        ensures { result ≡ opens_odd_group field.now self.now seat }
    {
        let count = field.len();
        let (all, higher) = (numbered_from(0, count), numbered_from(0, usize::from(seat)));
        self.is_of_odd_group(&all, seat) && !self.has_group(&higher, self.label(seat))
    }
}

/// The labels of a matching as a barrier, if they are one that blocks the round.
fn checked_barrier(
    alloc: Global,
    field: &Field,
    players: &[u16],
    found: &Found,
) -> Result<Option<Barrier>, PairFault>
    requires { players.now ≡ everybody field.now }
    ensures { IfOk result (λ told. IfSome told (Blocks field.now)) }
{
    let labels = by_seat(alloc, field, players, &found.labels)?;
    let most = found.most;
    if tells_incompletable(&labels, most, &seats(field), players) {
        return Ok(Some(Barrier { labels, most }));
    }
    Ok(None)
}

/// A barrier that blocks the round of a field: it shows why no list of pairs of present players who may meet leaves out
/// at most one, who may have the bye (A.9). It is looked for by a greatest matching of so many steps at most. None says
/// that none was found; so it is wherever the players can be paired out.
///
/// # Errors
/// Memory was refused.
pub fn barrier_of(alloc: Global, field: &Field, steps: u64) -> Result<Option<Barrier>, PairFault>
    ensures { IfOk result (λ told. IfSome told (Blocks field.now)) }
{
    let all = everybody(field);
    let mut left = steps;
    match greatest(alloc, &Meetings::new(field, &all), &mut left) {
        Ok(found) => checked_barrier(alloc, field, &all, &found),
        Err(Fault::Stopped) => Ok(None),
        Err(Fault::OutOfMemory) => Err(PairFault::OutOfMemory),
    }
}

fn may_be_left(field: &Field, seat: u16) -> bool
    ensures { result ≡ seats_may_be_left field.now seat }
{
    seats(field).last_ok(seat)
}

fn may_leave_one(field: &Field, players: &[u16]) -> bool
    ensures { result ≡ list_any (seats_may_be_left field.now) players.now }
{
    players.iter().any(|seat| may_be_left(field, *seat))
}

/// Yes if the present players are an odd number and nobody of them may have the bye (C.2).
pub fn lacks_bye(field: &Field) -> bool
    ensures { result ≡ lacks_bye field.now }
{
    field.len() % 2 == 1 && !may_leave_one(field, &everybody(field))
}
