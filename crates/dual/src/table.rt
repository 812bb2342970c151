// A certificate as tables by the players' numbers, what it gains and what it loses.
ghost use Rattle.std.specs.Prelude.{◌≡◌, ◌+◌, ◌*◌, ◌^◌, ◌<◌, ◌≤◌, SomeIff, length, count_by, if◌then◌else◌};
ghost use Rattle.dual.specs.Duals.{most_inside, gains, losses, pairs_of};
ghost use Rattle.dual.specs.Tables.{has_mark, toll_of, potential_in, certificate_in, most_toll, most_tolls};

use crate::wide::Wide;

/// Of more players than so many no floor is made.
pub const MOST: usize = 65536;

/// A set of players by a mark for each, and the price of each pair inside it.
#[derive(Drop)]
pub struct MarkedSet {
    pub marks: Vec<bool>,
    pub price: Wide,
}

/// A potential for each player, what a pair and a player left over are given on top of their cost, and priced sets.
#[derive(Drop)]
pub struct CertificateTable {
    pub potentials: Vec<Wide>,
    pub given: Wide,
    pub given_left: Wide,
    pub sets: Vec<MarkedSet>,
}

impl MarkedSet {
    pub(crate) fn has(&self, v: u16) -> bool
        ensures { result ≡ has_mark self.now v }
    {
        let v = usize::from(v);
        v < self.marks.len() && self.marks[v]
    }

    // What a player pays for the set beside another who is inside.
    pub(crate) fn toll(&self, v: u16) -> Wide
        ensures { result ≡ toll_of v self.now }
    {
        if self.has(v) {
            self.price
        } else {
            Wide::zero()
        }
    }

    fn size(&self, players: &[u16]) -> usize
        ensures value { result ≡ count_by (has_mark self.now) players.now }
        ensures few { result ≤ length players.now }
    {
        players.iter().filter(|v| self.has(**v)).count()
    }

    fn most_toll(&self, players: &[u16]) -> Option<Wide>
        requires { length players.now ≤ MOST }
        ensures { SomeIff result (most_toll players.now self.now < 2 ^ 1024) (most_toll players.now self.now) }
    {
        self.price.times((self.size(players) / 2) as u32)
    }
}

impl CertificateTable {
    pub(crate) fn potential(&self, v: u16) -> Wide
        ensures { result ≡ potential_in self.now v }
    {
        let v = usize::from(v);
        if v < self.potentials.len() {
            self.potentials[v]
        } else {
            Wide::zero()
        }
    }

    // What the potentials come to.
    pub(crate) fn gains(&self, players: &[u16]) -> Option<Wide>
        ensures { SomeIff result (gains (certificate_in self.now) players.now < 2 ^ 1024)
            (gains (certificate_in self.now) players.now) }
    {
        let mut sum = Wide::zero();
        for v in players {
            sum = sum.plus(self.potential(*v))?;
        }
        Some(sum)
    }

    // What the tolls come to at most.
    #[tactic(auto, using(crate::proofs::FloorLemmas::sum_next))]
    fn most_tolls(&self, players: &[u16]) -> Option<Wide>
        requires { length players.now ≤ MOST }
        ensures { SomeIff result (most_tolls self.now players.now < 2 ^ 1024) (most_tolls self.now players.now) }
    {
        let mut sum = Wide::zero();
        for set in &self.sets {
            sum = sum.plus(set.most_toll(players)?)?;
        }
        Some(sum)
    }

    // What is given away, and what the tolls come to at most.
    pub(crate) fn losses(&self, players: &[u16], left: usize) -> Option<Wide>
        requires few { length players.now ≤ MOST }
        requires some { left ≤ length players.now }
        ensures { let lost = losses (certificate_in self.now) players.now
            (pairs_of players.now left) left in SomeIff result (lost < 2 ^ 1024) lost }
    {
        let pairs = (players.len() - left) / 2;
        let given = self.given.times(pairs as u32)?;
        let given_left = self.given_left.times(left as u32)?;
        given.plus(given_left)?.plus(self.most_tolls(players)?)
    }
}
