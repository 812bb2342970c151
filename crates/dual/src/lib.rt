//! Weak duality: certificates that no matching is cheap, barriers and witnesses that tell whether players can be paired
//! out, specified by pairs over numbers.
//!
//! A `CertificateTable` holds a certificate: a potential for each player, and priced sets of players.
//! `CertificateTable::floor` checks it and makes a `Floor` of it: what every matching costs at least, beside what is
//! owed, and what each pair and each player left over adds that is known of it. Of a certificate that is not feasible
//! no floor is made; of one that gives away more than it gains there is one, and what is known may pay for it.
//! `CertificateTable::floor_for_any` makes one for matchings that leave any number over. `tells_incompletable` checks a
//! barrier (after Tutte and Berge), `least_left` says how many it leaves over, `tells_completable` checks a witness.
//! Whoever finds them need not be trusted.
//!
//! Where nearly the same certificate was checked `Before`, for nearly the same rule, `CertificateTable::floor_again` and
//! `CertificateTable::floor_for_any_again` make such floors too. They ask only about pairs of players of whom something
//! is another thing than before, and copy the other slacks. Where players of one class weigh the same,
//! `CertificateTable::floor_by_class` and `CertificateTable::floor_for_any_by_class` ask for one weight of each two kinds
//! of players alone.
//!
//! Nothing here knows chess: a `MatchingRule` of the caller says, by numbers, who may meet and who may be left over,
//! and at what cost; a certificate is checked for a `Pool` of players and their rule. Only a floor takes memory: four
//! bytes for each pair, and what pairs add, each number once. A `WideTable` is such a table, for callers too. A check
//! takes time with the square of the number of players, for a certificate times the number of its sets.
//!
//! To mind: certificates and costs are counted in `Wide`, natural numbers below 2^1024; a sum that does not fit is
//! none. Potentials below 0, and a multiplier of the number left over, are had by giving more.
#![tactic(auto)]

mod again;
mod barrier;
mod by_class;
mod check;
mod floor;
mod half;
mod marks;
mod quarter;
mod rule;
mod table;
mod wide;
mod wide_table;
mod witness;

pub use again::{Before, Remade};
pub use barrier::{least_left, tells_incompletable};
pub use floor::Floor;
pub use rule::{MatchingRule, Pool};
pub use table::{CertificateTable, MOST, MarkedSet};
pub use wide::Wide;
pub use wide_table::WideTable;
pub use witness::tells_completable;
