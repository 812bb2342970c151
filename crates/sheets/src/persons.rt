// What is shown of a player beside games and points.
ghost use Rattle.std.specs.Prelude.{◌≡◌, IfOk};
ghost use Rattle.std.specs.Char.{is_ascii_digit};
ghost use Rattle.std.specs.List.{list_all};
ghost use Rattle.sheets.specs.Persons.{left_in, person_in, person_of, year_in};

use crate::texts::{plain, shown_name};
use std::alloc::{AllocError, Global};
use std::marker::Model;
use trf16_report::{Line, Report, without_blanks};

/// A player as the page shows them; each text is empty if nothing stands there, but a blank name is a dash.
#[derive(Drop)]
pub(crate) struct Person {
    pub(crate) title: Vec<u8>,
    pub(crate) name: Vec<u8>,
    pub(crate) federation: Vec<u8>,
    pub(crate) rating: Vec<u8>,
    pub(crate) born: Vec<u8>,
}

impl Model for Person {
    ghost use Rattle.sheets.specs.Persons.{PersonFacts};

    ghost Value = { PersonFacts };

    ghost view = { λ p. record {
      title = p.title.items;
      name = p.name.items;
      federation = p.federation.items;
      rating = p.rating.items;
      born = p.born.items;
    } };
}

impl Person {
    /// A player by what is carried of their line, which begins with column 9.
    #[tactic(auto, unfolding(crate::specs::Persons::person_of))]
    pub(crate) fn of(alloc: Global, utf8: bool, left: &[u8]) -> Result<Person, AllocError>
        ensures { IfOk result (λ person. person ≡ person_of utf8 left.now) }
    {
        let line = Line::new(alloc, left, utf8)?;
        Ok(Person {
            title: plain(alloc, utf8, without_blanks(line.text(3, 5)))?,
            name: shown_name(alloc, utf8, without_blanks(line.text(7, 39)))?,
            federation: plain(alloc, utf8, without_blanks(line.text(46, 48)))?,
            rating: plain(alloc, utf8, without_blanks(line.text(41, 44)))?,
            born: Vec::from_slice(alloc, year_in(line.text(62, 65)))?,
        })
    }
}

// A year of four digits; nothing if something else stands there.
fn year_in(field: &[u8]) -> &[u8]
    ensures { result.now ≡ year_in field.now }
{
    if field.len() == 4 && are_digits(field) {
        field
    } else {
        &[]
    }
}

fn are_digits(field: &[u8]) -> bool
    ensures { result ≡ list_all is_ascii_digit field.now }
{
    field.iter().all(|byte| byte.is_ascii_digit())
}

// What is carried of a player's line.
fn left_in<'a>(report: &Report<'a>, start: u16) -> &'a [u8]
    ensures { result.now ≡ left_in report.now start }
{
    match report.player(start) {
        Some(player) => player.left,
        None => &[],
    }
}

/// The player with a start rank.
pub(crate) fn person_in(
    alloc: Global,
    report: &Report<'_>,
    start: u16,
) -> Result<Person, AllocError>
    ensures { IfOk result (λ person. person ≡ person_in report.now start) }
{
    Person::of(alloc, report.is_utf8(), left_in(report, start))
}
