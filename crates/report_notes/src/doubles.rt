// Players who share a name or a FIDE number.
ghost use Rattle.std.specs.Prelude.{◌≡◌, option_and_then};
ghost use Rattle.trf16_report.specs.Prelude.{entry_of, player_of};
ghost use Rattle.report_notes.specs.Doubles.{are_zeros, first_same, identity_of, same_before, says_nothing};

use crate::refusal::columns_in;
use trf16_report::{Player, Report, without_blanks};

/// What tells a player from others.
#[derive(Clone, Copy)]
pub enum Identity {
    /// Columns 15 to 47 of the line, without the blanks at both ends.
    Name,
    /// Columns 58 to 68.
    FideNumber,
}

// What is carried of a line begins with column 9.
fn identity_of<'a>(what: Identity, player: &Player<'a>, utf8: bool) -> &'a [u8]
    ensures { result.now ≡ identity_of what utf8 (entry_of player.now) }
{
    without_blanks(match what {
        Identity::Name => columns_in(player.left, utf8, 7, 39),
        Identity::FideNumber => columns_in(player.left, utf8, 50, 60),
    })
}

fn are_zeros(digits: &[u8]) -> bool
    ensures { result ≡ are_zeros digits.now }
{
    digits.iter().all(|digit| *digit == b'0')
}

// A number of zeros alone is none.
fn says_nothing(what: Identity, own: &[u8]) -> bool
    ensures { result ≡ says_nothing what own.now }
{
    match what {
        Identity::Name => own.is_empty(),
        Identity::FideNumber => are_zeros(own),
    }
}

// The first player in front of a line whose line says the same.
fn first_same(report: &Report<'_>, what: Identity, own: &[u8], line: usize) -> Option<u16>
    ensures { result ≡ first_same what report.now.utf8 own.now line report.now.players }
{
    let utf8 = report.is_utf8();
    for player in report.players() {
        if player.line < line && identity_of(what, player, utf8) == own {
            return Some(player.start);
        }
    }
    None
}

/// The first player in an earlier line who has the name, or the FIDE number, of the player with a start rank.
pub(crate) fn same_before(report: &Report<'_>, what: Identity, start: u16) -> Option<u16>
    ensures { result ≡ option_and_then (same_before report.now what) (player_of report.now.players start) }
{
    let player = report.player(start)?;
    let own = identity_of(what, player, report.is_utf8());
    if says_nothing(what, own) {
        return None;
    }
    first_same(report, what, own, player.line)
}
