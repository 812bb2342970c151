// The names of players.
ghost use Rattle.std.specs.Prelude.{◌≡◌};
ghost use Rattle.trf16_report.specs.Lines.{columns, text};
ghost use Rattle.trf16_report.specs.Fields.{without_blanks};
ghost use Rattle.trf16_report.specs.Names.{name_in};

use crate::columns::split_columns;
use crate::fields::without_blanks;
use crate::report::Report;

// The name in what is carried of a player's line, which begins with column 9.
fn name_of(left: &[u8], utf8: bool) -> &[u8]
    ensures { result.now ≡ without_blanks (text (columns utf8 left.now) 7 39) }
{
    let (_, behind) = split_columns(left, utf8, 6);
    without_blanks(split_columns(behind, utf8, 33).0)
}

impl<'a> Report<'a> {
    /// Yes if the report is UTF-8: then a column is a character. Otherwise a column is a byte.
    pub fn is_utf8(&self) -> bool
        ensures { result ≡ self.now.utf8 }
    {
        self.utf8
    }

    /// The name of a player: columns 15 to 47 of their line, without the blanks at its ends; empty if nothing stands
    /// there, and if no player has the start rank.
    pub fn name(&self, start: u16) -> &'a [u8]
        ensures { result.now ≡ name_in self.now start }
    {
        match self.player(start) {
            Some(player) => name_of(player.left, self.utf8),
            None => &[],
        }
    }
}
