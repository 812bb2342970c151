// Laws of what looks like a mistake in a report, and of what is told where one is refused.
ghost use Rattle.std.specs.Prelude.{◌≡◌, ◌<◌, ℕ, List, ◌∷◌, [], Ok, not, true, false};
ghost use Rattle.std.specs.List.{list_all, list_any};
ghost use Rattle.std.specs.Str.{is_utf8};
ghost use Rattle.trf16_report.specs.Prelude.{Sheet, ends_line, lines, verdict, without_marks};
ghost use Rattle.report_notes.specs.Notes.{notes_of};
ghost use Rattle.report_notes.specs.RefusalNotes.{alone_in_bytes};
ghost use Rattle.report_laws.specs.Notes.{lacks_result, tells_no_result};

/// Of an accepted report it is noted of a line and a round that the game has no result exactly if the player of that
/// line has a game without a result in that round.
pub fn each_round_without_result_is_noted()
    ensures { (bytes : List ℕ) (bye : ℕ) (sheet : Sheet) → verdict bytes bye ≡ Ok sheet
        → (line round : ℕ) → 0 < round
        → list_any (tells_no_result line round) (notes_of sheet bytes)
        ≡ list_any (lacks_result line round) sheet.players }
{}

/// A line alone, as the text that shows whether the line fits in bytes: it is not read as UTF-8, so its columns are
/// bytes, and its lines are that line and one of a single byte, which is of no kind.
pub fn line_alone_has_bytes()
    ensures columns { (line : List ℕ) → is_utf8 (without_marks (alone_in_bytes line)) ≡ false }
    ensures lines { (line : List ℕ) → list_all (λ b. not (ends_line b)) line ≡ true
        → lines (alone_in_bytes line) ≡ line ∷ (0xFF ∷ []) ∷ [] }
{}
