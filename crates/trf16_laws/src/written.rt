// Laws of what is written: it reads back as what it was written of.
ghost use Rattle.std.specs.Prelude.{◌≡◌, ℕ, ◌<◌, ◌≤◌, ◌↔◌, true, false, not};
ghost use Rattle.std.specs.Prelude.{List, ◌∷◌, ◌++◌, [], length, map, slice_range, Some, Ok};
ghost use Rattle.std.specs.Fmt.{decimal};
ghost use Rattle.std.specs.List.{list_all};
ghost use Rattle.std.specs.Str.{byte, is_utf8, chars};
ghost use Rattle.std.specs.Char.{encode_utf8};
ghost use Rattle.trf16_report.specs.Lines.{ends_line, lines, columns};
ghost use Rattle.trf16_report.specs.Cells.{cell_from};
ghost use Rattle.trf16_report.specs.Fields.{words, number_in, points_of, points_in};
ghost use Rattle.trf16_report.specs.Points.{SpellsPoints};
ghost use Rattle.trf16_report.specs.Sheet.{Sheet};
ghost use Rattle.trf16_report.specs.Summed.{summed, verdict_unsummed};
ghost use Rattle.trf16_report.specs.Verdict.{verdict};
ghost use Rattle.trf16_report.specs.Written.{right_in_four, points_text, cell_text, written};
ghost use Rattle.trf16_report.specs.Round.{CanBePaired, with_round};
ghost use Rattle.trf16_report.specs.declared.cell.Cell.{Cell};
ghost use Rattle.trf16_report.specs.declared.limits.TheConstants.{MOST_BYTES};

/// A number of one to four digits that is written at the right of four columns reads back as itself.
pub fn law_numbers()
    ensures { (n : ℕ) → n < 10000 → number_in (words (right_in_four (decimal n))) ≡ Some n }
{}

/// Half points under 100 points that are written at the right of four columns read back as themselves.
pub fn law_points()
    ensures { (points : ℕ) → points < 200
        → points_in (words (right_in_four (points_text points))) ≡ Some (Some points) }
{}

/// A word spells points exactly if it has one to four bytes: digits, and behind them nothing, or a point or comma and
/// then 0 or 5. The half points are twice the number, and one more for a 5.
pub fn law_points_spelled()
    ensures { (word : List ℕ) → (points : ℕ) → (points_of word ≡ Some points)
        ↔ ((1 ≤ length word) × (length word ≤ 4) × SpellsPoints 0 word points) }
{}

/// A cell that some fields spell has eight columns when it is written, and its fields there (opponent in columns 1 to 4
/// of the eight, colour in 6 and result in 8) spell it again.
pub fn law_cells()
    ensures size { (opponent : List ℕ) → (colour : List ℕ) → (outcome : List ℕ) → (cell : Cell)
        → cell_from opponent colour outcome ≡ Some cell → length (cell_text cell) ≡ 8 }
    ensures read { (opponent : List ℕ) → (colour : List ℕ) → (outcome : List ℕ) → (cell : Cell)
        → cell_from opponent colour outcome ≡ Some cell
        → cell_from (slice_range (cell_text cell) 0 4) (slice_range (cell_text cell) 5 6)
        (slice_range (cell_text cell) 7 8) ≡ Some cell }
{}

/// The columns of a line are its characters if it is UTF-8, and otherwise its bytes.
pub fn law_columns()
    ensures characters { (bytes : List ℕ) → is_utf8 bytes ≡ true → columns true bytes ≡ map encode_utf8 (chars bytes) }
    ensures bytes { (bytes : List ℕ) → columns false bytes ≡ map (λ b. b ∷ []) bytes }
{}

/// A line that is put in front of a text, with LF behind it, is the first of the lines, and the others are those of the
/// text.
pub fn law_lines()
    ensures { (line : List ℕ) → (rest : List ℕ) → list_all (λ b. not (ends_line b)) line ≡ true
        → lines (line ++ (byte "\n" ∷ rest)) ≡ line ∷ lines rest }
{}

/// The canonical text of a report that was read reads back as that report, by what the pairing-allocated bye gives in
/// it, unless it is too long.
pub fn law_round_trip()
    ensures { (bytes : List ℕ) → (bye : ℕ) → (report : Sheet) → bye ≤ 2 → verdict bytes bye ≡ Ok report
        → length (written report) ≤ MOST_BYTES
        → verdict (written report) report.bye ≡ Ok report }
{}

/// If some boards are put into a report that was read, as its next round, the canonical text reads back as that report,
/// by what the pairing-allocated bye gives in it, unless it is too long.
pub fn law_round_trip_with_round()
    ensures { (bytes : List ℕ) → (bye : ℕ) → (report : Sheet) → (boards : List (ℕ × ℕ)) → bye ≤ 2
        → verdict bytes bye ≡ Ok report
        → CanBePaired boards report → 0 < length boards → length (written (with_round boards report)) ≤ MOST_BYTES
        → verdict (written (with_round boards report)) report.bye ≡ Ok (with_round boards report) }
{}

/// The canonical text of a report whose points fields were not compared, and are then summed, is accepted, and reads
/// back as that report with its sums, by what the pairing-allocated bye gives in it, unless it is too long.
pub fn sums_are_accepted()
    ensures { (bytes : List ℕ) → (bye : ℕ) → (report : Sheet) → bye ≤ 2 → verdict_unsummed bytes bye ≡ Ok report
        → length (written (summed report)) ≤ MOST_BYTES
        → verdict (written (summed report)) report.bye ≡ Ok (summed report) }
{}
