// Laws of a report with what was entered by hand.
ghost use Rattle.std.specs.Prelude.{◌≡◌, ◌<◌, ◌≤◌, ◌∷◌, [], ℕ, List, length, false, Ok};
ghost use Rattle.std.specs.List.{AllByRecursion};
ghost use Rattle.entries.specs.Prelude.{cell_in_slot, entered};
ghost use Rattle.entries.specs.declared.entry.EntryOptions.{EntryOptions};
ghost use Rattle.entries.specs.declared.entry.HandEntry.{HandEntry};
ghost use Rattle.entries.specs.declared.entry.Slot.{Slot};
ghost use Rattle.entry_laws.specs.Concerned.{AreApart, KeepsRest, concerns};
ghost use Rattle.entry_laws.specs.Standing.{SaysWhatStands};
ghost use Rattle.trf16_report.specs.Prelude.{Sheet, has_other_points, verdict, verdict_unsummed, written};
ghost use Rattle.trf16_report.specs.declared.limits.TheConstants.{MOST_BYTES};

/// Entries leave all that is carried as it was, byte by byte, and all that is said beside cells and points.
pub fn the_rest_stays()
    ensures { (options : EntryOptions) (entries : List HandEntry) (sheet new : Sheet)
        → entered options entries sheet ≡ Ok new → KeepsRest sheet new }
{}

/// A cell that no entry concerns is as before, in every round.
pub fn cells_stay_that_no_entry_concerns()
    ensures { (bytes : List ℕ) (bye : ℕ) (options : EntryOptions) (entries : List HandEntry) (sheet new : Sheet) (slot : Slot)
        → verdict_unsummed bytes bye ≡ Ok sheet → entered options entries sheet ≡ Ok new → 0 < slot.round
        → concerns options sheet entries slot ≡ false → cell_in_slot new slot ≡ cell_in_slot sheet slot }
{}

/// If each entry says a result that stands there already, no cell is changed; and so nothing is but the points. Where
/// the results of the two players are not each other's other side, as after a double forfeit, both are entered.
pub fn what_stands_there_is_not_changed()
    ensures { (options : EntryOptions) (entries : List HandEntry) (sheet new : Sheet) (slot : Slot)
        → entered options entries sheet ≡ Ok new → 0 < slot.round
        → AllByRecursion (SaysWhatStands options sheet entries) entries → cell_in_slot new slot ≡ cell_in_slot sheet slot }
{}

/// Two entries for different games commute: if one after the other is not refused, the other order gives the same
/// report.
pub fn entries_for_different_games_commute()
    ensures { (bytes : List ℕ) (bye : ℕ) (options : EntryOptions) (a b : HandEntry) (sheet new : Sheet)
        → verdict_unsummed bytes bye ≡ Ok sheet → AreApart options sheet a b
        → entered options (a ∷ b ∷ []) sheet ≡ Ok new → entered options (b ∷ a ∷ []) sheet ≡ Ok new }
{}

/// The canonical text of a report with entries is accepted, and reads back as that report, by what the
/// pairing-allocated bye gives in it, unless it is too long: if the points fields are summed, or if the report without
/// the entries was accepted with them.
pub fn an_entered_report_is_accepted()
    ensures summed { (bytes : List ℕ) (bye : ℕ) (options : EntryOptions) (entries : List HandEntry) (sheet new : Sheet)
        → bye ≤ 2 → verdict_unsummed bytes bye ≡ Ok sheet → has_other_points sheet ≡ false
        → entered options entries sheet ≡ Ok new → length (written new) ≤ MOST_BYTES
        → verdict (written new) bye ≡ Ok new }
    ensures accepted { (bytes : List ℕ) (bye : ℕ) (options : EntryOptions) (entries : List HandEntry) (sheet new : Sheet)
        → bye ≤ 2 → verdict bytes bye ≡ Ok sheet
        → entered options entries sheet ≡ Ok new → length (written new) ≤ MOST_BYTES
        → verdict (written new) bye ≡ Ok new }
{}
