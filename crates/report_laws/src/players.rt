// Laws of the present players and of the rules between two of them.
ghost use Rattle.std.specs.Prelude.{◌≡◌, ◌<◌, ◌≢◌, ℕ, Ok, Option, length};
ghost use Rattle.trf16_report.specs.Prelude.{apart, Sheet, HasOwnStarts};
ghost use Rattle.trf16_report.specs.declared.cell.Colour.{Colour};
ghost use Rattle.dutch_player.specs.Meetings.{are_apart, may_meet};
ghost use Rattle.dutch_player.specs.Colours.{colours, colour_rule};
ghost use Rattle.dutch_player.specs.Facts.{Facts, facts_of, seat_at};
ghost use Rattle.dutch_player.specs.StartRanks.{TellsSeat, seat_with};
ghost use Rattle.dutch_player.specs.Laws.{GrantsBoth, IsFieldOf, TellsRule};

/// If one player may meet another, the other may meet the one.
pub fn meeting_is_symmetric()
    ensures { (facts : Facts) (a b : ℕ) → may_meet facts a b ≡ may_meet facts b a }
{}

/// The colours of two do not depend on the order in which they are named.
pub fn colours_are_symmetric()
    ensures { (facts : Facts) (a b : ℕ) → a ≢ b → colours facts a b ≡ colours facts b a }
{}

/// Of two who may meet, with absolute preferences for different colours, both get what they prefer.
pub fn absolute_preferences_are_granted()
    ensures { (facts : Facts) (a b : ℕ) → a ≢ b → GrantsBoth facts a b }
{}

/// The rule that decides the colours of two does not depend on the order in which they are named.
pub fn colour_rules_are_symmetric()
    ensures { (facts : Facts) (a b : ℕ) → a ≢ b → colour_rule facts a b ≡ colour_rule facts b a }
{}

/// What is true of two players if a rule decides their colours.
pub fn colour_rules_tell()
    ensures { (facts : Facts) (a b : ℕ) → TellsRule facts a b }
{}

/// Each player of the report who is present has exactly one seat, and nobody else has any. The round that is to be
/// paired is the report's next one, and within the total.
pub fn seats_are_present_players()
    ensures { (sheet : Sheet) (asked : Option ℕ) (initial : Option Colour) (facts : Facts) → HasOwnStarts sheet
        → facts_of sheet asked initial ≡ Ok facts
        → IsFieldOf sheet asked facts }
{}

/// Two seats of a field are kept apart exactly if the report keeps their start ranks apart: these differ, and a line
/// `XXP` names both.
pub fn the_report_tells_who_is_kept_apart()
    ensures { (sheet : Sheet) (asked : Option ℕ) (initial : Option Colour) (facts : Facts) → HasOwnStarts sheet
        → facts_of sheet asked initial ≡ Ok facts
        → (a b : ℕ) → a < length facts.seats → b < length facts.seats
        → are_apart (seat_at facts a) (seat_at facts b) ≡ apart sheet (seat_at facts a).start (seat_at facts b).start }
{}

/// The seat of a start rank is one whose player has it; if there is none, no present player has it.
pub fn seats_are_found_by_start_ranks()
    ensures { (facts : Facts) (start : ℕ) → TellsSeat facts start (seat_with facts start) }
{}
