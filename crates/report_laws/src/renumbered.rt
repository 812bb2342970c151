// Laws of the new start ranks, and of the report with them.
ghost use Rattle.std.specs.Prelude.{◌≡◌, ℕ, List, ◌<◌, ◌≤◌, true, length, option_map, Some, Ok};
ghost use Rattle.trf16_report.specs.Prelude as sheets;
ghost use Rattle.trf16_report.specs.declared.limits.TheConstants.{MOST_BYTES, MOST_PLAYERS};

/// No two players have one new start rank, and each is from 1 to the number of players.
pub fn new_start_ranks_are_one_to_one()
    ensures within { (sheet : sheets.Sheet) (a : ℕ) → sheets.known sheet a ≡ true
        → (0 < sheets.new_start sheet a) × (sheets.new_start sheet a ≤ length sheet.players) }
    ensures once { (sheet : sheets.Sheet) (a b : ℕ) → sheets.known sheet a ≡ true → sheets.known sheet b ≡ true
        → sheets.new_start sheet a ≡ sheets.new_start sheet b → a ≡ b }
{}

/// In an accepted report each number from 1 to the number of players is the new start rank of a player.
pub fn new_start_ranks_are_all_numbers()
    ensures { (bytes : List ℕ) (bye : ℕ) (sheet : sheets.Sheet) (n : ℕ) → sheets.verdict bytes bye ≡ Ok sheet
        → 0 < n → n ≤ length sheet.players
        → (start : ℕ) × (sheets.known sheet start ≡ true) × (sheets.new_start sheet start ≡ n) }
{}

/// Whoever goes before another has the lower new start rank; and so has the higher rated of two.
pub fn new_start_ranks_are_in_order()
    ensures order { (sheet : sheets.Sheet) (a b : ℕ) (x y : sheets.Entry)
        → sheets.player_of sheet.players a ≡ Some x → sheets.player_of sheet.players b ≡ Some y
        → sheets.goes_before sheet.utf8 x y ≡ true → sheets.new_start sheet a < sheets.new_start sheet b }
    ensures rated { (sheet : sheets.Sheet) (a b : ℕ) (x y : sheets.Entry)
        → sheets.player_of sheet.players a ≡ Some x → sheets.player_of sheet.players b ≡ Some y
        → sheets.rating_of sheet.utf8 y < sheets.rating_of sheet.utf8 x
        → sheets.new_start sheet a < sheets.new_start sheet b }
{}

/// Whatever a report says of a player it says of the same player under the new start ranks: each cell names the new
/// start rank of the same opponent, and the points of the rounds, the absence from the next one, who is kept apart from
/// them in it, the name and the rating stay.
pub fn players_are_kept()
    ensures cells { (sheet : sheets.Sheet) (start round : ℕ) → length sheet.players ≤ MOST_PLAYERS
        → sheets.known sheet start ≡ true → sheets.cell_in (sheets.renumbered sheet)
        (sheets.new_start sheet start) round
        ≡ sheets.renumbered_cell (sheets.new_start sheet) (sheets.cell_in sheet start round) }
    ensures points { (sheet : sheets.Sheet) (start upto : ℕ) → length sheet.players ≤ MOST_PLAYERS
        → sheets.known sheet start ≡ true
        → sheets.points_upto (sheets.renumbered sheet) (sheets.new_start sheet start) upto
        ≡ sheets.points_upto sheet start upto }
    ensures absent { (sheet : sheets.Sheet) (start : ℕ) → length sheet.players ≤ MOST_PLAYERS
        → sheets.known sheet start ≡ true → sheets.absent (sheets.renumbered sheet) (sheets.new_start sheet start)
        ≡ sheets.absent sheet start }
    ensures apart { (sheet : sheets.Sheet) (a b : ℕ) → length sheet.players ≤ MOST_PLAYERS
        → sheets.known sheet a ≡ true → sheets.known sheet b ≡ true
        → sheets.apart (sheets.renumbered sheet) (sheets.new_start sheet a) (sheets.new_start sheet b)
        ≡ sheets.apart sheet a b }
    ensures name { (sheet : sheets.Sheet) (start : ℕ) → length sheet.players ≤ MOST_PLAYERS
        → sheets.known sheet start ≡ true → sheets.name_in (sheets.renumbered sheet) (sheets.new_start sheet start)
        ≡ sheets.name_in sheet start }
    ensures rating { (sheet : sheets.Sheet) (start : ℕ) → length sheet.players ≤ MOST_PLAYERS
        → sheets.known sheet start ≡ true
        → option_map (sheets.rating_of sheet.utf8) (sheets.player_of (sheets.renumbered sheet).players
        (sheets.new_start sheet start))
        ≡ option_map (sheets.rating_of sheet.utf8) (sheets.player_of sheet.players start) }
{}

/// A report that is renumbered twice is the report that is renumbered once.
pub fn renumbering_twice_is_renumbering_once()
    ensures { (bytes : List ℕ) (bye : ℕ) (sheet : sheets.Sheet) → sheets.verdict bytes bye ≡ Ok sheet
        → sheets.renumbered (sheets.renumbered sheet) ≡ sheets.renumbered sheet }
{}

/// The canonical text of a report that was read, with the start ranks that rating, title and the old start rank give,
/// reads back as that, by what the pairing-allocated bye gives in the report, unless it is too long.
pub fn a_renumbered_report_is_accepted()
    ensures { (bytes : List ℕ) (bye : ℕ) (report : sheets.Sheet) → bye ≤ 2 → sheets.verdict bytes bye ≡ Ok report
        → length (sheets.written (sheets.renumbered report)) ≤ MOST_BYTES
        → sheets.verdict (sheets.written (sheets.renumbered report)) report.bye ≡ Ok (sheets.renumbered report) }
{}
