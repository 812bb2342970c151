// The options of the commands, from what clap makes of the words.
ghost use Rattle.std.specs.Prelude.{◌≡◌, ℕ, List, Bool, option_map};
ghost use Rattle.clap.specs.Words.{first_of};
ghost use Rattle.requests.specs.Options as options;
ghost use Rattle.trf16_report.specs.declared.limits.TheConstants.{MOST_ROUNDS};

use crate::entries_in::Entries;
use crate::keys::{Keys, keys_in};
use clap::ArgMatches;
use std::marker::Model;
use trf16_report::{Colour, MOST_ROUNDS};

/// What is wrong with words that clap lets pass.
#[derive(Clone, Copy)]
pub enum WordFault {
    /// `--initial` is neither `white` nor `black`.
    BadColour,
    /// `--by` is no list of one to three keys, none twice.
    BadKeys,
    /// `--from` is no cursor.
    BadCursor,
    /// `--names` and `--report` are both there.
    NamesAndReport,
    /// `--instead` is there without `--player`.
    InsteadAlone,
    /// `--by` of `format` is there without `--ranks`.
    ByAlone,
    /// An entry of `enter` is of no form; its place among them, from 1.
    BadEntry { place: usize },
}

/// What is asked of `check`.
#[derive(Clone, Copy)]
pub struct CheckOptions {
    /// If set, what looks like a mistake is told too.
    pub notes: bool,
}

/// What is asked of `format`.
#[derive(Drop)]
pub struct FormatOptions {
    /// If set, each points field is written as a sum, and compared with none.
    pub points: bool,
    /// If set, the players get the start ranks that rating and title give.
    pub renumber: bool,
    /// If set, the players' places are written into their rank columns, and players of one score are told apart by
    /// these.
    pub ranks: Option<Keys>,
    /// The round before which the report is taken as it stood, where the words name one: at most `MOST_ROUNDS`.
    pub round: Option<u8>,
}

/// What is asked of `pair`.
#[derive(Clone, Copy)]
pub struct PairOptions {
    /// The round before which the report is taken as it stood, where the words name one: at most `MOST_ROUNDS`.
    pub round: Option<u8>,
    /// The number of rounds of the tournament, where the words name it: at most `MOST_ROUNDS`.
    pub rounds: Option<u8>,
    /// The colour of an odd start rank where nothing else decides (C.04.3 E.5), where the words name it.
    pub initial: Option<Colour>,
    /// How many steps a bracket may take.
    pub steps: u64,
    /// What is printed of the new round.
    pub shown: Shown,
}

/// What is printed of a new round.
#[derive(Clone, Copy)]
pub enum Shown {
    /// The boards, in start ranks.
    Boards,
    /// The boards with names and scores, for the wall.
    Names,
    /// The report with the round in it.
    Report,
}

/// What is asked of `boards`.
#[derive(Clone, Copy)]
pub struct BoardsOptions {
    /// The round whose boards are wanted, where the words name one: at most `MOST_ROUNDS`; else the last that was
    /// paired.
    pub round: Option<u8>,
    /// If set, names, scores and results are wanted, in columns for the wall.
    pub names: bool,
}

/// What is asked of `explain`.
#[derive(Clone, Copy)]
pub struct ExplainOptions {
    /// What is asked of one player; else the whole round is explained.
    pub question: Option<Question>,
    /// The round before which the report is taken as it stood, where the words name one: at most `MOST_ROUNDS`.
    pub round: Option<u8>,
    /// The number of rounds of the tournament, where the words name it: at most `MOST_ROUNDS`.
    pub rounds: Option<u8>,
    /// The colour of an odd start rank where nothing else decides (C.04.3 E.5), where the words name it.
    pub initial: Option<Colour>,
    /// How many steps a bracket may take, and how many the search for another opponent may.
    pub steps: u64,
    /// How the lines are worded.
    pub wording: Wording,
}

/// How the lines of an explanation are worded.
#[derive(Clone, Copy)]
pub enum Wording {
    /// As codes, for programs and for people who know them.
    Plain,
    /// As sentences with the names of the players, to be read out.
    Words,
}

/// What is asked of one player.
#[derive(Clone, Copy)]
pub struct Question {
    /// The player's start rank.
    pub player: u16,
    /// The start rank of the one whom they might have met instead, or 0 for the bye.
    pub instead: Option<u16>,
}

/// What is asked of `standings`.
#[derive(Drop)]
pub struct StandingsOptions {
    /// What players of one score are told apart by.
    pub keys: Keys,
    /// If set, the names are wanted, in columns for the wall.
    pub names: bool,
    /// If set, the games are wanted, in a column for each round.
    pub games: bool,
    /// The round before which the report is taken as it stood, where the words name one: at most `MOST_ROUNDS`.
    pub round: Option<u8>,
}

/// What is asked of `sheet`.
#[derive(Drop)]
pub struct SheetOptions {
    /// What players of one score are told apart by.
    pub keys: Keys,
    /// The round before which the report is taken as it stood, where the words name one: at most `MOST_ROUNDS`.
    pub round: Option<u8>,
}

/// What is asked of `enter`.
#[derive(Drop)]
pub struct EnterOptions {
    /// The entries, in the order of their words.
    pub entries: Entries,
    /// The round of all entries, where the words name one: at most `MOST_ROUNDS`.
    pub round: Option<u8>,
    /// If set, cells that say something else are replaced.
    pub correct: bool,
}

/// What is asked of `candidates`.
#[derive(Drop)]
pub struct CandidatesOptions<'a> {
    /// The number of the bracket, from 1.
    pub bracket: u16,
    /// The cursor behind which the candidates begin.
    pub from: Option<GivenCursor<'a>>,
    /// How many candidates are wanted.
    pub count: usize,
    /// The round before which the report is taken as it stood, where the words name one: at most `MOST_ROUNDS`.
    pub round: Option<u8>,
    /// The number of rounds of the tournament, where the words name it.
    pub rounds: Option<u8>,
    /// The colour of an odd start rank where nothing else decides (C.04.3 E.5), where the words name it.
    pub initial: Option<Colour>,
    /// How many steps a bracket may take, and how many the enumeration may.
    pub steps: u64,
}

/// The text of a cursor.
#[derive(Drop)]
pub struct GivenCursor<'a> {
    text: &'a str,
}

impl<'a> Model for GivenCursor<'a> {
    ghost use Rattle.std.specs.Prelude.{ℕ, List};

    ghost Value = { List ℕ };

    ghost view = { λ c. c.text.now };
}

impl<'a> GivenCursor<'a> {
    /// The text.
    pub fn as_str(&self) -> &'a str
        ensures { result.now ≡ self.now }
    {
        self.text
    }
}

/// Tells which texts are cursors.
pub trait CursorSyntax {
    ghost is_cursor: { List ℕ → Bool };

    /// Yes if `--from` may have the text: it has the form of a cursor.
    fn is_cursor(text: &str) -> bool
        ensures { result ≡ is_cursor text.now };
}

/// The options of `check`.
pub fn check_options(matches: &ArgMatches<'_>) -> CheckOptions
    ensures { result ≡ options.check_options (options.rows_in matches.now) }
{
    CheckOptions {
        notes: flag_in(matches, "notes"),
    }
}

/// The options of `format`, or what is wrong with them.
#[tactic(auto, unfolding(crate::specs::Options::format_options))]
pub fn format_options(matches: &ArgMatches<'_>) -> Result<FormatOptions, WordFault>
    ensures { result ≡ options.format_options (options.rows_in matches.now) }
{
    let ranks = ranks_by(flag_in(matches, "ranks"), text_in(matches, "by"))?;
    Ok(FormatOptions {
        points: flag_in(matches, "points"),
        renumber: flag_in(matches, "renumber"),
        ranks,
        round: few_rounds_in(matches, "round"),
    })
}

/// The options of `pair`, or what is wrong with them.
#[tactic(auto, unfolding(crate::specs::Options::pair_options))]
pub fn pair_options(matches: &ArgMatches<'_>) -> Result<PairOptions, WordFault>
    ensures { result ≡ options.pair_options (options.rows_in matches.now) }
{
    let initial = initial_in(matches)?;
    let shown = shown_by(flag_in(matches, "report"), flag_in(matches, "names"))?;
    Ok(PairOptions {
        round: few_rounds_in(matches, "round"),
        rounds: few_rounds_in(matches, "rounds"),
        initial,
        steps: steps_in(matches),
        shown,
    })
}

/// The options of `boards`.
pub fn boards_options(matches: &ArgMatches<'_>) -> BoardsOptions
    ensures { result ≡ options.boards_options (options.rows_in matches.now) }
{
    BoardsOptions {
        round: few_rounds_in(matches, "round"),
        names: flag_in(matches, "names"),
    }
}

/// The options of `explain`, or the first thing that is wrong with them.
#[tactic(auto, unfolding(crate::specs::Options::explain_options))]
pub fn explain_options(matches: &ArgMatches<'_>) -> Result<ExplainOptions, WordFault>
    ensures { result ≡ options.explain_options (options.rows_in matches.now) }
{
    let initial = initial_in(matches)?;
    let (player, instead) = (number_in(matches, "player"), number_in(matches, "instead"));
    let question = question_by(player, instead)?;
    Ok(ExplainOptions {
        question,
        round: few_rounds_in(matches, "round"),
        rounds: few_rounds_in(matches, "rounds"),
        initial,
        steps: steps_in(matches),
        wording: wording_by(flag_in(matches, "words")),
    })
}

/// The options of `standings`, or what is wrong with them.
#[tactic(auto, unfolding(crate::specs::Options::standings_options))]
pub fn standings_options(matches: &ArgMatches<'_>) -> Result<StandingsOptions, WordFault>
    ensures { result ≡ options.standings_options (options.rows_in matches.now) }
{
    let keys = keys_by(text_in(matches, "by"))?;
    Ok(StandingsOptions {
        keys,
        names: flag_in(matches, "names"),
        games: flag_in(matches, "games"),
        round: few_rounds_in(matches, "round"),
    })
}

/// The options of `sheet`, or what is wrong with them.
#[tactic(auto, unfolding(crate::specs::Options::sheet_options))]
pub fn sheet_options(matches: &ArgMatches<'_>) -> Result<SheetOptions, WordFault>
    ensures { result ≡ options.sheet_options (options.rows_in matches.now) }
{
    let keys = keys_by(text_in(matches, "by"))?;
    Ok(SheetOptions {
        keys,
        round: few_rounds_in(matches, "round"),
    })
}

/// The options of `candidates`, or the first thing that is wrong with them.
#[tactic(auto, unfolding(crate::specs::Options::candidates_options))]
pub fn candidates_options<'a, S: CursorSyntax>(
    matches: &ArgMatches<'a>,
) -> Result<CandidatesOptions<'a>, WordFault>
    ensures { result ≡ options.candidates_options S.is_cursor (options.rows_in matches.now) }
{
    let initial = initial_in(matches)?;
    let from = from_in::<S>(matches)?;
    Ok(CandidatesOptions {
        // no words that leave it out come here
        bracket: number_in(matches, "bracket").unwrap_or(1),
        from,
        count: count_in(matches),
        round: few_rounds_in(matches, "round"),
        rounds: few_rounds_in(matches, "rounds"),
        initial,
        steps: steps_in(matches),
    })
}

/// `--bye`: what the pairing-allocated bye gives, in half points. No words with one above 2 come here.
pub fn bye_in(matches: &ArgMatches<'_>) -> u16
    ensures { result ≡ options.bye_in (options.rows_in matches.now) }
{
    number_in(matches, "bye")
        .filter(|bye| *bye <= 2)
        .unwrap_or(2)
}

// `--initial`: the colour of the higher-ranked of two players if nothing else decides and that player's start rank is
// odd (C.04.3 E.5).
fn initial_in(matches: &ArgMatches<'_>) -> Result<Option<Colour>, WordFault>
    ensures { result ≡ options.initial_in (options.rows_in matches.now) }
{
    match text_in(matches, "initial") {
        None => Ok(None),
        Some("white") => Ok(Some(Colour::White)),
        Some("black") => Ok(Some(Colour::Black)),
        Some(_) => Err(WordFault::BadColour),
    }
}

// `--player` and `--instead`: what is asked of a player.
fn question_by(player: Option<u16>, instead: Option<u16>) -> Result<Option<Question>, WordFault>
    ensures { result ≡ options.question_by player instead }
{
    match (player, instead) {
        (None, None) => Ok(None),
        (None, Some(_)) => Err(WordFault::InsteadAlone),
        (Some(player), instead) => Ok(Some(Question { player, instead })),
    }
}

// `--words`: how the lines are worded.
fn wording_by(words: bool) -> Wording
    ensures { result ≡ options.wording_by words }
{
    if words {
        Wording::Words
    } else {
        Wording::Plain
    }
}

// `--report` and `--names`: what is printed of a round.
fn shown_by(report: bool, names: bool) -> Result<Shown, WordFault>
    ensures { result ≡ options.shown_by report names }
{
    match (report, names) {
        (false, false) => Ok(Shown::Boards),
        (false, true) => Ok(Shown::Names),
        (true, false) => Ok(Shown::Report),
        (true, true) => Err(WordFault::NamesAndReport),
    }
}

// `--by`: the keys of the standings.
fn keys_by(text: Option<&str>) -> Result<Keys, WordFault>
    ensures { result ≡ options.keys_by (option_map (λ t. t.now) text.entry) }
{
    let Some(list) = text else {
        return Ok(Keys::usual());
    };
    match keys_in(list) {
        Some(keys) => Ok(keys),
        None => Err(WordFault::BadKeys),
    }
}

// `--ranks` and `--by` of `format`: the keys by which the players' places are written, if they are wanted.
fn ranks_by(ranks: bool, text: Option<&str>) -> Result<Option<Keys>, WordFault>
    ensures { result ≡ options.ranks_by ranks (option_map (λ t. t.now) text.entry) }
{
    if ranks {
        return Ok(Some(keys_by(text)?));
    }
    match text {
        None => Ok(None),
        Some(_) => Err(WordFault::ByAlone),
    }
}

// `--from`: the cursor behind which the candidates begin.
fn from_in<'a, S: CursorSyntax>(
    matches: &ArgMatches<'a>,
) -> Result<Option<GivenCursor<'a>>, WordFault>
    ensures { result ≡ options.from_in S.is_cursor (options.rows_in matches.now) }
{
    match text_in(matches, "from") {
        None => Ok(None),
        Some(text) if S::is_cursor(text) => Ok(Some(GivenCursor { text })),
        Some(_) => Err(WordFault::BadCursor),
    }
}

// The number of an option of 16 bits.
fn number_in(matches: &ArgMatches<'_>, name: &str) -> Option<u16>
    ensures { result ≡ options.number_in options.u16_max name.now (options.rows_in matches.now) }
{
    matches.get_one::<u16>(name)
}

// `--count`: how many candidates are wanted.
fn count_in(matches: &ArgMatches<'_>) -> usize
    ensures { result ≡ options.count_in (options.rows_in matches.now) }
{
    matches.get_one::<usize>("count").unwrap_or(100)
}

// `--round`, the round that is asked for, or `--rounds`, the number of rounds of the tournament. No words with a
// greater one come here.
pub(crate) fn few_rounds_in(matches: &ArgMatches<'_>, name: &str) -> Option<u8>
    ensures { result ≡ options.number_in MOST_ROUNDS name.now (options.rows_in matches.now) }
{
    matches
        .get_one::<u8>(name)
        .filter(|rounds| usize::from(*rounds) <= MOST_ROUNDS)
}

// `--steps`: how many steps a bracket may take.
fn steps_in(matches: &ArgMatches<'_>) -> u64
    ensures { result ≡ options.steps_in (options.rows_in matches.now) }
{
    matches.get_one::<u64>("steps").unwrap_or(10_000_000)
}

pub(crate) fn flag_in(matches: &ArgMatches<'_>, name: &str) -> bool
    ensures { result ≡ options.flag_in name.now (options.rows_in matches.now) }
{
    matches!(text_in(matches, name), Some("true"))
}

fn text_in<'a>(matches: &ArgMatches<'a>, name: &str) -> Option<&'a str>
    ensures { option_map (λ t. t.now) result ≡ first_of name.now (options.rows_in matches.now) }
{
    matches.get_str(name)
}
