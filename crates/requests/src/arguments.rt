// The options of the commands, as clap is told of them.
ghost use Rattle.std.specs.Prelude.{◌≡◌, false, pos};
ghost use Rattle.clap.specs.Words.{rule_of};
ghost use Rattle.clap.specs.declared.builder.value_parser.ValueParser.TheVariants.{Signed, Unsigned};
ghost use Rattle.requests.specs.CommandLine.{bracket_rule, few_rounds_rule, flag_rule, number_rule, option_rule};
ghost use Rattle.requests.specs.CommandLine.{rule_for, word_rule, words_rule_of};

use clap::builder::ValueParser;
use clap::{Arg, ArgAction, value_parser};
use std::alloc::Global;
use trf16_report::MOST_ROUNDS;

/// Which option is meant.
#[derive(Clone, Copy)]
pub enum OptionName {
    /// `--bracket K`.
    Bracket,
    /// `--from CURSOR`.
    From,
    /// `--count N`.
    Count,
    /// `--player P`.
    Player,
    /// `--instead Q`.
    Instead,
    /// `--round N` of a command that answers on the report as it stood before a round.
    Round,
    /// `--round N` of `boards`.
    PlayedRound,
    /// `--rounds N`.
    Rounds,
    /// `--initial`, a colour.
    Initial,
    /// `--steps N`.
    Steps,
    /// `--report`.
    Report,
    /// `--notes`.
    Notes,
    /// `--points`.
    Points,
    /// `--renumber`.
    Renumber,
    /// `--ranks`.
    Ranks,
    /// `--by` of `format`, a list of keys.
    RankedBy,
    /// `--names` of `pair`.
    BoardNames,
    /// `--names` of `boards`.
    PlayedNames,
    /// `--names` of `standings`.
    PlayerNames,
    /// `--games`.
    Games,
    /// `--words`.
    Words,
    /// `--by` of `standings` and of `sheet`, a list of keys.
    By,
    /// `--bye N`.
    Bye,
    /// The entries of `enter`: one word or more.
    Entries,
    /// `--round N` of `enter`.
    EnteredRound,
    /// `--correct`.
    Correct,
}

// How help and complaints call an option and its value, and what help says of it.
#[derive(Clone, Copy)]
struct Labels<'a> {
    name: &'a str,
    value: &'a str,
    help: &'a str,
}

// How help names the values of `--initial` and of `--by`: by what they may be. clap names them so too where it
// complains, as where no value stands behind the option.
const COLOURS: &str = "white|black";

const KEYS: &str = "direct,buchholz,sb";

const BRACKET: Labels<'static> = Labels {
    name: "bracket",
    value: "K",
    help: "The number of the bracket, 1 to 1000; 1 is the first that is paired [required]",
};

const FROM: Labels<'static> = Labels {
    name: "from",
    value: "CURSOR",
    help: "Begins behind the candidate with this cursor, as an earlier run printed it [default: the first]",
};

const COUNT: Labels<'static> = Labels {
    name: "count",
    value: "N",
    help: "How many candidates to print at most, 1 to 10000 [default: 100]",
};

const PLAYER: Labels<'static> = Labels {
    name: "player",
    value: "P",
    help: "Tells of this player alone, by start rank, 1 to 9999 [default: of all]",
};

const INSTEAD: Labels<'static> = Labels {
    name: "instead",
    value: "Q",
    help: "Tells why he does not meet this one, 1 to 9999, or 0: why he has not the bye",
};

const ROUND: Labels<'static> = Labels {
    name: "round",
    value: "N",
    help: "Answers as on the report as it stood before round N, 1 to 64 [default: before the next round]",
};

const PLAYED_ROUND: Labels<'static> = Labels {
    name: "round",
    value: "N",
    help: "The round whose boards are printed, 1 to 64 [default: the last that was paired]",
};

const ROUNDS: Labels<'static> = Labels {
    name: "rounds",
    value: "N",
    help: "Rounds of the whole tournament, 1 to 64 [default: those of the report's XXR line]",
};

const INITIAL: Labels<'static> = Labels {
    name: "initial",
    value: COLOURS,
    help: "The initial colour, white or black [default: that of the report's XXC line]",
};

const STEPS: Labels<'static> = Labels {
    name: "steps",
    value: "N",
    help: "Steps that the search in a bracket may take, 0 to 1000000000 [default: 10000000]",
};

const REPORT_HELP: &str = "Prints the report with the new round in place of the boards";

const NOTES_HELP: &str =
    "Prints a line too for each thing of an accepted report that looks like a mistake, and for what was found where it is refused";

const POINTS_HELP: &str =
    "Writes each points field as the sum over the rounds that were paired, whatever it says";

const RENUMBER_HELP: &str =
    "Gives the players the start ranks 1, 2 and so on by rating, title and the start rank that they have";

const RANKS_HELP: &str =
    "Writes each player's place in the standings into columns 86 to 89, and a blank into column 85";

const BOARD_NAMES_HELP: &str = "Prints the boards with names and scores, in columns for the wall";

const PLAYED_NAMES_HELP: &str =
    "Prints the boards with names, scores before the round and results, in columns for the wall";

const PLAYER_NAMES_HELP: &str = "Prints the names too, in columns for the wall";

const GAMES_HELP: &str =
    "Prints a column for each round too: opponent, colour and result, or the bye's letter";

const WORDS_HELP: &str = "Tells it in sentences and with names, to be read out";

const BY: Labels<'static> = Labels {
    name: "by",
    value: KEYS,
    help: "What tells players of one score apart: one to three of direct, buchholz and sb, joined by commas, none twice [default: direct,buchholz,sb]",
};

const RANKED_BY: Labels<'static> = Labels {
    name: "by",
    value: KEYS,
    help: "With --ranks, what tells players of one score apart, as in standings [default: direct,buchholz,sb]",
};

const BYE: Labels<'static> = Labels {
    name: "bye",
    value: "N",
    help: "Half points that the pairing-allocated bye gives, 0 to 2 [default: 2]",
};

const ENTRIES: Labels<'static> = Labels {
    name: "entry",
    value: "ENTRY",
    help: "P:R, the result R of player P, one of 1 = 0 W D L + and -; P: for none yet; P:H, P:F or P:Z for a bye that P asked for; W-B or W-B:R, who met whom; W-0 for the pairing-allocated bye",
};

const ENTERED_ROUND: Labels<'static> = Labels {
    name: "round",
    value: "N",
    help: "The round of all entries, 1 to 64 [default: the last that was paired, and for H, F and Z the next one]",
};

const CORRECT_HELP: &str = "Replaces cells that say something else";

/// An option, as clap is told of it.
pub fn option_for<'a>(alloc: Global, which: OptionName) -> Arg<'a>
    ensures rule { rule_of result ≡ rule_for which }
    ensures local { result.global ≡ false }
{
    match which {
        OptionName::Bracket => bracket(alloc),
        OptionName::From => option(alloc, FROM),
        OptionName::Count => number(alloc, COUNT, counts()),
        OptionName::Player => number(alloc, PLAYER, players()),
        OptionName::Instead => number(alloc, INSTEAD, opponents()),
        OptionName::Round => few_rounds(alloc, ROUND),
        OptionName::PlayedRound => few_rounds(alloc, PLAYED_ROUND),
        OptionName::Rounds => few_rounds(alloc, ROUNDS),
        OptionName::Initial => option(alloc, INITIAL),
        OptionName::Steps => number(alloc, STEPS, limits()),
        OptionName::Report => flag(alloc, "report", REPORT_HELP),
        OptionName::Notes => flag(alloc, "notes", NOTES_HELP),
        OptionName::Points => flag(alloc, "points", POINTS_HELP),
        OptionName::Renumber => flag(alloc, "renumber", RENUMBER_HELP),
        OptionName::Ranks => flag(alloc, "ranks", RANKS_HELP),
        OptionName::RankedBy => option(alloc, RANKED_BY),
        OptionName::BoardNames => flag(alloc, "names", BOARD_NAMES_HELP),
        OptionName::PlayedNames => flag(alloc, "names", PLAYED_NAMES_HELP),
        OptionName::PlayerNames => flag(alloc, "names", PLAYER_NAMES_HELP),
        OptionName::Games => flag(alloc, "games", GAMES_HELP),
        OptionName::Words => flag(alloc, "words", WORDS_HELP),
        OptionName::By => option(alloc, BY),
        OptionName::Bye => number(alloc, BYE, half_points()),
        OptionName::Entries => some_words(alloc, ENTRIES),
        OptionName::EnteredRound => few_rounds(alloc, ENTERED_ROUND),
        OptionName::Correct => flag(alloc, "correct", CORRECT_HELP),
    }
}

// `--bracket K`.
#[tactic(auto, unfolding(crate::specs::CommandLine::bracket_rule))]
fn bracket<'a>(alloc: Global) -> Arg<'a>
    ensures rule { rule_of result ≡ bracket_rule }
    ensures local { result.global ≡ false }
{
    let numbers = value_parser!(u16).range(1..=1000);
    number(alloc, BRACKET, numbers).required(true)
}

// An option whose value is a number of rounds, or one of a round.
fn few_rounds<'a>(alloc: Global, labels: Labels<'a>) -> Arg<'a>
    ensures rule { rule_of result ≡ few_rounds_rule labels.entry.name.now }
    ensures local { result.global ≡ false }
{
    let rounds = value_parser!(u8).range(1..=MOST_ROUNDS as i64);
    number(alloc, labels, rounds)
}

// The numbers of candidates that may be asked for.
fn counts<'a>() -> ValueParser<'a>
    ensures { result ≡ Unsigned 1 10000 }
{
    value_parser!(usize).range(1..=10_000)
}

// The start ranks that a player may have.
fn players<'a>() -> ValueParser<'a>
    ensures { result ≡ Signed (pos 1) (pos 9999) }
{
    value_parser!(u16).range(1..=9999)
}

// The start ranks that an opponent may have, and 0 for the bye.
fn opponents<'a>() -> ValueParser<'a>
    ensures { result ≡ Signed (pos 0) (pos 9999) }
{
    value_parser!(u16).range(0..=9999)
}

// The limits of steps that may be set.
fn limits<'a>() -> ValueParser<'a>
    ensures { result ≡ Unsigned 0 1000000000 }
{
    value_parser!(u64).range(0..=1_000_000_000)
}

// The half points that the pairing-allocated bye may give.
fn half_points<'a>() -> ValueParser<'a>
    ensures { result ≡ Signed (pos 0) (pos 2) }
{
    value_parser!(u16).range(0..=2)
}

// An option whose value is a number that a parser reads.
fn number<'a>(alloc: Global, labels: Labels<'a>, parser: ValueParser<'a>) -> Arg<'a>
    ensures rule { rule_of result ≡ number_rule labels.entry.name.now parser.entry }
    ensures local { result.global ≡ false }
{
    option(alloc, labels).value_parser(parser)
}

// An option that takes one value.
fn option<'a>(alloc: Global, labels: Labels<'a>) -> Arg<'a>
    ensures rule { rule_of result ≡ option_rule labels.entry.name.now }
    ensures local { result.global ≡ false }
{
    Arg::new(alloc, labels.name)
        .long(labels.name)
        .value_name(labels.value)
        .help(labels.help)
}

// One word or more that no option is in front of.
fn some_words<'a>(alloc: Global, labels: Labels<'a>) -> Arg<'a>
    ensures rule { rule_of result ≡ words_rule_of labels.entry.name.now }
    ensures local { result.global ≡ false }
{
    word(alloc, labels).num_args(1..).required(true)
}

// A word that no option is in front of.
fn word<'a>(alloc: Global, labels: Labels<'a>) -> Arg<'a>
    ensures rule { rule_of result ≡ word_rule labels.entry.name.now }
    ensures local { result.global ≡ false }
{
    Arg::new(alloc, labels.name)
        .value_name(labels.value)
        .help(labels.help)
}

// An option without a value.
fn flag<'a>(alloc: Global, name: &'a str, help: &'a str) -> Arg<'a>
    ensures rule { rule_of result ≡ flag_rule name.entry.now }
    ensures local { result.global ≡ false }
{
    Arg::new(alloc, name)
        .long(name)
        .action(ArgAction::SetTrue)
        .help(help)
}
