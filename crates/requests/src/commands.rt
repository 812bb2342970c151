// The commands of the program, and how clap is told of them. Each has the texts of its help and a list of its options,
// and one loop tells clap of those: clap's command is a large struct, and a proof lists all of it for each call that
// may fail.
ghost use Rattle.std.specs.Prelude.{◌≡◌, IfOk, false};
ghost use Rattle.clap.specs.declared.Command.{out-Command as fields_of};
ghost use Rattle.clap.specs.Words.{app_of, new_app};
ghost use Rattle.requests.specs.CommandLine.{HasSameGlobals, app_for, with_options};
ghost use Rattle.requests.specs.OneCommand.{command_by};

use crate::arguments::{OptionName, option_for};
use clap::Command;
use std::alloc::{AllocError, Global};

/// A command, unless memory was refused on the way to it.
pub type CommandResult<'a> = Result<Command<'a>, AllocError>;

/// Which command of the program is meant.
#[derive(Clone, Copy)]
pub enum CommandName {
    Check,
    Format,
    Enter,
    Pair,
    Boards,
    Candidates,
    Explain,
    Standings,
    Sheet,
}

/// The commands, in the order in which help lists them.
pub const COMMANDS: [CommandName; 9] = [
    CommandName::Check,
    CommandName::Format,
    CommandName::Enter,
    CommandName::Pair,
    CommandName::Boards,
    CommandName::Candidates,
    CommandName::Explain,
    CommandName::Standings,
    CommandName::Sheet,
];

/// The texts of a command's help.
#[derive(Clone, Copy)]
pub struct HelpTexts<'a> {
    /// What the command does, in a line.
    pub about: &'a str,
    /// How it is called: a report is read from standard input, and no file is named.
    pub usage: &'a str,
    /// What is read and printed, with examples.
    pub after_help: &'a str,
}

// `check`: its options, and the texts of its help.
const CHECK: [OptionName; 2] = [OptionName::Notes, OptionName::Bye];

const CHECK_TEXTS: HelpTexts<'static> = HelpTexts {
    about: "Tells how many players and rounds the report has, or why it is refused",
    usage: "arbiter check [OPTIONS] < REPORT",
    after_help: "The report is read from standard input. Printed are the numbers of its players and of the rounds that were paired; why it is refused goes to standard error.\n\nExample: arbiter check < report.trf",
};

// `format`: its options, and the texts of its help.
const FORMAT: [OptionName; 6] = [
    OptionName::Points,
    OptionName::Renumber,
    OptionName::Ranks,
    OptionName::RankedBy,
    OptionName::Round,
    OptionName::Bye,
];

const FORMAT_TEXTS: HelpTexts<'static> = HelpTexts {
    about: "Writes the report in canonical columns, or tells why it is refused",
    usage: "arbiter format [OPTIONS] < REPORT",
    after_help: "The report is read from standard input. Printed is each player's line in TRF16's columns, and each other line as it stands.\n\nExamples:\n  arbiter format < report.trf > canonical.trf\n  arbiter format --points --ranks < report.trf > final.trf",
};

// `enter`: its options, and the texts of its help.
const ENTER: [OptionName; 4] = [
    OptionName::Entries,
    OptionName::EnteredRound,
    OptionName::Correct,
    OptionName::Bye,
];

const ENTER_TEXTS: HelpTexts<'static> = HelpTexts {
    about: "Enters results and byes, and writes the report with them",
    usage: "arbiter enter [OPTIONS] <ENTRY>... < REPORT",
    after_help: "The report is read from standard input. Printed is the report in canonical columns with the entries in it; each points field that is not blank is summed, and nothing else is changed. The opponent gets the other side of a result, unless an entry in front names them: 12:0 7:0 is a game that both lost. A cell that says something else is replaced with --correct alone.\n\nExamples:\n  arbiter enter 12:1 7:= 3:+ 21:H < round-4.trf > results.trf\n  arbiter enter --correct 12:0 < results.trf\n  arbiter enter --round 1 1-5 6-2 3-0 < players.trf",
};

// `pair`: its options, and the texts of its help.
const PAIR: [OptionName; 7] = [
    OptionName::Round,
    OptionName::Rounds,
    OptionName::Initial,
    OptionName::Steps,
    OptionName::BoardNames,
    OptionName::Report,
    OptionName::Bye,
];

const PAIR_TEXTS: HelpTexts<'static> = HelpTexts {
    about: "Pairs the next round, or tells that there is no pairing",
    usage: "arbiter pair [OPTIONS] < REPORT",
    after_help: "The report is read from standard input. Printed are the number of lines that follow, and then a line 'white black' for each board, in start ranks; 'player 0' is the bye.\n\nExample: arbiter pair --rounds 7 --initial white < report.trf",
};

// `boards`: its options, and the texts of its help.
const BOARDS: [OptionName; 3] = [
    OptionName::PlayedRound,
    OptionName::PlayedNames,
    OptionName::Bye,
];

const BOARDS_TEXTS: HelpTexts<'static> = HelpTexts {
    about: "Lists the boards of a round as they stand in the report",
    usage: "arbiter boards [OPTIONS] < REPORT",
    after_help: "The report is read from standard input. Printed are the boards of the round in the form and order of pair, whoever has paired it.\n\nExamples:\n  arbiter boards < report.trf\n  arbiter boards --round 3 --names < report.trf",
};

// `candidates`: its options, and the texts of its help.
const CANDIDATES: [OptionName; 8] = [
    OptionName::Bracket,
    OptionName::From,
    OptionName::Count,
    OptionName::Round,
    OptionName::Rounds,
    OptionName::Initial,
    OptionName::Steps,
    OptionName::Bye,
];

const CANDIDATES_TEXTS: HelpTexts<'static> = HelpTexts {
    about: "Lists the legal candidates of a bracket in the order of article D",
    usage: "arbiter candidates [OPTIONS] --bracket <K> < REPORT",
    after_help: "The report is read from standard input. Printed are the bracket's kind and shape, and then a line for each candidate: its cursor, its pairs in start ranks, and who moves down; the last line says 'end', or 'more' where the count was reached first.\n\nExample: arbiter candidates --bracket 1 --count 20 < report.trf",
};

// `explain`: its options, and the texts of its help.
const EXPLAIN: [OptionName; 8] = [
    OptionName::Player,
    OptionName::Instead,
    OptionName::Round,
    OptionName::Rounds,
    OptionName::Initial,
    OptionName::Steps,
    OptionName::Words,
    OptionName::Bye,
];

const EXPLAIN_TEXTS: HelpTexts<'static> = HelpTexts {
    about: "Tells why the next round is paired as it is, bracket by bracket, or for one player",
    usage: "arbiter explain [OPTIONS] < REPORT",
    after_help: "The report is read from standard input. Printed are the round, and for each bracket its players with their scores, what is chosen in it, the criteria that count against that (C.6 to C.19; lists of score differences, the highest first), and each board with the rule of article E that decided its colours. With --player it is told of him and of his brackets, and with --instead the first rule that keeps him from this one. With --words it is told in sentences and with names.\n\nExamples:\n  arbiter explain < report.trf\n  arbiter explain --player 5 --instead 4 < report.trf\n  arbiter explain --player 5 --instead 0 < report.trf\n  arbiter explain --words --player 5 < report.trf",
};

// `standings`: its options, and the texts of its help.
const STANDINGS: [OptionName; 5] = [
    OptionName::By,
    OptionName::PlayerNames,
    OptionName::Games,
    OptionName::Round,
    OptionName::Bye,
];

const STANDINGS_TEXTS: HelpTexts<'static> = HelpTexts {
    about: "Ranks the players by score and by the keys that break ties",
    usage: "arbiter standings [OPTIONS] < REPORT",
    after_help: "The report is read from standard input. Printed is a line for each player: place, start rank, score, and the keys.\n\nExample: arbiter standings --by buchholz,sb < report.trf",
};

// `sheet`: its options, and the texts of its help.
const SHEET: [OptionName; 3] = [OptionName::By, OptionName::Round, OptionName::Bye];

const SHEET_TEXTS: HelpTexts<'static> = HelpTexts {
    about: "Shows the whole event on one HTML page, for the wall and the web",
    usage: "arbiter sheet [OPTIONS] < REPORT",
    after_help: "The report is read from standard input. Printed is a page that any browser shows and prints: the boards of each round, the players by name, the standings with all games, and the list of players. It has no script and loads nothing.\n\nExample: arbiter sheet < report.trf > event.html",
};

/// The command that a word names, if it names one.
pub fn find_command(word: &str) -> Option<CommandName>
    ensures { result ≡ command_by word.now }
{
    match word {
        "check" => Some(CommandName::Check),
        "format" => Some(CommandName::Format),
        "enter" => Some(CommandName::Enter),
        "pair" => Some(CommandName::Pair),
        "boards" => Some(CommandName::Boards),
        "candidates" => Some(CommandName::Candidates),
        "explain" => Some(CommandName::Explain),
        "standings" => Some(CommandName::Standings),
        "sheet" => Some(CommandName::Sheet),
        _ => None,
    }
}

/// A command of the program.
pub fn command_for<'a>(alloc: Global, which: CommandName) -> CommandResult<'a>
    ensures app { IfOk result (λ command. app_of command ≡ app_for which) }
    ensures local { IfOk result (λ command. (fields_of command).has_globals ≡ false) }
{
    let texts = texts_of(which);
    match which {
        CommandName::Check => command_with(alloc, "check", texts, &CHECK),
        CommandName::Format => command_with(alloc, "format", texts, &FORMAT),
        CommandName::Enter => command_with(alloc, "enter", texts, &ENTER),
        CommandName::Pair => command_with(alloc, "pair", texts, &PAIR),
        CommandName::Boards => command_with(alloc, "boards", texts, &BOARDS),
        CommandName::Candidates => command_with(alloc, "candidates", texts, &CANDIDATES),
        CommandName::Explain => command_with(alloc, "explain", texts, &EXPLAIN),
        CommandName::Standings => command_with(alloc, "standings", texts, &STANDINGS),
        CommandName::Sheet => command_with(alloc, "sheet", texts, &SHEET),
    }
}

// The texts of a command's help.
fn texts_of(which: CommandName) -> HelpTexts<'static> {
    match which {
        CommandName::Check => CHECK_TEXTS,
        CommandName::Format => FORMAT_TEXTS,
        CommandName::Enter => ENTER_TEXTS,
        CommandName::Pair => PAIR_TEXTS,
        CommandName::Boards => BOARDS_TEXTS,
        CommandName::Candidates => CANDIDATES_TEXTS,
        CommandName::Explain => EXPLAIN_TEXTS,
        CommandName::Standings => STANDINGS_TEXTS,
        CommandName::Sheet => SHEET_TEXTS,
    }
}

// A command with the texts of its help and with its options.
fn command_with<'a>(
    alloc: Global,
    name: &'a str,
    texts: HelpTexts<'a>,
    options: &[OptionName],
) -> CommandResult<'a>
    ensures app { IfOk result (λ command. app_of command ≡ with_options (new_app name.entry.now) options.now) }
    ensures local { IfOk result (λ command. (fields_of command).has_globals ≡ false) }
{
    with_options(alloc, command_named(alloc, name, texts), options)
}

// A command with some more options.
fn with_options<'a>(
    alloc: Global,
    command: Command<'a>,
    options: &[OptionName],
) -> CommandResult<'a>
    ensures app { IfOk result (λ made. app_of made ≡ with_options (app_of command.entry) options.now) }
    ensures local { IfOk result (HasSameGlobals command.entry) }
{
    let mut made = command;
    for option in options {
        made = made.arg(option_for(alloc, *option))?;
    }
    Ok(made)
}

/// A command with the texts of its help, and with no options yet.
pub fn command_named<'a>(alloc: Global, name: &'a str, texts: HelpTexts<'a>) -> Command<'a>
    ensures app { app_of result ≡ new_app name.entry.now }
    ensures local { (fields_of result).has_globals ≡ false }
{
    Command::new(alloc, name)
        .about(texts.about)
        .override_usage(texts.usage)
        .after_help(texts.after_help)
}
