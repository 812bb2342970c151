// The words of the command line: which command they ask for, or what help or refusal they get.
ghost use Rattle.std.specs.Prelude.{◌≡◌, ◌++◌, ◌∷◌, [], IfOk, map, false, codes};
ghost use Rattle.clap.specs.declared.Command.{out-Command as fields_of};
ghost use Rattle.clap.specs.Words.{app_of, kind_of, new_app, subcommand_rows_of};
ghost use Rattle.dutch_arrangements.specs.Prelude.{has_syntax};
ghost use Rattle.requests.specs.CommandLine.{HasSameGlobals, app_for};
ghost use Rattle.requests.specs.OneCommand.{app_with, first_command};
ghost use Rattle.requests.specs.Options.{rows_in};
ghost use Rattle.requests.specs.Words as meanings;

use crate::commands::{
    COMMANDS, CommandName, CommandResult, HelpTexts, command_for, command_named, find_command,
};
use crate::entries_in::enter_options;
use crate::options;
use crate::options::WordFault;
use clap::error::ErrorKind;
use clap::{ArgMatches, Command, Error};
use dutch_arrangements::Cursor;
use std::alloc::{AllocError, Global};

/// A command of the program, with its options.
#[derive(Drop)]
pub enum Request<'a> {
    /// Tells whether a report is accepted.
    Check(options::CheckOptions),
    /// Writes a report in canonical columns.
    Format(options::FormatOptions),
    /// Enters results and byes.
    Enter(options::EnterOptions),
    /// Pairs the next round.
    Pair(options::PairOptions),
    /// Lists the boards of a round that was paired.
    Boards(options::BoardsOptions),
    /// Lists candidates of a bracket.
    Candidates(options::CandidatesOptions<'a>),
    /// Tells why the next round is paired as it is.
    Explain(options::ExplainOptions),
    /// Ranks the players.
    Standings(options::StandingsOptions),
    /// Shows the whole event on one page.
    Sheet(options::SheetOptions),
}

/// A request, and what its report is read by.
#[derive(Drop)]
pub struct Task<'a> {
    /// What is asked for.
    pub request: Request<'a>,
    /// What the pairing-allocated bye gives in the report, in half points: at most 2.
    pub bye: u16,
}

/// What the words of a command line come to.
#[derive(Drop)]
pub enum Meaning<'a> {
    /// They ask for a command.
    Command(Task<'a>),
    /// They ask for help or the version, which is this text.
    Help(String),
    /// They are refused by clap, for the reason that the text gives.
    Mistake(String),
    /// They are refused for what an option says.
    Refused(WordFault),
}

/// The words as `read_words` reads them: `help` in front of some words stands for `--help` behind them, and so does
/// `help help`.
///
/// # Errors
/// Memory was refused.
pub fn meant_words<'a>(alloc: Global, words: &'a [&'a str]) -> Result<Vec<&'a str>, AllocError>
    ensures { IfOk result (λ all. map (λ word. word.now) all.items
        ≡ meanings.meant_words (map (λ word. word.now) words.now)) }
{
    let Some((first, rest)) = words.split_first() else {
        return Ok(Vec::new(alloc));
    };
    match *first {
        "help" => with_help(alloc, rest),
        _ => Vec::from_slice(alloc, words),
    }
}

// The words behind `help`, without another `help` at their front, and with `--help` behind them.
fn with_help<'a>(alloc: Global, words: &'a [&'a str]) -> Result<Vec<&'a str>, AllocError>
    ensures { IfOk result (λ all. map (λ word. word.now) all.items
        ≡ meanings.without_help (map (λ word. word.now) words.now) ++ codes "--help" ∷ []) }
{
    let Some((first, rest)) = words.split_first() else {
        return with_flag(alloc, words);
    };
    match *first {
        "help" => with_flag(alloc, rest),
        _ => with_flag(alloc, words),
    }
}

// Some words with `--help` behind them.
fn with_flag<'a>(alloc: Global, words: &'a [&'a str]) -> Result<Vec<&'a str>, AllocError>
    ensures { IfOk result (λ all. map (λ word. word.now) all.items
        ≡ map (λ word. word.now) words.now ++ codes "--help" ∷ []) }
{
    let mut all = Vec::from_slice(alloc, words)?;
    all.push("--help")?;
    Ok(all)
}

/// Reads the words after the program's name.
pub fn read_words<'a>(alloc: Global, words: &'a [&'a str]) -> Result<Meaning<'a>, AllocError>
    ensures { IfOk result (meanings.ComesTo (map (λ word. word.now) words.now)) }
{
    match arbiter_command(alloc, words)?.try_get_matches_from(words) {
        Ok(matches) => {
            let Some(task) = task_in(alloc, &matches)? else {
                unreachable!();
            };
            Ok(asked_by(task))
        }
        Err(error) => meaning_of_error(alloc, &error),
    }
}

// The task that clap's matches make, or what is wrong with its options.
fn task_in<'a>(
    alloc: Global,
    matches: &ArgMatches<'a>,
) -> Result<Option<Result<Task<'a>, WordFault>>, AllocError>
    ensures { IfOk result (λ made. made ≡ meanings.task_by (subcommand_rows_of matches.now)) }
{
    match matches.subcommand() {
        Some((name, options)) => task_of(alloc, name, options),
        None => Ok(None),
    }
}

// The task that a command and its options make, or what is wrong with them; none if there is no such command.
fn task_of<'a>(
    alloc: Global,
    name: &str,
    options: &ArgMatches<'a>,
) -> Result<Option<Result<Task<'a>, WordFault>>, AllocError>
    ensures { IfOk result (λ made. made ≡ meanings.task_of name.now (rows_in options.now)) }
{
    match request_of(alloc, name, options)? {
        Some(request) => Ok(Some(with_bye(options::bye_in(options), request))),
        None => Ok(None),
    }
}

// A request over a report in which the pairing-allocated bye gives so many half points, or what is wrong with its
// options.
fn with_bye<'a>(bye: u16, request: Result<Request<'a>, WordFault>) -> Result<Task<'a>, WordFault>
    ensures { result ≡ meanings.with_bye bye request.entry }
{
    match request {
        Ok(request) => Ok(Task { request, bye }),
        Err(fault) => Err(fault),
    }
}

// The request that a command and its options make, or what is wrong with them; none if there is no such command.
fn request_of<'a>(
    alloc: Global,
    name: &str,
    options: &ArgMatches<'a>,
) -> Result<Option<Result<Request<'a>, WordFault>>, AllocError>
    ensures { IfOk result (λ made. made ≡ meanings.request_of name.now (rows_in options.now)) }
{
    match name {
        "enter" => Ok(Some(enter_request(alloc, options)?)),
        _ => Ok(other_request_of(name, options)),
    }
}

// The request that a command other than `enter` makes.
fn other_request_of<'a>(
    name: &str,
    options: &ArgMatches<'a>,
) -> Option<Result<Request<'a>, WordFault>>
    ensures { result ≡ meanings.other_request_of name.now (rows_in options.now) }
{
    match name {
        "check" => Some(Ok(Request::Check(options::check_options(options)))),
        "format" => Some(format_request(options)),
        "pair" => Some(pair_request(options)),
        "boards" => Some(Ok(Request::Boards(options::boards_options(options)))),
        "candidates" => Some(candidates_request(options)),
        "explain" => Some(explain_request(options)),
        "standings" => Some(standings_request(options)),
        "sheet" => Some(sheet_request(options)),
        _ => None,
    }
}

// The request of `enter`.
fn enter_request<'a>(
    alloc: Global,
    options: &ArgMatches<'a>,
) -> Result<Result<Request<'a>, WordFault>, AllocError>
    ensures { IfOk result (λ made. made ≡ meanings.enter_request (rows_in options.now)) }
{
    match enter_options(alloc, options)? {
        Ok(options) => Ok(Ok(Request::Enter(options))),
        Err(fault) => Ok(Err(fault)),
    }
}

// The request of `format`.
#[tactic(auto, unfolding(crate::specs::Words::format_request))]
fn format_request<'a>(options: &ArgMatches<'a>) -> Result<Request<'a>, WordFault>
    ensures { result ≡ meanings.format_request (rows_in options.now) }
{
    Ok(Request::Format(options::format_options(options)?))
}

// The request of `pair`.
#[tactic(auto, unfolding(crate::specs::Words::pair_request))]
fn pair_request<'a>(options: &ArgMatches<'a>) -> Result<Request<'a>, WordFault>
    ensures { result ≡ meanings.pair_request (rows_in options.now) }
{
    Ok(Request::Pair(options::pair_options(options)?))
}

// The request of `candidates`.
#[tactic(auto, unfolding(crate::specs::Words::candidates_request))]
fn candidates_request<'a>(options: &ArgMatches<'a>) -> Result<Request<'a>, WordFault>
    ensures { result ≡ meanings.candidates_request (rows_in options.now) }
{
    Ok(Request::Candidates(options::candidates_options::<Cursor>(options)?))
}

// The request of `explain`.
#[tactic(auto, unfolding(crate::specs::Words::explain_request))]
fn explain_request<'a>(options: &ArgMatches<'a>) -> Result<Request<'a>, WordFault>
    ensures { result ≡ meanings.explain_request (rows_in options.now) }
{
    Ok(Request::Explain(options::explain_options(options)?))
}

// The request of `standings`.
#[tactic(auto, unfolding(crate::specs::Words::standings_request))]
fn standings_request<'a>(options: &ArgMatches<'a>) -> Result<Request<'a>, WordFault>
    ensures { result ≡ meanings.standings_request (rows_in options.now) }
{
    Ok(Request::Standings(options::standings_options(options)?))
}

// The request of `sheet`.
#[tactic(auto, unfolding(crate::specs::Words::sheet_request))]
fn sheet_request<'a>(options: &ArgMatches<'a>) -> Result<Request<'a>, WordFault>
    ensures { result ≡ meanings.sheet_request (rows_in options.now) }
{
    Ok(Request::Sheet(options::sheet_options(options)?))
}

impl options::CursorSyntax for Cursor {
    ghost is_cursor = { has_syntax };

    fn is_cursor(text: &str) -> bool {
        Cursor::syntax(text)
    }
}

// What a task comes to, or what is wrong with its options.
fn asked_by<'a>(task: Result<Task<'a>, WordFault>) -> Meaning<'a>
    ensures { result ≡ meanings.asked_by task.entry }
{
    match task {
        Ok(task) => Meaning::Command(task),
        Err(fault) => Meaning::Refused(fault),
    }
}

// What an error of clap's comes to.
fn meaning_of_error<'a>(alloc: Global, error: &Error) -> Result<Meaning<'a>, AllocError>
    ensures { IfOk result (meanings.FitsKind (kind_of error.now)) }
{
    match error.kind() {
        ErrorKind::OutOfMemory => Err(AllocError),
        ErrorKind::DisplayHelp | ErrorKind::DisplayVersion => {
            Ok(Meaning::Help(error.to_string(alloc)?))
        }
        _ => Ok(Meaning::Mistake(error.to_string(alloc)?)),
    }
}

// The command that the first of some words names, if it names one.
fn first_command(words: &[&str]) -> Option<CommandName>
    ensures { result ≡ first_command (map (λ word. word.now) words.now) }
{
    let (word, _) = words.split_first()?;
    find_command(word)
}

// The program's command line as some words need it: with the command that the first one names, or else with all of
// them. (To tell clap of all commands takes half of the time in which a small report is checked.)
#[tactic(auto, unfolding(crate::specs::Words::arbiter_app, crate::specs::Words::with_engine, crate::specs::Words::with_tables))]
fn arbiter_command<'a>(alloc: Global, words: &[&str]) -> CommandResult<'a>
    ensures app { IfOk result
        (λ command. app_of command ≡ app_with (first_command (map (λ word. word.now) words.now))) }
    ensures local { IfOk result (λ command. (fields_of command).has_globals ≡ false) }
{
    let command = with_settings(bare_command(alloc)?);
    match first_command(words) {
        Some(name) => with_named(alloc, command, name),
        None => with_commands(alloc, command, &COMMANDS),
    }
}

// A program with some more of its commands.
fn with_commands<'a>(
    alloc: Global,
    command: Command<'a>,
    names: &[CommandName],
) -> CommandResult<'a>
    ensures app { IfOk result (λ made. app_of made ≡ meanings.with_commands (app_of command.entry) names.now) }
    ensures local { IfOk result (HasSameGlobals command.entry) }
{
    let mut made = command;
    for name in names {
        made = with_named(alloc, made, *name)?;
    }
    Ok(made)
}

// A program with one more of its commands.
fn with_named<'a>(alloc: Global, command: Command<'a>, name: CommandName) -> CommandResult<'a>
    ensures app { IfOk result (λ made. app_of made ≡ meanings.with_command (app_of command.entry) (app_for name)) }
    ensures local { IfOk result (HasSameGlobals command.entry) }
{
    match command_for(alloc, name) {
        Ok(more) => command.subcommand(more),
        Err(error) => {
            // A call drops it in one step of the proof; left to the end, each of its fields is a step.
            drop(command);
            Err(error)
        }
    }
}

// The name and the texts of the program.
#[tactic(auto, unfolding(crate::specs::Words::with_version))]
fn bare_command<'a>(alloc: Global) -> CommandResult<'a>
    ensures app { IfOk result (λ command. app_of command ≡ meanings.with_version (new_app (codes "arbiter"))) }
    ensures local { IfOk result (λ command. (fields_of command).has_globals ≡ false) }
{
    command_named(
        alloc,
        "arbiter",
        HelpTexts {
            about: "Pairs, explains, checks, rewrites and ranks a chess tournament whose report, in TRF16 columns, is read from standard input",
            usage: "arbiter <COMMAND> [OPTIONS] < REPORT",
            after_help: "arbiter help COMMAND prints what arbiter COMMAND --help prints. A report is read from standard input: without < at a terminal the program waits for one.\n\nThe exit status is 0 where all is done, 1 where the report is refused, 2 where the words are, 3 where there is no pairing, 4 where the steps ended first, and 5 where a device failed or memory was refused.\n\nExample: arbiter pair < report.trf",
        },
    )
    .version("1.2 (FIDE C.04.3, 2017; TRF16)")
    .bin_name("arbiter")
}

// A command that takes all words as arguments, and wants a command among them. clap adds the command `help` to those
// that help lists; `meant_words` leaves it no words to answer.
#[tactic(auto, unfolding(crate::specs::Words::with_settings))]
fn with_settings<'a>(command: Command<'a>) -> Command<'a>
    ensures app { app_of result ≡ meanings.with_settings (app_of command.entry) }
    ensures local { (fields_of result).has_globals ≡ (fields_of command.entry).has_globals }
{
    command
        .no_binary_name(true)
        .subcommand_required(true)
        .arg_required_else_help(true)
}
