//! The words of a command line as `clap` reads them: one command with exactly its words.

ghost use Rattle.std.specs.Prelude.{◌≡◌, ◌≤◌, ◌+◌, ◌∷◌, ◌++◌, ℕ, true, false, length, map, [], IfOk, IsErrOf, Ok, Some};
ghost use Rattle.std.specs.Prelude.{List};
ghost use Rattle.std.specs.List.{AllByRecursion};
ghost use Rattle.std.specs.Vec.{vec_capacity};
ghost use Rattle.clap.specs.declared.builder.arg.Arg.{Arg as Argument};
ghost use Rattle.clap.specs.declared.builder.command.Command.{Command as Made};
ghost use Rattle.clap.specs.Simple.{new_app};
ghost use Rattle.clap.specs.Words.{AddsArg, app_of, rule_of, rows_of, found_of, first_of};
ghost use Rattle.command_words.specs.Forms.{Form, words_of, IsNamed, IsPlain, ArePlain, texts};
ghost use Rattle.command_words.specs.App.{bare as bare_app, check_app, ipbus, load_app, needed_word, serve_app};
ghost use Rattle.command_words.specs.App.{HasShapeBelow, IsFor, name_of, rows_of_form};
ghost use Rattle.command_words.specs.Read.{form_of};

use clap::error::ErrorKind;
use clap::{Arg, ArgMatches, Command, Error};
use std::alloc::{AllocError, Global};

/// The names of the commands that are a name alone.
const ALONE: [&str; 7] = [
    "run",
    "audit",
    "record",
    "describe",
    "undescribe",
    "save",
    "apply",
];

/// A command that is a name alone, or another and the words behind its name as they are written.
#[derive(Clone, Copy)]
pub(crate) enum Line<'a> {
    Alone(&'a str),
    Check(&'a str),
    Serve(&'a str, &'a str),
    Load(&'a str),
}

/// Why words are no command, or were not read.
#[derive(Clone, Copy)]
pub(crate) enum LineError {
    Usage,
    NoMemory,
}

/// A command with one word more, which has to be there.
fn with_word<'a>(
    alloc: Global,
    command: Command<'a>,
    word: &'a str,
) -> Result<Command<'a>, AllocError>
    ensures { IfOk result (λ c. (arg : Argument) × (rule_of arg ≡ needed_word word.entry.now) × (arg.global ≡ false)
        × AddsArg command.entry arg c) }
{
    command.arg(Arg::new(alloc, word).required(true))
}

/// The command `serve`, with its two words.
fn serve<'a>(alloc: Global) -> Result<Command<'a>, AllocError>
    ensures app { IfOk result (λ c. app_of c ≡ serve_app) }
    ensures below { IfOk result HasShapeBelow }
{
    let with_port = with_word(alloc, Command::new(alloc, "serve"), "port")?;
    with_word(alloc, with_port, "count")
}

/// Commands, and behind them one that was to be made, if it could be.
fn with_made<'a>(
    commands: Vec<Command<'a>>,
    made: Result<Command<'a>, AllocError>,
) -> Result<Vec<Command<'a>>, AllocError>
    requires room { length commands.items + 1 ≤ vec_capacity commands }
    ensures behind { IfOk result (λ cs. (c : Made) × (made.entry ≡ Ok c) × (cs.items ≡ commands.entry.items ++ c ∷ [])) }
    ensures room { IfOk result (λ cs. vec_capacity cs ≡ vec_capacity commands.entry) }
{
    let command = made?;
    let mut commands = commands;
    commands.push_reserved(command);
    Ok(commands)
}

/// The commands that have words, with room for all others.
fn worded<'a>(alloc: Global) -> Result<Vec<Command<'a>>, AllocError>
    ensures apps { IfOk result (λ cs. map app_of cs.items ≡ check_app ∷ serve_app ∷ load_app ∷ []) }
    ensures below { IfOk result (λ cs. AllByRecursion HasShapeBelow cs.items) }
    ensures room { IfOk result (λ cs. 10 ≤ vec_capacity cs) }
{
    let none = Vec::with_capacity(alloc, 3 + ALONE.len())?;
    let check = with_word(alloc, Command::new(alloc, "check"), "table");
    let with_check = with_made(none, check)?;
    let with_serve = with_made(with_check, serve(alloc))?;
    let load = with_word(alloc, Command::new(alloc, "load"), "count");
    with_made(with_serve, load)
}

/// Commands, and behind them commands of these names, which have no words.
fn with_alone<'a>(alloc: Global, commands: Vec<Command<'a>>, names: &[&'a str]) -> Vec<Command<'a>>
    requires room { length commands.items + length names.now ≤ vec_capacity commands }
    ensures apps { map app_of result.items ≡ map app_of commands.entry.items ++ map (λ name. new_app name.now) names.now }
    ensures below { AllByRecursion HasShapeBelow commands.entry.items → AllByRecursion HasShapeBelow result.items }
{
    match names {
        [name, rest @ ..] => {
            let mut more = commands;
            more.push_reserved(Command::new(alloc, name));
            with_alone(alloc, more, rest)
        }
        [] => commands,
    }
}

/// The program without its commands. There is no help and no version, and a command has to be there.
fn bare<'a>(alloc: Global) -> Command<'a>
    ensures { app_of result ≡ bare_app }
{
    Command::new(alloc, "ipbus")
        .no_binary_name(true)
        .disable_help_flag(true)
        .disable_help_subcommand(true)
        .disable_version_flag(true)
        .subcommand_required(true)
}

/// The program with its commands.
fn command<'a>(alloc: Global) -> Result<Command<'a>, AllocError>
    ensures { IfOk result (λ c. app_of c ≡ ipbus) }
{
    let commands = with_alone(alloc, worded(alloc)?, &ALONE);
    bare(alloc).subcommands(commands)
}

/// What clap finds in words of which none begins with a hyphen.
fn matches_for<'a>(alloc: Global, words: &'a [String]) -> Result<ArgMatches<'a>, LineError>
    requires plain { ArePlain (texts words.now) }
    ensures ok { IfOk result (λ m. (s : Form) × IsNamed s × (texts words.now ≡ words_of s) × IsFor s m) }
    ensures usage { IsErrOf result LineError.Usage → (s : Form) → IsNamed s → texts words.now ≡ words_of s → ⊥ }
{
    let Ok(command) = command(alloc) else {
        return Err(LineError::NoMemory);
    };
    match command.try_get_matches_from(words) {
        Ok(matches) => Ok(matches),
        Err(error) => {
            if error.kind() == ErrorKind::OutOfMemory {
                Err(LineError::NoMemory)
            } else {
                Err(LineError::Usage)
            }
        }
    }
}

/// The command that was entered, with its words.
fn line_of<'a>(matches: &ArgMatches<'a>) -> Line<'a>
    ensures { (s : Form) → IsNamed s → IsFor s matches.now → form_of result ≡ s }
{
    match matches.subcommand() {
        Some((name, inner)) => entered(name, inner),
        None => Line::Alone(""),
    }
}

/// The command of this name, with the words that it was given.
fn entered<'a>(name: &'a str, matches: &ArgMatches<'a>) -> Line<'a>
    ensures { (s : Form) → IsNamed s → name.now ≡ name_of s → rows_of (found_of matches.now) ≡ rows_of_form s
        → form_of result ≡ s }
{
    match name {
        "check" => Line::Check(word(matches, "table")),
        "serve" => Line::Serve(word(matches, "port"), word(matches, "count")),
        "load" => Line::Load(word(matches, "count")),
        name => Line::Alone(name),
    }
}

/// The word of this name.
fn word<'a>(matches: &ArgMatches<'a>, id: &str) -> &'a str
    ensures { (t : List ℕ) → first_of id.now (rows_of (found_of matches.now)) ≡ Some t → result.now ≡ t }
{
    matches.get_str(id).unwrap_or("")
}

/// Whether a word begins with a hyphen.
fn begins_with_hyphen(word: &str) -> bool
    ensures no { result ≡ false → IsPlain word.now }
    ensures yes { result ≡ true → ¬ IsPlain word.now }
{
    match word.as_bytes() {
        [first, ..] => *first == b'-',
        [] => false,
    }
}

/// Whether a word of these begins with a hyphen.
fn has_hyphen(words: &[String]) -> bool
    ensures no { result ≡ false → ArePlain (texts words.now) }
    ensures yes { result ≡ true → ¬ ArePlain (texts words.now) }
{
    match words {
        [word, rest @ ..] => begins_with_hyphen(word.as_str()) || has_hyphen(rest),
        [] => false,
    }
}

/// The command that words name, with its words. `Usage` comes exactly where they name none.
pub(crate) fn read_line<'a>(alloc: Global, words: &'a [String]) -> Result<Line<'a>, LineError>
    ensures ok { IfOk result (λ line. (texts words.now ≡ words_of (form_of line)) × IsNamed (form_of line)
        × ArePlain (texts words.now)) }
    ensures usage { IsErrOf result LineError.Usage → (s : Form) → IsNamed s → texts words.now ≡ words_of s
        → ArePlain (texts words.now) → ⊥ }
{
    if has_hyphen(words) {
        return Err(LineError::Usage);
    }
    let matches = matches_for(alloc, words)?;
    Ok(line_of(&matches))
}
