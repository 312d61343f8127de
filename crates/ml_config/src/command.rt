// The command `make`, and how `clap` reads its words.
ghost use Rattle.std.specs.Prelude.{◌≡◌, ◌∷◌, [], true, false, map, IfOk, IsTrue, MatchResult};
ghost use Rattle.std.specs.List.{fold, list_all};
ghost use Rattle.ml_config.specs.Flags.{flag_rule, is_named};
ghost use Rattle.clap.specs.Words.{app_of, found_of, rows_of, rule_of, with_rule};
ghost use Rattle.ml_config.specs.Make.{bare_make, letter_rule, make_app, option_rule, required_option, word_rule};
ghost use Rattle.ml_config.specs.MakeWords.{are_of_make, make_rows, texts};
ghost use Rattle.ml_config.specs.declared.words.ConfigError.TheVariants.{Usage};

use crate::ConfigError;
use clap::error::ErrorKind;
use clap::{Arg, ArgAction, ArgMatches, Command};
use std::alloc::{AllocError, Global};

// Every letter, as an id and as a flag.
const LETTERS: [(&str, char); 28] = [
    ("b", 'b'),
    ("d", 'd'),
    ("f", 'f'),
    ("g", 'g'),
    ("h", 'h'),
    ("j", 'j'),
    ("k", 'k'),
    ("l", 'l'),
    ("m", 'm'),
    ("p", 'p'),
    ("r", 'r'),
    ("s", 's'),
    ("t", 't'),
    ("u", 'u'),
    ("B", 'B'),
    ("D", 'D'),
    ("F", 'F'),
    ("G", 'G'),
    ("H", 'H'),
    ("J", 'J'),
    ("K", 'K'),
    ("L", 'L'),
    ("M", 'M'),
    ("P", 'P'),
    ("R", 'R'),
    ("S", 'S'),
    ("T", 'T'),
    ("U", 'U'),
];

fn letter(alloc: Global, id: &str, letter: char) -> Arg<'_>
    requires { id.now ≡ letter ∷ [] }
    ensures rule { rule_of result ≡ letter_rule letter }
    ensures global { result.global ≡ false }
{
    Arg::new(alloc, id).short(letter).action(ArgAction::SetTrue)
}

fn option(alloc: Global, name: &str) -> Arg<'_>
    ensures rule { rule_of result ≡ option_rule name.now }
    ensures global { result.global ≡ false }
{
    Arg::new(alloc, name).long(name).action(ArgAction::Set)
}

fn word(alloc: Global, name: &str) -> Arg<'_>
    ensures rule { rule_of result ≡ word_rule name.now }
    ensures global { result.global ≡ false }
{
    Arg::new(alloc, name).required(true).action(ArgAction::Set)
}

// `make` before its arguments are added.
fn bare<'a>(alloc: Global) -> Command<'a>
    ensures { app_of result ≡ bare_make }
{
    Command::new(alloc, "make")
        .disable_help_flag(true)
        .disable_version_flag(true)
        .no_binary_name(true)
}

// The command with a flag for each of these letters.
fn with_letters<'a>(
    alloc: Global,
    bare: Command<'a>,
    table: &[(&'a str, char)],
) -> Result<Command<'a>, AllocError>
    requires { IsTrue (list_all is_named table.now) }
    ensures { IfOk result (λ command. app_of command ≡ fold with_rule (app_of bare.entry) (map flag_rule table.now)) }
{
    let mut command = bare;
    for (id, flag) in table {
        command = command.arg(letter(alloc, *id, *flag))?;
    }
    Ok(command)
}

// The command `make`.
fn make<'a>(alloc: Global) -> Result<Command<'a>, AllocError>
    ensures { IfOk result (λ command. app_of command ≡ make_app) }
{
    with_letters(alloc, bare(alloc), &LETTERS)?
        .arg(option(alloc, "prefix"))?
        .arg(option(alloc, "max"))?
        .arg(option(alloc, "key").required(true))?
        .arg(word(alloc, "local"))?
        .arg(word(alloc, "host"))?
        .arg(word(alloc, "owner"))
}

// The matches of the words, or `Usage` if the words aren't those of the command.
pub(crate) fn matches<'a>(alloc: Global, words: &'a [String]) -> Result<ArgMatches<'a>, ConfigError>
    ensures { MatchResult result
        (λ m. (are_of_make (texts words.now) ≡ true) × (rows_of (found_of m) ≡ make_rows (texts words.now)))
        (λ e. e ≡ Usage → are_of_make (texts words.now) ≡ false) }
{
    let command = make(alloc)?;
    match command.try_get_matches_from(words) {
        Ok(matches) => Ok(matches),
        Err(error) => match error.kind() {
            ErrorKind::OutOfMemory => Err(ConfigError::Memory),
            _ => Err(ConfigError::Usage),
        },
    }
}
