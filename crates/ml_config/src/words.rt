// What the words of `make` mean: the configuration and the key that they give.
ghost use Rattle.std.specs.Prelude.{◌≡◌, IfOk, MatchResult, Some, None};
ghost use Rattle.std.specs.Option.{option_map};
ghost use Rattle.ml_config.specs.Configuration.{IsConfig, config_of};
ghost use Rattle.clap.specs.Words.{first_of, found_of, rows_of};
ghost use Rattle.ml_config.specs.MakeWords.{Gives, default_prefix, flags_of, is_given, key_of, made_of, make_of, max_of, option_of, prefix_of, texts};
ghost use Rattle.ml_config.specs.declared.words.ConfigError.TheVariants.{Memory, Usage};
ghost use Rattle.ml_config.specs.MakeWords as spec;

use crate::command::matches;
use crate::value_ranges::{checked, is_prefix_text};
use crate::{Config, Flags};
use clap::ArgMatches;
use clap::parser::ValueSource;
use hex::decode_to_slice;
use ml_base::{Bytes, read_number};
use std::alloc::{AllocError, Global};
use thiserror::Error;

const USUAL_MAX: u64 = 1_048_576;

/// Why words gave no configuration.
#[derive(Clone, Copy, Debug, PartialEq, Eq, Error)]
pub enum ConfigError {
    /// The words are not those of `make`.
    #[error("not the words of `make`")]
    Usage,
    /// There was no memory for the call.
    #[error("out of memory")]
    Memory,
}

impl From<AllocError> for ConfigError {
    ghost from_gives = { λ _ e. e ≡ Memory };

    fn from(_: AllocError) -> Self {
        ConfigError::Memory
    }
}

/// The configuration and the key that the words after `make` give.
///
/// The words are `[LETTERS] [--prefix TEXT] [--max BYTES] --key HEX LOCAL HOST OWNER`: a flag for each letter, in lower
/// case to set its option and in upper case to clear it, the prefix of subjects, the most bytes of a post, the key as 64
/// hexadecimal digits, the parts of the list's address, and its owner's address. `Usage` comes only if the words are
/// not those, a letter is there in both cases, or a value is out of its range.
pub fn config_from_words(alloc: Global, words: &[String]) -> Result<(Config, [u8; 32]), ConfigError>
    ensures made { Gives (make_of (texts words.now)) result }
    ensures ranges { IfOk result (λ made. IsConfig made.0) }
{
    let matches = matches(alloc, words)?;
    make_config(alloc, &matches)
}

// The configuration and the key that matches give.
#[tactic(auto, using(crate::proofs::MatchLemmas::first_value_is), unfolding(crate::specs::MakeWords::made_of))]
fn make_config(alloc: Global, matches: &ArgMatches) -> Result<(Config, [u8; 32]), ConfigError>
    ensures made { Gives (made_of (rows_of (found_of matches.now))) result }
    ensures ranges { IfOk result (λ made. IsConfig made.0) }
{
    let flags = flags(matches)?;
    let local = text(matches, "local")?;
    let host = text(matches, "host")?;
    let owner = text(matches, "owner")?;
    let max = max(matches.get_str("max"))?;
    let prefix = prefix(alloc, flags.f, local, matches.get_str("prefix"))?;
    let key = key(text(matches, "key")?)?;
    let config = configuration(alloc, flags, local, host, owner, prefix, max)?;
    Ok((config, key))
}

fn configuration(
    alloc: Global,
    flags: Flags,
    local: &str,
    host: &str,
    owner: &str,
    prefix: Bytes,
    max: u64,
) -> Result<Config, ConfigError>
    ensures made { Gives (config_of flags local.now host.now owner.now prefix max) result }
    ensures ranges { IfOk result IsConfig }
{
    let made = checked(
        alloc,
        flags,
        local.as_bytes(),
        host.as_bytes(),
        owner.as_bytes(),
        prefix,
        max,
    )?;
    match made {
        Some(config) => Ok(config),
        None => Err(ConfigError::Usage),
    }
}

// The text of an argument.
#[tactic(auto, using(crate::proofs::MatchLemmas::first_value_is))]
fn text<'a>(matches: &ArgMatches<'a>, id: &str) -> Result<&'a str, ConfigError>
    ensures { MatchResult result (λ s. first_of id.now (rows_of (found_of matches.now)) ≡ Some s.now) (λ e. e ≡ Usage → first_of id.now (rows_of (found_of matches.now)) ≡ None) }
{
    match matches.get_str(id) {
        Some(text) => Ok(text),
        None => Err(ConfigError::Usage),
    }
}

// Whether a value came from the words, and isn't a default.
fn is_from_words(source: Option<ValueSource>) -> bool
    ensures { result ≡ spec.is_from_words source }
{
    matches!(source, Some(ValueSource::CommandLine))
}

// Whether a flag was given.
#[tactic(auto, using(crate::proofs::MatchLemmas::given_is))]
fn is_there(matches: &ArgMatches, id: &str) -> bool
    ensures { result ≡ is_given id.now (rows_of (found_of matches.now)) }
{
    is_from_words(matches.value_source(id))
}

// Whether an option is set, given the flags that set and clear it.
fn option(
    matches: &ArgMatches,
    otherwise: bool,
    set: &str,
    clear: &str,
) -> Result<bool, ConfigError>
    ensures { Gives (option_of (rows_of (found_of matches.now)) otherwise set.now clear.now) result }
{
    match (is_there(matches, set), is_there(matches, clear)) {
        (true, true) => Err(ConfigError::Usage),
        (true, false) => Ok(true),
        (false, true) => Ok(false),
        (false, false) => Ok(otherwise),
    }
}

// The options.
#[tactic(auto, unfolding(crate::specs::MakeWords::flags_of))]
fn flags(matches: &ArgMatches) -> Result<Flags, ConfigError>
    ensures { Gives (flags_of (rows_of (found_of matches.now))) result }
{
    Ok(Flags {
        b: option(matches, false, "b", "B")?,
        d: option(matches, false, "d", "D")?,
        f: option(matches, false, "f", "F")?,
        g: option(matches, false, "g", "G")?,
        h: option(matches, false, "h", "H")?,
        j: option(matches, false, "j", "J")?,
        k: option(matches, false, "k", "K")?,
        l: option(matches, false, "l", "L")?,
        m: option(matches, false, "m", "M")?,
        p: option(matches, true, "p", "P")?,
        r: option(matches, false, "r", "R")?,
        s: option(matches, false, "s", "S")?,
        t: option(matches, false, "t", "T")?,
        u: option(matches, false, "u", "U")?,
    })
}

// The most bytes of a post, from the text of `--max`.
fn max(given: Option<&str>) -> Result<u64, ConfigError>
    ensures { Gives (max_of (option_map (λ s. s.now) given.entry)) result }
{
    match given {
        None => Ok(USUAL_MAX),
        Some(text) => read_number(text.as_bytes()).ok_or(ConfigError::Usage),
    }
}

// The prefix, from the text of `--prefix`.
fn prefix(
    alloc: Global,
    marks: bool,
    local: &str,
    given: Option<&str>,
) -> Result<Bytes, ConfigError>
    ensures { Gives (prefix_of marks local.now (option_map (λ s. s.now) given.entry)) result }
{
    match given {
        None => Ok(usual_prefix(alloc, marks, local)?),
        Some(text) => {
            if !is_prefix_text(text.as_bytes()) {
                return Err(ConfigError::Usage);
            }
            Ok(Bytes::from_slice(alloc, text.as_bytes())?)
        }
    }
}

// The prefix if there is no `--prefix`.
fn usual_prefix(alloc: Global, marks: bool, local: &str) -> Result<Bytes, AllocError>
    ensures { IfOk result (λ prefix. prefix ≡ default_prefix marks local.now) }
{
    let mut out = Bytes::new(alloc);
    if marks {
        out.push(b'[')?;
        out.extend(local.as_bytes())?;
        out.push(b']')?;
    }
    Ok(out)
}

// The key that 64 hexadecimal digits spell.
fn key(digits: &str) -> Result<[u8; 32], ConfigError>
    ensures { Gives (key_of digits.now) result }
{
    let mut key = [0u8; 32];
    if decode_to_slice(digits, &mut key).is_err() {
        return Err(ConfigError::Usage);
    }
    Ok(key)
}
