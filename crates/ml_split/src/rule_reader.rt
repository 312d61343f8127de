// Reads rules from a text.
ghost use Rattle.std.specs.Prelude.{◌≡◌, Ok, IfOk, IfErr};
ghost use Rattle.std.specs.List.{list_all};
ghost use Rattle.std.specs.Option.{option_map};
ghost use Rattle.ml_base.specs.Numbers as numbers;
ghost use Rattle.ml_split.specs.Reading.{IsBadOf, as_rule, rule_in, rules_in};
ghost use Rattle.ml_split.specs.Rules as spec;

use crate::{Rule, Rules};
use ml_base::{Bytes, is_host_byte, number_within, split_first, split_line};
use std::alloc::{AllocError, Global};
use thiserror::Error;

// The highest bucket.
const LAST_BUCKET: u64 = 52;

// The longest name of a part.
const MAX_NAME: usize = 60;

/// Why a text gives no rules.
#[derive(Clone, Copy, Debug, PartialEq, Eq, Error)]
pub enum RulesError {
    /// The first line that isn't a rule begins at this byte, counted from 0.
    #[error("no rule at byte {at}")]
    Bad { at: u64 },
    #[error("out of memory")]
    Memory,
}

impl From<AllocError> for RulesError {
    ghost use Rattle.std.specs.Prelude.{◌≡◌};
    ghost use Rattle.ml_split.specs.declared.rule_reader.RulesError.TheVariants.{Memory};

    ghost from_gives = { λ _ e. e ≡ Memory };

    fn from(_: AllocError) -> Self {
        RulesError::Memory
    }
}

// A rule as a line spells it: its texts are parts of the line.
#[derive(Clone, Copy)]
struct Line<'a> {
    domain: &'a [u8],
    low: u8,
    high: u8,
    name: &'a [u8],
}

// Whether a text has only bytes that a host has, as a domain must.
fn is_domain(text: &[u8]) -> bool
    ensures { result ≡ spec.is_domain text.now }
{
    text.iter().all(|byte| is_host_byte(*byte))
}

// Whether a text is the name of a part.
fn is_name(text: &[u8]) -> bool
    ensures { result ≡ spec.is_name text.now }
{
    1 <= text.len() && text.len() <= MAX_NAME && is_domain(text) && text != b"-".as_slice()
}

// The bucket that a text spells in decimal, or None if it spells none.
fn read_bucket(text: &[u8]) -> Option<u8>
    ensures { result ≡ numbers.number_within 52 text.now }
{
    let bucket = number_within(LAST_BUCKET, text)?;
    Some(bucket as u8)
}

// The rule that a line spells, its LF included, or None if it spells none.
#[tactic(auto, unfolding(crate::specs::Reading::rule_in))]
fn read_rule(line: &[u8]) -> Option<Line<'_>>
    ensures { option_map as_rule result ≡ rule_in line.now }
{
    let (domain, rest) = split_first(b':', line)?;
    let (low, rest) = split_first(b':', rest)?;
    let (high, rest) = split_first(b':', rest)?;
    let (name, rest) = split_first(b'\n', rest)?;
    let low = read_bucket(low)?;
    let high = read_bucket(high)?;
    if !rest.is_empty() {
        return None;
    }
    if is_domain(domain) && low <= high && is_name(name) {
        Some(Line {
            domain,
            low,
            high,
            name,
        })
    } else {
        None
    }
}

// The rule, with its texts in memory of their own.
fn kept_rule(alloc: Global, line: Line<'_>) -> Result<Rule, AllocError>
    ensures { IfOk result (λ rule. rule ≡ as_rule line.entry) }
{
    Ok(Rule {
        domain: Bytes::from_slice(alloc, line.domain)?,
        low: line.low,
        high: line.high,
        name: Bytes::from_slice(alloc, line.name)?,
    })
}

/// The rules that a text spells, one a line: `DOMAIN:LO:HI:NAME` and an LF. DOMAIN is empty or a host, LO and HI are
/// buckets, 0 to 52 in decimal, LO no higher than HI, and NAME is 1 to 60 letters, digits, `-`, `_` or `.`, but not `-`.
/// `Bad` has the place of the first line that isn't such a rule; a line without LF is none.
pub fn read_rules(alloc: Global, text: &[u8]) -> Result<Rules, RulesError>
    ensures ok { IfOk result (λ rules. rules_in text.now ≡ Ok rules) }
    ensures bad { IfErr result (λ e. IsBadOf e text.now) }
{
    let mut rules = Rules::new(alloc);
    let mut rest = text;
    while let Some((line, more)) = split_line(rest) {
        let Some(rule) = read_rule(line) else {
            let at = (text.len() - rest.len()) as u64;
            return Err(RulesError::Bad { at });
        };
        rules.push(kept_rule(alloc, rule)?)?;
        rest = more;
    }
    Ok(rules)
}
