// The words of the command line: the table of commands, a row a line.
ghost use Rattle.std.specs.Prelude.{◌≡◌, ◌≤◌, ◌<◌, ◌^◌, ◌∷◌, [], IfOk, length};
ghost use Rattle.hex.specs.Hex.{IsBytes};
ghost use Rattle.ml_base.specs.Address.{IsAddress, address_of};
ghost use Rattle.ml_base.specs.Name.{set_of};
ghost use Rattle.ml_base.specs.Numbers.{number_of};
ghost use Rattle.ml_config.specs.MakeWords.{key_of, make_of};
ghost use Rattle.ml_mbox_questions.specs.Words.{import_words, mbox_query};
ghost use Rattle.ml_reading.specs.declared.queries.Query.TheVariants as queries;
ghost use Rattle.ml_stream.specs.Stream.{item_number_of, positive_within};
ghost use Rattle.ml_command.specs.Reading.{InRange, Reads};
ghost use Rattle.ml_command.specs.Words.{asked, asked_by, command_of, held, part, path_of, table, texts};
ghost use Rattle.ml_command.specs.Words as spec;
ghost use Rattle.ml_command.specs.declared.inquiries.Inquiry.TheVariants as inquiries;
ghost use Rattle.ml_command.specs.declared.words.Command.TheVariants as commands;

use crate::inquiries::Inquiry;
use hex::decode_to_slice;
use ml_base::{
    Address, AddressError, Bytes, LAST_DRAWN, LAST_ITEM, LONGEST_PATH, Set, number_within,
    read_number,
};
use ml_config::{Config, ConfigError, config_from_words};
use ml_mbox_questions::{ImportWords, import_words, mbox_query};
use ml_pages_questions::{PageQuery, month_query, thread_query};
use ml_plain::Act;
use ml_reading::Query;
use ml_split_questions::MoveWords;
use std::alloc::{AllocError, Global};

const MOST_ITEMS: u64 = 1_000_000;

const MOST_EXERCISED: u64 = 999_999;

/// What words ask for.
#[derive(Drop)]
pub(crate) enum Command {
    /// To answer the items of the input, at most so many.
    Spool(u64),
    /// To deliver the input under a number.
    Deliver {
        number: u64,
        sender: Bytes,
        recipient: Bytes,
    },
    /// To make a list.
    Make {
        config: Config,
        key: [u8; 32],
    },
    /// To exercise a list with so many items.
    Exercise(u64),
    /// To answer one item of this number.
    Single(u64, Act),
    /// To answer an inquiry about a list.
    Give(Inquiry),
}

/// Why words ask for nothing.
#[derive(Clone, Copy)]
pub(crate) enum WordsError {
    /// They are no command.
    NoCommand,
    /// One of them holds no value of its place.
    BadWord,
    /// There was no memory for the call.
    Memory,
}

impl From<AllocError> for WordsError {
    ghost use Rattle.ml_command.specs.declared.words.WordsError.TheVariants.{Memory};

    ghost from_gives = { λ _ e. e ≡ Memory };

    fn from(_: AllocError) -> Self {
        WordsError::Memory
    }
}

/// What words ask for, or why they ask for nothing.
pub(crate) fn read_words(alloc: Global, words: &[String]) -> Result<Command, WordsError>
    ensures value { Reads (command_of (texts words.now)) result }
    ensures ranges { IfOk result InRange }
{
    match words {
        [name, rest @ ..] => read_named(alloc, name.as_str(), rest),
        [] => Err(WordsError::NoCommand),
    }
}

// What a name and the words after it ask for.
fn read_named(alloc: Global, name: &str, words: &[String]) -> Result<Command, WordsError>
    ensures value { Reads (command_of (name.now ∷ texts words.now)) result }
    ensures ranges { IfOk result InRange }
{
    if name == "make" {
        read_make(alloc, words)
    } else {
        read_row(alloc, name, words)
    }
}

// What the words after `make` ask for.
fn read_make(alloc: Global, words: &[String]) -> Result<Command, WordsError>
    ensures value { Reads (spec.made (make_of (texts words.now))) result }
    ensures ranges { IfOk result InRange }
{
    match config_from_words(alloc, words) {
        Ok(made) => {
            let (config, key) = made;
            Ok(Command::Make { config, key })
        }
        Err(ConfigError::Usage) => Err(WordsError::NoCommand),
        Err(ConfigError::Memory) => Err(WordsError::Memory),
    }
}

// What a name and the words after it ask for by the table, whose rows have at most four words after the name.
fn read_row(alloc: Global, name: &str, words: &[String]) -> Result<Command, WordsError>
    ensures value { Reads (asked_by table name.now (texts words.now)) result }
    ensures ranges { IfOk result InRange }
{
    match words {
        [] => alone(name),
        [a] => with_one(name, a.as_str()),
        [a, b] => with_two(name, a.as_str(), b.as_str()),
        [a, b, c] => with_three(alloc, name, a.as_str(), b.as_str(), c.as_str()),
        [a, b, c, d] => with_four(alloc, name, a.as_str(), b.as_str(), c.as_str(), d.as_str()),
        [_, _, _, _, _, ..] => Err(WordsError::NoCommand),
    }
}

// The rows of a name alone.
fn alone(name: &str) -> Result<Command, WordsError>
    ensures value { result ≡ asked_by table name.now [] }
    ensures ranges { IfOk result InRange }
{
    match name {
        "spool" => Ok(Command::Spool(MOST_ITEMS)),
        "queue" => Ok(Command::Give(Inquiry::Query(Query::Queue))),
        "check" => Ok(Command::Give(Inquiry::Check)),
        _ => Err(WordsError::NoCommand),
    }
}

// The rows of a name and one word.
fn with_one(name: &str, a: &str) -> Result<Command, WordsError>
    ensures value { result ≡ asked_by table name.now (a.now ∷ []) }
    ensures ranges { IfOk result InRange }
{
    match name {
        "exercise" => Ok(Command::Exercise(positive(MOST_EXERCISED, a)?)),
        "timed" => Ok(Command::Single(item_number(a)?, Act::Timed)),
        "list" => Ok(members(read_set(a)?, false)),
        "out" => Ok(entry(number(a)?)),
        "show" => Ok(post(number(a)?)),
        "pages" if a == "list" => Ok(Command::Give(Inquiry::Pages(PageQuery::List))),
        "import" => Ok(Command::Give(Inquiry::Import(first_item(a)?))),
        "split" => Ok(Command::Give(Inquiry::Split(read_set(a)?))),
        _ => Err(WordsError::NoCommand),
    }
}

// The rows of a name and two words.
fn with_two(name: &str, a: &str, b: &str) -> Result<Command, WordsError>
    ensures value { result ≡ asked_by table name.now (a.now ∷ b.now ∷ []) }
    ensures ranges { IfOk result InRange }
{
    match name {
        "spool" if a == "-m" => Ok(Command::Spool(positive(MOST_ITEMS, b)?)),
        "rekey" => {
            let (number, key) = (item_number(a)?, key(b)?);
            Ok(Command::Single(number, Act::Rekey { key }))
        }
        "floor" => {
            let (number, at) = (item_number(a)?, positive(LAST_ITEM, b)?);
            Ok(Command::Single(number, Act::Floor { at }))
        }
        "sent" => {
            let (number, id) = (item_number(a)?, positive(LAST_DRAWN, b)?);
            Ok(Command::Single(number, Act::Sent { id }))
        }
        "list" if a == "-t" => Ok(members(read_set(b)?, true)),
        "mbox" => mailbox(a, b),
        _ => Err(WordsError::NoCommand),
    }
}

// The rows of a name and three words.
fn with_three(alloc: Global, name: &str, a: &str, b: &str, c: &str) -> Result<Command, WordsError>
    ensures value { Reads (asked_by table name.now (a.now ∷ b.now ∷ c.now ∷ [])) result }
    ensures ranges { IfOk result InRange }
{
    match name {
        "deliver" => Ok(Command::Deliver {
            number: item_number(a)?,
            sender: path(alloc, b)?,
            recipient: path(alloc, c)?,
        }),
        "sub" => {
            let (number, set, who) = (item_number(a)?, read_set(b)?, address(alloc, c)?);
            Ok(Command::Single(number, Act::Add { set, who }))
        }
        "unsub" => {
            let (number, set, who) = (item_number(a)?, read_set(b)?, address(alloc, c)?);
            Ok(Command::Single(number, Act::Remove { set, who }))
        }
        "pages" if a == "month" => page(month_query(b.as_bytes(), c.as_bytes())),
        "pages" if a == "thread" => page(thread_query(b.as_bytes(), c.as_bytes())),
        _ => Err(WordsError::NoCommand),
    }
}

// The rows of a name and four words.
fn with_four(
    alloc: Global,
    name: &str,
    a: &str,
    b: &str,
    c: &str,
    d: &str,
) -> Result<Command, WordsError>
    ensures value { Reads (asked_by table name.now (a.now ∷ b.now ∷ c.now ∷ d.now ∷ [])) result }
    ensures ranges { IfOk result InRange }
{
    match name {
        "split" if a == "-a" => move_part(alloc, true, b, c, d),
        "split" if a == "-r" => move_part(alloc, false, b, c, d),
        _ => Err(WordsError::NoCommand),
    }
}

// The members of a set, with the moment since when each is there or without.
fn members(set: Set, moments: bool) -> Command
    ensures { result ≡ commands.Give (inquiries.Query (queries.Members set moments)) }
{
    Command::Give(Inquiry::Query(Query::Members { set, moments }))
}

// The entry of an id.
fn entry(id: u64) -> Command
    ensures { result ≡ commands.Give (inquiries.Query (queries.Entry id)) }
{
    Command::Give(Inquiry::Query(Query::Entry { id }))
}

// The post of a number.
fn post(n: u64) -> Command
    ensures { result ≡ commands.Give (inquiries.Query (queries.Post n)) }
{
    Command::Give(Inquiry::Query(Query::Post { n }))
}

// A page, if words name one.
fn page(query: Option<PageQuery>) -> Result<Command, WordsError>
    ensures value { result ≡ held (spec.paged query) }
    ensures ranges { IfOk result InRange }
{
    match query {
        Some(query) => Ok(Command::Give(Inquiry::Pages(query))),
        None => Err(WordsError::BadWord),
    }
}

// The mailbox of the posts from the number of one word to that of another.
fn mailbox(first: &str, last: &str) -> Result<Command, WordsError>
    ensures value { result ≡ held (spec.ranged (mbox_query first.now last.now)) }
    ensures ranges { IfOk result InRange }
{
    match mbox_query(first.as_bytes(), last.as_bytes()) {
        Some(query) => Ok(Command::Give(Inquiry::Mailbox(query))),
        None => Err(WordsError::BadWord),
    }
}

// The stream of the part of a name, numbered from the number of a word on, which adds to the set of a word or removes from it.
fn move_part(
    alloc: Global,
    into: bool,
    first: &str,
    set_word: &str,
    name: &str,
) -> Result<Command, WordsError>
    ensures value { Reads (asked part (spec.moved into) (first.now ∷ set_word.now ∷ name.now ∷ [])) result }
    ensures ranges { IfOk result InRange }
{
    let (first, set) = (number(first)?, read_set(set_word)?);
    let name = Bytes::from_slice(alloc, name.as_bytes())?;
    match MoveWords::new(into, first, set, name) {
        Some(words) => Ok(Command::Give(Inquiry::Move(words))),
        None => Err(WordsError::BadWord),
    }
}

// Any number.
fn number(word: &str) -> Result<u64, WordsError>
    ensures { result ≡ held (number_of word.now) }
{
    read_number(word.as_bytes()).ok_or(WordsError::BadWord)
}

// The number of an item: 0 to 999,999,999,999.
#[tactic(auto, using(crate::proofs::Given::within_given))]
fn item_number(word: &str) -> Result<u64, WordsError>
    ensures value { result ≡ held (item_number_of word.now) }
    ensures range { IfOk result (λ number. number ≤ 999_999_999_999) }
{
    match number_within(LAST_ITEM, word.as_bytes()) {
        Some(number) => Ok(number),
        None => Err(WordsError::BadWord),
    }
}

// A number from 1 up to a largest one.
#[tactic(auto, using(crate::proofs::Given::within_given))]
fn positive(most: u64, word: &str) -> Result<u64, WordsError>
    requires { most < 10 ^ 18 }
    ensures value { result ≡ held (positive_within most word.now) }
    ensures range { IfOk result (λ number. (1 ≤ number) × (number ≤ most)) }
{
    match number_within(most, word.as_bytes()) {
        Some(0) | None => Err(WordsError::BadWord),
        Some(number) => Ok(number),
    }
}

// The number of the first item of an import.
fn first_item(word: &str) -> Result<ImportWords, WordsError>
    ensures { result ≡ held (import_words word.now) }
{
    import_words(word.as_bytes()).ok_or(WordsError::BadWord)
}

fn read_set(word: &str) -> Result<Set, WordsError>
    ensures { result ≡ held (set_of word.now) }
{
    Set::of_word(word.as_bytes()).ok_or(WordsError::BadWord)
}

// The key of 64 hexadecimal digits, in either case.
fn key(digits: &str) -> Result<[u8; 32], WordsError>
    ensures value { result ≡ held (key_of digits.now) }
    ensures range { IfOk result (λ key. (length key ≡ 32) × IsBytes key) }
{
    let mut key = [0u8; 32];
    match decode_to_slice(digits, &mut key) {
        Ok(()) => Ok(key),
        Err(_) => Err(WordsError::BadWord),
    }
}

// A sender or a recipient.
fn path(alloc: Global, word: &str) -> Result<Bytes, WordsError>
    ensures value { Reads (held (path_of word.now)) result }
    ensures range { IfOk result (λ path. length path ≤ 1000) }
{
    if word.len() > LONGEST_PATH as usize {
        return Err(WordsError::BadWord);
    }
    Ok(Bytes::from_slice(alloc, word.as_bytes())?)
}

fn address(alloc: Global, word: &str) -> Result<Address, WordsError>
    ensures value { Reads (held (address_of word.now)) result }
    ensures range { IfOk result IsAddress }
{
    match Address::parse(alloc, word.as_bytes()) {
        Ok(address) => Ok(address),
        Err(AddressError::Fault(_)) => Err(WordsError::BadWord),
        Err(AddressError::Memory) => Err(WordsError::Memory),
    }
}
