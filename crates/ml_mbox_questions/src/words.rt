// What words ask for.
ghost use Rattle.std.specs.Prelude.{◌≡◌};
ghost use Rattle.ml_mbox_questions.specs.Words as spec;

use crate::{ImportWords, MboxQuery};
use ml_base::{is_post_number, read_number};

/// The mailbox that two words name: the numbers of its first post and of its last, each from 1 to 99,999,999 and spelled as `read_number` takes
/// numbers. None if one of them is no such word.
pub fn mbox_query(a: &[u8], b: &[u8]) -> Option<MboxQuery>
    ensures { result ≡ spec.mbox_query a.now b.now }
{
    let first = read_post_number(a)?;
    let last = read_post_number(b)?;
    Some(MboxQuery { first, last })
}

/// What the word of an import says: the number of its first item, from 1 to `LAST_IMPORT_START` and spelled as `read_number` takes numbers.
/// None if it is no such word.
pub fn import_words(first: &[u8]) -> Option<ImportWords>
    ensures { result ≡ spec.import_words first.now }
{
    ImportWords::new(read_number(first)?)
}

// The post number that a text spells.
fn read_post_number(text: &[u8]) -> Option<u64>
    ensures { result ≡ spec.post_number_in text.now }
{
    let number = read_number(text)?;
    if is_post_number(number) {
        Some(number)
    } else {
        None
    }
}
