// Cookies under a list's keys.
ghost use Rattle.std.specs.Prelude.{◌≡◌, IsTrue};
ghost use Rattle.ml_address.specs.Requests.{is_cookie as is_letters};
ghost use Rattle.ml_plain.specs.Mailing as spec;
ghost use Rattle.ml_plain.specs.Plain.{Plain};
ghost use Rattle.ml_acts.specs.Cookies.{cookie_of};

use ml_address::{cookie, cookie_good};
use ml_base::Set;
use ml_config::{Former, Keys};

/// The cookie under the key, for a kind of change of a set, a moment, and what is changed: 20 letters `a` to `p`.
pub fn new_cookie(keys: &Keys, kind: &[u8], set: Set, moment: u64, what: &[u8]) -> [u8; 20]
    ensures cookie { result ≡ cookie_of keys.now kind.now set moment what.now }
    ensures letters { IsTrue (is_letters result) }
    ensures value { (p : Plain) → p.keys ≡ keys.now → result ≡ spec.new_cookie p kind.now set moment what.now }
{
    cookie(&keys.key, kind, set.word(), moment, what)
}

/// Whether letters are a cookie under the key, or under the former key up to its change, and the cookie is of this moment or at most
/// 1,000,000 seconds older.
pub fn is_good(
    keys: &Keys,
    kind: &[u8],
    set: Set,
    moment: u64,
    what: &[u8],
    letters: &[u8; 20],
    now: u64,
) -> bool
    ensures { (p : Plain) → p.keys ≡ keys.now → result ≡ spec.is_good p kind.now set moment what.now letters.now now }
{
    let word = set.word();
    match &keys.former {
        Some(former) => cookie_good(
            &keys.key,
            Some(&former.key),
            former.changed,
            kind,
            word,
            moment,
            what,
            letters,
            now,
        ),
        None => cookie_good(&keys.key, None, 0, kind, word, moment, what, letters, now),
    }
}

/// Whether letters are a cookie under the key, or under the former key up to its change, whatever its age.
pub fn is_cookie(
    keys: &Keys,
    kind: &[u8],
    set: Set,
    moment: u64,
    what: &[u8],
    letters: &[u8; 20],
) -> bool
    ensures { (p : Plain) → p.keys ≡ keys.now → result ≡ spec.is_cookie p kind.now set moment what.now letters.now }
{
    is_good(keys, kind, set, moment, what, letters, moment)
}
