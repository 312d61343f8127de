// The keys of a list, and the file that holds them.
ghost use Rattle.std.specs.Prelude.{◌≡◌, ◌≤◌, ◌<◌, IsTrue, IfOk, IfErr, IfSome, IsErrOf, Some, None, Option, [], ◌∷◌};
ghost use Rattle.std.specs.Option.{option_copied};
ghost use Rattle.ml_base.specs.Dir.{Dir, are_files, with_puts};
ghost use Rattle.ml_base.specs.Ranges.{IsMoment};
ghost use Rattle.ml_base.specs.PartErrors.{OnDamaged};
ghost use Rattle.ml_base.specs.ReadFiles.{IsReading, NamesDamaged};
ghost use Rattle.ml_base.specs.declared.part_error.PartError.TheVariants.{Fault};
ghost use Rattle.ml_config.specs.KeyFile.{AreKeys, IsFormer, IsKeyFile, former_text, key_name, keys_put, keys_text};
ghost use Rattle.ml_config.specs.declared.key_file.Former.{Former};
ghost use Rattle.ml_config.specs.declared.key_file.Keys.{Keys};

use ml_base::{Bytes, Files, Name, PartError, Put, Txn, is_moment};
use std::alloc::{AllocError, Global};

/// A key that another has replaced. A key is a secret, so it has no `Debug`.
#[derive(Clone, Copy, PartialEq, Eq)]
pub struct Former {
    pub key: [u8; 32],
    /// When it was replaced, in seconds since 1970 and before the year 10000.
    pub changed: u64,
}

/// The key of a list, and the one before it if the key was replaced. Keys are secrets, so they have no `Debug`.
#[derive(Clone, Copy, PartialEq, Eq)]
pub struct Keys {
    pub key: [u8; 32],
    pub former: Option<Former>,
}

/// The keys that the list's files hold. `Damaged` names the file of the keys, and comes only if it is absent or holds
/// no keys. `Fault` comes only if a read failed.
pub fn key<F: Files>(alloc: Global, files: &mut F) -> Result<Keys, PartError>
    ensures read { IsTrue F.tells → (keys : Keys) → IsKeyFile (F.map files.old key_name) keys → IfOk result (λ found. found ≡ keys) }
    ensures value { IsTrue F.tells → IfOk result (IsKeyFile (F.map files.old key_name)) }
    ensures names { NamesDamaged ⟦<F as Files>⟧ (λ name. name ≡ key_name) (λ _. (keys : Keys) → ¬ IsKeyFile (F.map files.old key_name) keys) result }
    ensures sound { IsTrue F.tells → (keys : Keys) → IsKeyFile (F.map files.old key_name) keys → IfErr result (λ e. OnDamaged e (λ _. ⊥)) }
    ensures reads { IsReading ⟦<F as Files>⟧ files.old files.new result }
{
    let file = files.get(alloc, Name::KEY)?;
    match keys_of(file.as_ref()) {
        Some(keys) => Ok(keys),
        None => Err(PartError::Damaged(Name::KEY)),
    }
}

// The keys that a file holds, or None if it is absent or holds none.
fn keys_of(file: Option<&Bytes>) -> Option<Keys>
    ensures read { (keys : Keys) → IsKeyFile (option_copied file.entry) keys → result ≡ Some keys }
    ensures value { IfSome result (IsKeyFile (option_copied file.entry)) }
{
    read_keys(file?.as_slice())
}

// The keys that 32 or 72 bytes spell, or None for other bytes.
fn read_keys(bytes: &[u8]) -> Option<Keys>
    ensures read { (keys : Keys) → AreKeys keys → bytes.now ≡ keys_text keys → result ≡ Some keys }
    ensures value { IfSome result (λ keys. AreKeys keys × (bytes.now ≡ keys_text keys)) }
{
    let (key, rest) = bytes.split_first_chunk::<32>()?;
    if rest.is_empty() {
        return Some(Keys {
            key: *key,
            former: None,
        });
    }
    let former = read_former(rest)?;
    Some(Keys {
        key: *key,
        former: Some(former),
    })
}

// The former key that 40 bytes spell, or None for other bytes.
fn read_former(bytes: &[u8]) -> Option<Former>
    ensures read { (former : Former) → IsFormer former → bytes.now ≡ former_text (Some former) → result ≡ Some former }
    ensures value { IfSome result (λ former. IsFormer former × (bytes.now ≡ former_text (Some former))) }
{
    let (key, rest) = bytes.split_first_chunk::<32>()?;
    let (digits, end) = rest.split_first_chunk::<8>()?;
    let changed = u64::from_be_bytes(*digits);
    if !end.is_empty() {
        return None;
    }
    if !is_moment(changed) {
        return None;
    }
    Some(Former { key: *key, changed })
}

/// The puts after which the list's files hold these keys. The former key was replaced before the year 10000.
pub fn set_keys(alloc: Global, keys: &Keys) -> Result<Txn, AllocError>
    requires { IfSome keys.now.former (λ former. IsMoment former.changed) }
    ensures puts { IfOk result (λ txn. txn ≡ keys_put keys.now ∷ []) }
    ensures files { IfOk result (λ txn. IsTrue (are_files txn)) }
    ensures file { IfOk result (λ txn. (dir : Dir) → IsKeyFile (with_puts dir txn key_name) keys.now) }
{
    let keys = *keys;
    let mut txn = Txn::new(alloc);
    txn.push(Put {
        name: Name::KEY,
        bytes: Some(write_keys(alloc, keys)?),
    })?;
    Ok(txn)
}

// The bytes of the keys' file.
fn write_keys(alloc: Global, keys: Keys) -> Result<Bytes, AllocError>
    requires { IfSome keys.former (λ former. IsMoment former.changed) }
    ensures bytes { IfOk result (λ bytes. bytes ≡ keys_text keys) }
    ensures are { AreKeys keys }
{
    let mut out = Bytes::from_slice(alloc, &keys.key)?;
    if let Some(former) = keys.former {
        out.extend(&former.key)?;
        out.extend(&former.changed.to_be_bytes())?;
    }
    Ok(out)
}
