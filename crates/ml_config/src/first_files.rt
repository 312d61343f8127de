// The files of a new list, as `make` writes them.
ghost use Rattle.std.specs.Prelude.{◌≡◌, ◌++◌, ◌∷◌, [], map, IfOk, IsTrue, None, OnOk};
ghost use Rattle.std.specs.List.{range_with_len};
ghost use Rattle.ml_base.specs.Dir.{Dir, with_puts, are_files};
ghost use Rattle.ml_base.specs.declared.names.Name.{Name};
ghost use Rattle.ml_config.specs.FirstFiles.{empty_count, file_put, first_files, no_files};
ghost use Rattle.ml_config.specs.FirstFiles as spec;

use crate::{Config, write_config};
use ml_base::{Bytes, Name, Put, Txn};
use std::alloc::{AllocError, Global};

/// The puts that make the files of a new list with this configuration and this key: those two, empty sets, no posts, no digests,
/// no held posts and no queue entries. In any directory, every file that isn't there becomes what it is in a new list: one of
/// those files, or absent.
pub fn initial(alloc: Global, config: &Config, key: &[u8; 32]) -> Result<Txn, AllocError>
    ensures puts { IfOk result (λ txn. txn ≡ spec.first_puts config.now key.now) }
    ensures files { IfOk result (λ txn. (name : Name) → with_puts no_files txn name ≡ first_files config.now key.now name) }
    ensures over { IfOk result (λ txn. (dir : Dir) (name : Name) → dir name ≡ None → with_puts dir txn name ≡ first_files config.now key.now name) }
    ensures names { IfOk result (λ txn. IsTrue (are_files txn)) }
{
    first_puts(alloc, config, key)
}

// A put for each file of a new list.
#[tactic(auto, unfolding(crate::specs::FirstFiles::first_puts))]
fn first_puts(alloc: Global, config: &Config, key: &[u8; 32]) -> Result<Txn, AllocError>
    ensures { IfOk result (λ txn. txn ≡ spec.first_puts config.now key.now) }
{
    let mut txn = Txn::new(alloc);
    add(&mut txn, 1, 0, write_config(alloc, config)?)?;
    add(&mut txn, 2, 0, Bytes::from_slice(alloc, key)?)?;
    add_counts(alloc, &mut txn)?;
    add(&mut txn, 11, 0, Bytes::from_slice(alloc, b"0\n")?)?;
    add(&mut txn, 12, 0, Bytes::from_slice(alloc, b"0:0\n")?)?;
    add(&mut txn, 14, 0, Bytes::from_slice(alloc, b"1:1\n")?)?;
    add(&mut txn, 18, 0, Bytes::from_slice(alloc, b"1:1\n")?)?;
    Ok(txn)
}

// Adds the counts of the five sets, which have no members.
fn add_counts(alloc: Global, txn: &mut Txn) -> Result<(), AllocError>
    ensures { OnOk result (txn.new ≡ txn.old ++ map empty_count (range_with_len 0 5)) }
{
    for set in 0..5 {
        add(txn, 8, set, Bytes::from_slice(alloc, b"0\n")?)?;
    }
    Ok(())
}

// Adds the bytes of a file.
fn add(txn: &mut Txn, kind: u8, at: u64, bytes: Bytes) -> Result<(), AllocError>
    ensures { OnOk result (txn.new ≡ txn.old ++ file_put kind at bytes ∷ []) }
{
    txn.push(Put {
        name: Name { kind, at },
        bytes: Some(bytes),
    })
}
