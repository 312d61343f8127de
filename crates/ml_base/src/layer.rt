// Files with puts laid over them, so that later items of a batch see what earlier ones did.
ghost use Rattle.std.specs.Prelude.{◌≡◌, ◌<◌, ◌≤◌, ◌++◌, ℕ, true, false, IsTrue, IfOk, IsErrOf, OnOk, OnErr, is_some};
ghost use Rattle.std.specs.Option.{option_copied};
ghost use Rattle.ml_base.specs.Absent.{NoneOf, NoPutOf};
ghost use Rattle.ml_base.specs.Dir.{with_puts, newest_put, same_name, touches};
ghost use Rattle.ml_base.specs.Faults.{Rose};
ghost use Rattle.ml_base.specs.Layers.{files_below, puts_over};
ghost use Rattle.ml_base.specs.Name.{is_file};
ghost use Rattle.ml_base.specs.declared.files.FilesError.TheVariants.{Fault};
ghost use Rattle.std.proofs.Common.{refl, ap, ◌∙◌};

use crate::{Bytes, Files, FilesError, Name, Put, Txn, copied};
use std::alloc::{AllocError, Global};

/// Files with the puts of a Txn laid over them, which shows what the Txn makes of them before it is committed.
#[derive(Drop)]
pub struct Layer<F: Files> {
    files: F,
    txn: Txn,
}

impl<F: Files> Layer<F> {
    /// Lays a Txn over files. It takes no memory.
    pub fn new(files: F, txn: Txn) -> Layer<F>
        ensures files { files_below result ≡ files }
        ensures txn { puts_over result ≡ txn }
    {
        Layer { files, txn }
    }

    /// The files below, and the Txn that lay over them. It takes no memory.
    pub fn parts(self) -> (F, Txn)
        ensures files { result.0 ≡ files_below self }
        ensures txn { result.1 ≡ puts_over self }
    {
        (self.files, self.txn)
    }

    /// Lays puts over those that are there. An error changes nothing.
    pub fn lay(&mut self, more: Txn) -> Result<(), AllocError>
        ensures files { files_below self.new ≡ files_below self.old }
        ensures ok { OnOk result (puts_over self.new ≡ puts_over self.old ++ more) }
        ensures err { OnErr result (puts_over self.new ≡ puts_over self.old) }
    {
        self.txn.join(more)
    }
}

#[tactic(auto, using(crate::proofs::Laid::newest_decides, crate::proofs::Laid::newest_touches))]
impl<F: Files> Files for Layer<F> {
    ghost tells = { F.tells };

    ghost map = { λ l. with_puts (F.map l.files) l.txn };

    ghost faults = { λ l. F.faults l.files };

    ghost kept = { λ a b. F.kept a.files b.files × (b.txn ≡ a.txn) };

    /// The bytes of a file, or None if it is absent. If a put names the file, the files below are not read.
    fn get(&mut self, alloc: Global, name: Name) -> Result<Option<Bytes>, FilesError>
        requires { IsTrue (is_file name) }
        ensures value { IsTrue F.tells → IfOk result (λ found. found ≡ with_puts (F.map (files_below self.old)) (puts_over self.old) name) }
        ensures kept { F.kept (files_below self.old) (files_below self.new) × (puts_over self.new ≡ puts_over self.old) }
        ensures later { F.faults (files_below self.old) ≤ F.faults (files_below self.new) }
        ensures cause { IsErrOf result Fault → Rose (F.faults (files_below self.old)) (F.faults (files_below self.new)) }
        ensures above { touches (puts_over self.old) name ≡ true → files_below self.new ≡ files_below self.old }
    {
        match newest(self.txn.as_slice(), name) {
            Some(put) => Ok(copied(alloc, put.bytes.as_ref())?),
            None => self.files.get(alloc, name),
        }
    }

    /// Whether a file is there. If a put names the file, the files below are not asked.
    fn has(&mut self, alloc: Global, name: Name) -> Result<bool, FilesError>
        requires { IsTrue (is_file name) }
        ensures value { IsTrue F.tells → IfOk result (λ there. there ≡ is_some (with_puts (F.map (files_below self.old)) (puts_over self.old) name)) }
        ensures kept { F.kept (files_below self.old) (files_below self.new) × (puts_over self.new ≡ puts_over self.old) }
        ensures later { F.faults (files_below self.old) ≤ F.faults (files_below self.new) }
        ensures cause { IsErrOf result Fault → Rose (F.faults (files_below self.old)) (F.faults (files_below self.new)) }
        ensures above { touches (puts_over self.old) name ≡ true → files_below self.new ≡ files_below self.old }
    {
        match newest(self.txn.as_slice(), name) {
            Some(put) => Ok(put.bytes.is_some()),
            None => self.files.has(alloc, name),
        }
    }

    /// A place at which a walk over the files of a kind may go on. It is no further than the first one that a put names.
    fn skip_absent(
        &mut self,
        alloc: Global,
        kind: u8,
        from: u64,
        end: u64,
    ) -> Result<u64, FilesError>
        requires { from ≤ end }
        ensures range { IfOk result (λ at. (from ≤ at) × (at ≤ end)) }
        ensures value { IsTrue F.tells → IfOk result (NoneOf (with_puts (F.map (files_below self.old)) (puts_over self.old)) kind from) }
        ensures kept { F.kept (files_below self.old) (files_below self.new) × (puts_over self.new ≡ puts_over self.old) }
        ensures later { F.faults (files_below self.old) ≤ F.faults (files_below self.new) }
        ensures cause { IsErrOf result Fault → Rose (F.faults (files_below self.old)) (F.faults (files_below self.new)) }
    {
        let end = first_named(self.txn.as_slice(), kind, from, end);
        self.files.skip_absent(alloc, kind, from, end)
    }

    ghost kept_self = { λ l. (F.kept_self l.files, refl) };

    ghost kept_then = { λ a b c first then. (F.kept_then a.files b.files c.files first.0 then.0, then.1 ∙ first.1) };

    ghost kept_map = { λ a b told kept. ap (with_puts (F.map b.files)) kept.1 ∙ ap (λ dir. with_puts dir a.txn) (F.kept_map a.files b.files told kept.0) };

    ghost kept_faults = { λ a b kept. F.kept_faults a.files b.files kept.0 };
}

// The newest put of a file.
fn newest(puts: &[Put], name: Name) -> Option<&Put>
    ensures { option_copied result ≡ newest_put puts.now name }
{
    puts.iter().rev().find(|put| put.name == name)
}

// The first place of a kind, from `from` on, that a put names, or `end` if no put names one before `end`.
fn first_named(puts: &[Put], kind: u8, from: u64, end: u64) -> u64
    requires { from ≤ end }
    ensures range { (from ≤ result) × (result ≤ end) }
    ensures none { NoPutOf puts.now kind from result }
{
    let mut first = end;
    for put in puts {
        first = nearer(put.name, kind, from, first);
    }
    first
}

// The place of a file if it is of the kind, at `from` or later and before `end`; otherwise `end`.
fn nearer(name: Name, kind: u8, from: u64, end: u64) -> u64
    requires { from ≤ end }
    ensures range { (from ≤ result) × (result ≤ end) }
    ensures apart { (at : ℕ) → from ≤ at → at < result → same_name (record { kind = kind; at = at }) name ≡ false }
{
    if name.kind == kind && from <= name.at && name.at < end {
        name.at
    } else {
        end
    }
}
