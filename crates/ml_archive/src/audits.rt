// Checks whether the files of the archive agree.
ghost use Rattle.std.specs.Prelude.{List, IsTrue, IfErr, OnOk};
ghost use Rattle.ml_base.specs.PartErrors.{OnDamaged};
ghost use Rattle.ml_base.specs.ReadFiles.{IsReading, NamesDamaged};
ghost use Rattle.ml_filing.specs.Threads.{IsArchive};
ghost use Rattle.ml_filing.specs.declared.posts.Post.{Post};
ghost use Rattle.ml_archive.specs.Breaks.{Breaks, IsAuditName};
ghost use Rattle.ml_archive.specs.Counted.{IsCountedArchive};

use crate::groups::audit_groups;
use crate::threads::audit_threads;
use ml_base::{Files, PartError};
use ml_filing::count;
use std::alloc::Global;

/// Whether the files of the archive of a list with this prefix stand for posts. Files beyond the number of posts are
/// left out: posts with a higher number, and indexes of groups whose first post has one. It reads the number, the
/// indexes of all groups that have a post, every post and all thread files, and names the first file that is wrong.
pub fn audit<F: Files>(alloc: Global, files: &mut F, prefix: &[u8]) -> Result<(), PartError>
    ensures ok { IsTrue F.tells → OnOk result ((posts : List Post) × IsCountedArchive (F.map files.old) prefix.now posts) }
    ensures names { NamesDamaged ⟦<F as Files>⟧ IsAuditName (Breaks (F.map files.old) prefix.now) result }
    ensures sound { IsTrue F.tells → (posts : List Post) → IsArchive (F.map files.old) prefix.now posts → IfErr result (λ e. OnDamaged e (λ _. ⊥)) }
    ensures complete { IsTrue F.tells → (posts : List Post) → IsCountedArchive (F.map files.old) prefix.now posts → IfErr result (λ e. OnDamaged e (λ _. ⊥)) }
    ensures reads { IsReading ⟦<F as Files>⟧ files.old files.new result }
{
    let count = count(alloc, files)?;
    audit_groups(alloc, files, count)?;
    audit_threads(alloc, files, prefix, count)
}
