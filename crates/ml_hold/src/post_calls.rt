// The calls on one held post: holding it, looking at it and taking it out.
ghost use Rattle.std.specs.Prelude.{◌≡◌, ◌≤◌, true, ℕ, Some, IsTrue, IfOk, IfErr, IsErrOf, IfSome, length, ◌⊎◌};
ghost use Rattle.ml_base.specs.Dir.{with_puts, touches_only};
ghost use Rattle.ml_base.specs.Drawn.{IsCounter};
ghost use Rattle.ml_base.specs.Name.{is_file};
ghost use Rattle.ml_base.specs.Ranges.{is_moment, is_drawn};
ghost use Rattle.ml_base.specs.PartErrors.{OnDamaged};
ghost use Rattle.ml_base.specs.ReadFiles.{IsReading, NamesDamaged};
ghost use Rattle.ml_drawn.specs.declared.series.Series.TheVariants.{Tickets};
ghost use Rattle.ml_drawn.specs.Names.{is_of_series};
ghost use Rattle.ml_drawn.specs.Answers.{IsDrawing, IsTaking};
ghost use Rattle.ml_hold.specs.Held.{Pending, IsPending, held_text, held_post};
ghost use Rattle.ml_hold.specs.Held as spec;
ghost use Rattle.ml_hold.specs.declared.posts.Held.{Held as TheHeld};
ghost use Rattle.ml_hold.specs.Answers.{Breaks, LooksBy, TakesBy, IsPostName, IsTaken, IsCountedPending, tickets_name, puts_of};

use crate::Held;
use crate::post_text::{held_of, parts_of, text_of};
use ml_base::{Files, PartError, Txn};
use ml_drawn::{Series, counter_of, draw, file_of, take_out};
use std::alloc::Global;

/// Holds a post under the next ticket, after all others. It answers the ticket, and the puts that do it.
///
/// The next ticket is at most 10^15, and the message has at most 33,554,432 bytes.
pub fn hold<F: Files>(alloc: Global, files: &mut F, held: &Held) -> Result<(u64, Txn), PartError>
    requires moment { IsTrue (is_moment held.now.moment) }
    requires size { length held.now.message ≤ 33_554_432 }
    requires room { IsTrue F.tells → (low next : ℕ) → IsCounter (F.map files.now tickets_name) low next → next ≤ 1_000_000_000_000_000 }
    ensures value { IsTrue F.tells → IfOk result (λ r. (pending : Pending) → IsPending (F.map files.old) pending → (r.0 ≡ pending.next) × IsPending (with_puts (F.map files.old) r.1) (spec.hold held.now pending)) }
    ensures read { IsTrue F.tells → IfOk result (λ r. IsDrawing (F.map files.old) Tickets (held_text held.now) r.0 r.1) }
    ensures others { IfOk result (λ r. touches_only (is_of_series Tickets) r.1 ≡ true) }
    ensures files { IfOk result (λ r. touches_only is_file r.1 ≡ true) }
    ensures names { NamesDamaged ⟦<F as Files>⟧ (λ name. name ≡ tickets_name) (Breaks (F.map files.old)) result }
    ensures sound { IsTrue F.tells → (pending : Pending) → IsPending (F.map files.old) pending → IfErr result (λ e. OnDamaged e (λ _. ⊥)) }
    ensures reads { IsReading ⟦<F as Files>⟧ files.old files.new result }
{
    let text = text_of(alloc, held)?;
    draw(alloc, files, Series::Tickets, text)
}

/// The post of a ticket, or None if the ticket isn't there. It reads that post's file alone.
pub fn look<F: Files>(alloc: Global, files: &mut F, ticket: u64) -> Result<Option<Held>, PartError>
    ensures value { IsTrue F.tells → IfOk result (λ answer. (pending : Pending) → IsPending (F.map files.old) pending → answer ≡ held_post ticket pending) }
    ensures read { IsTrue F.tells → IfOk result (LooksBy (F.map files.old) ticket) }
    ensures drawn { IfOk result (λ answer. IfSome answer (λ _. IsTrue (is_drawn ticket))) }
    ensures names { NamesDamaged ⟦<F as Files>⟧ (IsPostName ticket) (Breaks (F.map files.old)) result }
    ensures sound { IsTrue F.tells → (pending : Pending) → IsPending (F.map files.old) pending → IfErr result (λ e. OnDamaged e (λ _. ⊥)) }
    ensures reads { IsReading ⟦<F as Files>⟧ files.old files.new result }
{
    let Some(text) = file_of(alloc, files, Series::Tickets, ticket)? else {
        return Ok(None);
    };
    match parts_of(text.as_slice()) {
        Some(parts) => Ok(Some(held_of(alloc, parts)?)),
        None => Err(PartError::Damaged(Series::Tickets.name(ticket))),
    }
}

/// Takes the post of a ticket out. It answers the post and the puts that do it, or None if the ticket isn't there. If
/// it is the lowest ticket, the call looks for the next one that is there, one file after another.
pub fn take<F: Files>(
    alloc: Global,
    files: &mut F,
    ticket: u64,
) -> Result<Option<(Held, Txn)>, PartError>
    ensures value { IsTrue F.tells → IfOk result (λ answer. (pending : Pending) → IsPending (F.map files.old) pending → IsTaken (F.map files.old) pending ticket answer) }
    ensures read { IsTrue F.tells → IfOk result (TakesBy (F.map files.old) ticket) }
    ensures others { IfOk result (λ answer. touches_only (is_of_series Tickets) (puts_of answer) ≡ true) }
    ensures files { IfOk result (λ answer. touches_only is_file (puts_of answer) ≡ true) }
    ensures names { NamesDamaged ⟦<F as Files>⟧ (λ name. IsPostName ticket name ⊎ (name ≡ tickets_name)) (Breaks (F.map files.old)) result }
    ensures sound { IsTrue F.tells → (pending : Pending) → IsPending (F.map files.old) pending → IfErr result (λ e. OnDamaged e (λ _. ⊥)) }
    ensures reads { IsReading ⟦<F as Files>⟧ files.old files.new result }
{
    let Some(held) = look(alloc, files, ticket)? else {
        return Ok(None);
    };
    let txn = take_out(alloc, files, Series::Tickets, ticket)?;
    Ok(Some((held, txn)))
}

/// Takes out the post of a ticket that was looked at, without reading it again. It answers the puts that do it. If it
/// is the lowest ticket, the call looks for the next one that is there, one file after another.
pub fn release<F: Files>(alloc: Global, files: &mut F, ticket: u64) -> Result<Txn, PartError>
    requires { IsTrue (is_drawn ticket) }
    ensures value { IsTrue F.tells → IfOk result (λ txn. (pending : Pending) (held : TheHeld) → IsPending (F.map files.old) pending → held_post ticket pending ≡ Some held → IsPending (with_puts (F.map files.old) txn) (spec.without_ticket ticket pending)) }
    ensures read { IsTrue F.tells → IfOk result (IsTaking (F.map files.old) Tickets ticket) }
    ensures others { IfOk result (λ txn. touches_only (is_of_series Tickets) txn ≡ true) }
    ensures files { IfOk result (λ txn. touches_only is_file txn ≡ true) }
    ensures names { NamesDamaged ⟦<F as Files>⟧ (λ name. name ≡ tickets_name) (Breaks (F.map files.old)) result }
    ensures sound { IsTrue F.tells → (pending : Pending) → IsPending (F.map files.old) pending → IfErr result (λ e. OnDamaged e (λ _. ⊥)) }
    ensures reads { IsReading ⟦<F as Files>⟧ files.old files.new result }
{
    take_out(alloc, files, Series::Tickets, ticket)
}

/// The next ticket.
pub fn next_ticket<F: Files>(alloc: Global, files: &mut F) -> Result<u64, PartError>
    ensures value { IsTrue F.tells → IfOk result (λ next. (pending : Pending) → IsCountedPending (F.map files.old) pending → next ≡ pending.next) }
    ensures read { IsTrue F.tells → IfOk result (λ next. (low : ℕ) × IsCounter (F.map files.old tickets_name) low next) }
    ensures names { NamesDamaged ⟦<F as Files>⟧ (λ name. name ≡ tickets_name) (Breaks (F.map files.old)) result }
    ensures sound { IsTrue F.tells → (pending : Pending) → IsCountedPending (F.map files.old) pending → IfErr result (λ e. OnDamaged e (λ _. ⊥)) }
    ensures reads { IsReading ⟦<F as Files>⟧ files.old files.new result }
{
    let counter = counter_of(alloc, files, Series::Tickets)?;
    Ok(counter.next)
}
