// Bytes on their way to the log, buffered so that they take few writes.
ghost use Rattle.std.specs.Prelude.{◌≡◌, ◌≤◌, ◌<◌, ◌+◌, ◌^◌, ◌++◌, [], ◌∷◌, IsTrue, IfOk, OnOk, length};
ghost use Rattle.ml_journal.specs.Handing.{Hands};

use ml_base::Bytes;
use ml_site::{Site, SiteError};
use std::alloc::{AllocError, Global};

// How many bytes are buffered at most. With the two that end a record they are 64 KiB.
const ROOM: usize = 65_534;

/// Bytes on their way to the log. A piece that fits the room that is left is copied there, and goes to the log with what follows it; a
/// longer piece goes straight from where it is.
#[derive(Drop)]
pub(crate) struct LogWriter {
    // The place in the log for the buffered bytes.
    pub at: u64,
    pub buffered: Bytes,
    ghost small: { length buffered ≤ 65534 },
}

// Hands bytes to the log.
fn hand<S: Site>(alloc: Global, site: &mut S, at: u64, bytes: &[u8]) -> Result<(), SiteError>
    requires { IsTrue S.tells_reads → at ≤ length (S.disk site.old).reads.log }
    ensures { Hands ⟦<S as Site>⟧ result at bytes.now site.old site.new }
{
    site.write_log(alloc, at, bytes)
}

impl LogWriter {
    ghost use Rattle.ml_journal.specs.Buffering.{Buffers};

    /// Begins at this place of the log. Memory for so many bytes, up to the buffer's limit, is taken at once.
    pub(crate) fn new(alloc: Global, at: u64, size: usize) -> Result<LogWriter, AllocError>
        ensures { IfOk result (λ writer. (writer.at ≡ at) × (writer.buffered ≡ [])) }
    {
        Ok(LogWriter {
            at,
            buffered: Bytes::with_capacity(alloc, size.min(ROOM + 2))?,
        })
    }

    // Hands the buffered bytes to the log.
    fn flush<S: Site>(&mut self, alloc: Global, site: &mut S) -> Result<(), SiteError>
        requires place { IsTrue S.tells_reads → self.old.at ≤ length (S.disk site.old).reads.log }
        requires fits { self.old.at + length self.old.buffered < 2 ^ 64 }
        ensures hands { Hands ⟦<S as Site>⟧ result self.old.at self.old.buffered site.old site.new }
        ensures ok { OnOk result ((self.new.buffered ≡ []) × (self.new.at ≡ self.old.at + length self.old.buffered)) }
    {
        hand(alloc, site, self.at, self.buffered.as_slice())?;
        self.at += self.buffered.len() as u64;
        self.buffered.truncate(0);
        Ok(())
    }

    /// Adds a piece after the others.
    pub(crate) fn add<S: Site>(
        &mut self,
        alloc: Global,
        site: &mut S,
        piece: &[u8],
    ) -> Result<(), SiteError>
        requires place { IsTrue S.tells_reads → self.old.at ≤ length (S.disk site.old).reads.log }
        requires fits { self.old.at + length self.old.buffered + length piece.now < 2 ^ 64 }
        ensures { Buffers ⟦<S as Site>⟧ result piece.now self.old self.new site.old site.new }
    {
        if piece.len() <= ROOM - self.buffered.len() {
            self.buffered.extend(piece)?;
            return Ok(());
        }
        self.flush(alloc, site)?;
        hand(alloc, site, self.at, piece)?;
        self.at += piece.len() as u64;
        Ok(())
    }

    /// Ends a record with its comma and a closed gate, and hands what is buffered to the log.
    pub(crate) fn finish<S: Site>(self, alloc: Global, site: &mut S) -> Result<(), SiteError>
        requires { IsTrue S.tells_reads → self.at ≤ length (S.disk site.old).reads.log }
        ensures { Hands ⟦<S as Site>⟧ result self.at (self.buffered ++ 44 ∷ 0 ∷ []) site.old site.new }
    {
        let LogWriter { at, mut buffered } = self;
        buffered.extend(b",\0")?;
        hand(alloc, site, at, buffered.as_slice())
    }
}
