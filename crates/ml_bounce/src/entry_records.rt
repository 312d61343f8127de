// Entries as the records of a ledger's files.
ghost use Rattle.ml_bounce.specs.Files.{entry_text};
ghost use Rattle.ml_bounce.specs.Ledger.{entry_key};
ghost use Rattle.ml_bounce.specs.Reading.{entry_at};

use crate::LedgerEntry;
use crate::ledger_reader::entry_of;
use crate::ledger_writer::write_content;
use ml_base::{Bytes, Row, push_netstring, split_netstring};
use ml_keyed::Keyed;
use std::alloc::{AllocError, Global};
use std::cmp::Ordering;

// The entries of one file.
pub(crate) type Entries = Row<LedgerEntry>;

impl<'a> Keyed<'a> for LedgerEntry {
    type File = u8;

    ghost key_of = { entry_key };

    ghost asked = { λ k. k };

    ghost spelling = { entry_text };

    ghost record_at = { entry_at };

    fn compare(&self, other: &LedgerEntry) -> Ordering {
        self.key.bytes().cmp(other.key.bytes())
    }

    fn has_key(&self, text: &[u8]) -> bool {
        text == self.key.bytes()
    }

    fn push(&self, alloc: Global, out: &mut Bytes) -> Result<(), AllocError> {
        let content = write_content(alloc, self)?;
        push_netstring(out, content.as_slice())
    }

    fn read(
        alloc: Global,
        file: u8,
        text: &'a [u8],
    ) -> Result<Option<(LedgerEntry, &'a [u8])>, AllocError> {
        let Some((content, more)) = split_netstring(text) else {
            return Ok(None);
        };
        let Some(entry) = entry_of(alloc, file, content)? else {
            return Ok(None);
        };
        Ok(Some((entry, more)))
    }
}
