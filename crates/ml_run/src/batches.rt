// A batch of items that are committed together.
ghost use Rattle.std.specs.Prelude.{◌≡◌, ◌<◌, ◌+◌, ◌-◌, ◌^◌, ◌++◌, [], ◌∷◌, min, IsTrue, OnOk, OnErr, IfErr, Some, None};
ghost use Rattle.ml_base.specs.Dir.{are_files};
ghost use Rattle.ml_journal.specs.Records.{content_size};
ghost use Rattle.ml_plain.specs.Replies.{is_code, is_status, line};
ghost use Rattle.ml_run.specs.Batches.{IsBatch, IsEmptyBatch, HasNext, first_number};

use crate::laid_puts::laid;
use crate::lines::answer_line;
use ml_base::{Bytes, Put, Txn};
use ml_ending::Why;
use ml_plain::{Reply, status};
use std::alloc::{AllocError, Global};

// The most items of a batch.
pub(crate) const MAX_ITEMS: u64 = 16;

// A batch ends as soon as it gives this many bytes to files.
pub(crate) const MAX_SIZE: u64 = 4_194_304;

// The items of a batch: their puts, the lines that answer them, how many they are, how many bytes the puts give to files,
// the number of the first, and the status of the last, or of the last before the batch.
#[derive(Drop)]
pub(crate) struct Batch {
    pub(crate) txn: Txn,
    pub(crate) lines: Bytes,
    pub(crate) count: u64,
    pub(crate) size: u64,
    pub(crate) first: Option<u64>,
    pub(crate) last: u8,
}

// How a batch ended: it is as large as it may be, the stream is at its end, or the next item is refused.
#[derive(Clone, Copy)]
pub(crate) enum BatchEnd {
    Full,
    Last,
    Stopped(Option<u64>, Why),
}

// A batch without items, whose lines will stand in this buffer.
pub(crate) fn empty_batch(alloc: Global, buffer: Bytes, last: u8) -> Batch
    requires { IsTrue (is_status last) }
    ensures empty { IsEmptyBatch result }
    ensures last { result.last ≡ last }
{
    let mut lines = buffer;
    lines.truncate(0);
    Batch {
        txn: Txn::new(alloc),
        lines,
        count: 0,
        size: 0,
        first: None,
        last,
    }
}

// Lays an item's puts over those of a batch of fewer than 16, and adds its answer. If memory runs out, the batch is as it was.
pub(crate) fn with_answer(
    batch: Batch,
    number: u64,
    more: Txn,
    reply: Reply,
) -> (Batch, Result<(), Why>)
    requires batch { IsBatch batch }
    requires room { batch.count < 16 }
    requires files { IsTrue (are_files more) }
    requires code { IsTrue (is_code reply.code) }
    ensures done { OnOk result.1 (HasNext batch result.0 number more reply) }
    ensures same { OnErr result.1 (result.0 ≡ batch) }
    ensures batch { IsBatch result.0 }
    ensures memory { IfErr result.1 (λ why. why ≡ Why.Memory) }
{
    let Batch {
        mut txn,
        mut lines,
        count,
        size,
        first,
        last,
    } = batch;
    let front = txn.as_slice().len();
    match add_both(&mut txn, &mut lines, number, more, reply) {
        Ok(()) => {
            let first = first_of(first, number);
            let puts = laid(txn, front);
            (
                batched(puts, lines, count + 1, first, status(reply.code)),
                Ok(()),
            )
        }
        Err(_) => (
            Batch {
                txn,
                lines,
                count,
                size,
                first,
                last,
            },
            Err(Why::Memory),
        ),
    }
}

// Adds an item's puts and its answer line. If memory runs out, both are as they were.
fn add_both(
    txn: &mut Txn,
    lines: &mut Bytes,
    number: u64,
    more: Txn,
    reply: Reply,
) -> Result<(), AllocError>
    requires { IsTrue (is_code reply.code) }
    ensures txn { OnOk result (txn.new ≡ txn.old ++ more) }
    ensures lines { OnOk result (lines.new ≡ lines.old ++ line number reply) }
    ensures same_txn { OnErr result (txn.new ≡ txn.old) }
    ensures same_lines { OnErr result (lines.new ≡ lines.old) }
{
    let before = lines.len();
    let mut line = [0u8; 64];
    let len = answer_line(number, reply, &mut line);
    lines.extend(&line[..len])?;
    if let Err(error) = txn.join(more) {
        lines.truncate(before);
        return Err(error);
    }
    Ok(())
}

// The batch of these puts, with their size.
fn batched(txn: Txn, lines: Bytes, count: u64, first: Option<u64>, last: u8) -> Batch
    ensures txn { result.txn ≡ txn }
    ensures lines { result.lines ≡ lines }
    ensures count { result.count ≡ count }
    ensures size { result.size ≡ min (content_size txn) (2 ^ 64 - 1) }
    ensures first { result.first ≡ first }
    ensures last { result.last ≡ last }
{
    let size = contents_size(txn.as_slice());
    Batch {
        txn,
        lines,
        count,
        size,
        first,
        last,
    }
}

// The number of a batch's first item, once the batch has one item more.
fn first_of(first: Option<u64>, number: u64) -> Option<u64>
    ensures { result ≡ first_number first number }
{
    match first {
        Some(first) => Some(first),
        None => Some(number),
    }
}

// How many bytes puts give to files, as far as that can be counted.
fn contents_size(puts: &[Put]) -> u64
    ensures { result ≡ min (content_size puts.now) (2 ^ 64 - 1) }
{
    let mut size: u64 = 0;
    for put in puts {
        size = size.saturating_add(put_size(put));
    }
    size
}

fn put_size(put: &Put) -> u64
    ensures { result ≡ min (content_size (put.now ∷ [])) (2 ^ 64 - 1) }
{
    match &put.bytes {
        Some(bytes) => bytes.len() as u64,
        None => 0,
    }
}
