//! Tests of the public calls on a list's sets, held posts, the outgoing queue, the ledgers of bounces and the digests, as tables of
//! text.
#![tactic(auto)]

#[cfg(test)]
mod digest_reader;
#[cfg(test)]
mod digests;
#[cfg(test)]
mod held_texts;
#[cfg(test)]
mod issues;
#[cfg(test)]
mod ledgers;
#[cfg(test)]
mod parts;
#[cfg(test)]
mod program;
#[cfg(test)]
mod queue;
#[cfg(test)]
mod sets;
#[cfg(test)]
mod table_call;
