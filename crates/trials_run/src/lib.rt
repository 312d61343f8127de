//! Tests of the public calls on items and streams: how a stream is answered over a list, what a run leaves wherever it is stopped, how items are
//! read and written, what an item does to the files of a list, and the items of an exercise.
#![tactic(auto)]

#[cfg(test)]
mod ends;
#[cfg(test)]
mod exercises;
#[cfg(test)]
mod item_effects;
#[cfg(test)]
mod item_texts;
#[cfg(test)]
mod items;
#[cfg(test)]
mod lines;
#[cfg(test)]
mod program;
#[cfg(test)]
mod runs;
#[cfg(test)]
mod site_runs;
#[cfg(test)]
mod stops;
#[cfg(test)]
mod streams;
