//! Tests of the public calls on messages' subjects, on the archive, its audit and its pages, as tables.
#![tactic(auto)]

#[cfg(test)]
mod audits;
#[cfg(test)]
mod damage;
#[cfg(test)]
mod pages;
#[cfg(test)]
mod posts;
#[cfg(test)]
mod program;
#[cfg(test)]
mod subjects;
