//! Tests of the calls that write and read forms: texts written by hand, configurations and words, codes, and layers.
#![tactic(auto)]

#[cfg(test)]
mod answer_text;
#[cfg(test)]
mod configuration;
#[cfg(test)]
mod forms;
#[cfg(test)]
mod layers;
#[cfg(test)]
mod tables;
#[cfg(test)]
mod texts;
