//! The real disk, output, source and clock. They don't tell what they hold, so all that is proved of them is that every
//! fault is counted. Whether each call does what it says has to be checked by reading these files.
#![tactic(auto)]

mod changes;
mod clock;
mod descriptors;
mod file_numbers;
mod folder;
mod log;
mod places;
mod site;
mod source;

pub use clock::RealClock;
pub use site::RealSite;
pub use source::StdSource;
