//! What the program asks of the world, as traits: a site, which is a disk with a log and files and an output, a source of bytes
//! and a clock. For tests, each also has a version in memory, whose calls can be made to fail.
#![tactic(auto)]

mod call;
mod fill;
mod image;
mod mem_site;
mod replay;
mod site;
mod source;
mod streams;
mod unfailing_site;

pub use fill::Fill;
pub use image::Image;
pub use mem_site::MemSite;
pub use site::{Failed, Site, SiteError};
pub use source::{Clock, Source};
pub use streams::{MemClock, MemSource};
pub use unfailing_site::Unfailing;
