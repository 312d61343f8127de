//! Tests of the disk's public calls: sites, sources and clocks in memory, the store, and logs written by hand.
#![tactic(auto)]

#[cfg(test)]
mod disk;
#[cfg(test)]
mod logs;
#[cfg(test)]
mod site_steps;
#[cfg(test)]
mod sites;
#[cfg(test)]
mod store_steps;
#[cfg(test)]
mod stores;
