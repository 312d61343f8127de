// Runs the whole program over a list in memory, for the tables.
use ml_command::ezmlm_main;
use ml_site::{MemClock, MemSite, MemSource};
use std::alloc::Global;
use std::test::Fail;
use trials_scripts::Program;

pub(crate) struct Whole;

impl Program for Whole {
    fn ended(
        alloc: Global,
        words: &[String],
        input: &mut MemSource,
        site: MemSite,
        clock: &mut MemClock,
    ) -> Result<(u8, MemSite), Fail> {
        Ok(ezmlm_main(alloc, words, input, site, clock))
    }
}
