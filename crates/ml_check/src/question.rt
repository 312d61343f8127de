// The question whether a list is whole.
ghost use Rattle.ml_check.specs.Checking.{check_meaning};

use crate::full_check::sizes_of;
use crate::sizes::{Sizes, whole_line};
use ml_base::{Files, PartError};
use ml_config::Config;
use ml_reading::{Answer, Question};
use std::alloc::Global;

/// Whether a list is whole: every file is in its grammar, and they agree. It reads the files of each part up to the part's counters, and
/// no replies that are kept. The text is `ok` and eight numbers: the posts, the members of the five sets, the held posts and the entries of
/// the queue.
#[derive(Clone, Copy, Debug, PartialEq, Eq)]
pub struct Check;

impl Question for Check {
    ghost meaning = { λ _. check_meaning };

    fn answer<F: Files>(
        &self,
        alloc: Global,
        config: &Config,
        files: &mut F,
    ) -> Result<Answer, PartError> {
        let sizes = sizes_of(alloc, config, files)?;
        Ok(Answer::Text(whole_line(alloc, &sizes)?))
    }
}
