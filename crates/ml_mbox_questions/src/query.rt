// A mailbox of a list's posts as a question of the list.
ghost use Rattle.ml_mbox_questions.specs.Questions.{mbox_meaning};

use crate::mailbox::mailbox;
use ml_base::{Files, PartError};
use ml_config::Config;
use ml_reading::{Answer, Question};
use std::alloc::Global;

/// The posts n of an archive with `first <= n <= last`, in order, as a mailbox in the form mboxrd. If there are none, it is empty.
#[derive(Clone, Copy, Debug, PartialEq, Eq)]
pub struct MboxQuery {
    pub first: u64,
    pub last: u64,
}

impl Question for MboxQuery {
    ghost meaning = { mbox_meaning };

    fn answer<F: Files>(
        &self,
        alloc: Global,
        _config: &Config,
        files: &mut F,
    ) -> Result<Answer, PartError> {
        let text = mailbox(alloc, files, self.first, self.last)?;
        Ok(Answer::Text(text))
    }
}
