// Laws of every stream that an import gives.
ghost use Rattle.std.specs.Prelude.{◌≡◌, ◌≤◌, ℕ, List, Some, Ok, length, All};
ghost use Rattle.ml_base.specs.Bytes.{Text};
ghost use Rattle.ml_base.specs.Dir.{Dir};
ghost use Rattle.ml_base.specs.Ranges.{IsMoment};
ghost use Rattle.ml_config.specs.Configuration.{IsConfig};
ghost use Rattle.ml_config.specs.declared.configuration.Config.{Config};
ghost use Rattle.ml_mbox.specs.Importing.{acts_of};
ghost use Rattle.ml_mbox.specs.Reading.{read};
ghost use Rattle.ml_mbox.specs.declared.mails.Boxed.{Boxed};
ghost use Rattle.ml_plain.specs.Items.{numbered};
ghost use Rattle.ml_reading.specs.declared.question.Answer.TheVariants as answers;
ghost use Rattle.ml_stream.specs.Stream.{IsStream, End};
ghost use Rattle.ml_mbox_questions.specs.Numbers.{IsFirst};
ghost use Rattle.ml_mbox_questions.specs.Questions.{importing_meaning, importing_of};
ghost use Rattle.ml_mbox_questions.specs.declared.import_question.Importing.{Importing as TheImporting};
ghost use Rattle.ml_stream.specs.Writing.{stream_text};
ghost use Rattle.ml_mbox_questions.specs.Import.{Fits};

/// The stream of a mailbox of at most 268,435,456 bytes has exactly the deliveries of its mails, in order, and then ends. Their
/// numbers rise by one from `first` on, which is at most 999,900,000,000.
pub fn law_import()
    ensures { (c : Config) (first moment : ℕ) (text : Text) (mails : List Boxed) → IsConfig c → first ≤ 999_900_000_000 → IsMoment moment → length text ≤ 268_435_456
        → read text ≡ Some mails → All (Fits c) mails
        → IsStream 0 (stream_text (numbered first moment (acts_of c mails))) (numbered first moment (acts_of c mails)) End }
{}

/// The input that a question of an import was made of is a mailbox. A text that answers the question, whatever the files hold, is by the grammar
/// of streams exactly the deliveries of the mailbox's mails, in order, numbered from the first number on, and then ends.
pub fn law_importing()
    ensures { (first moment : ℕ) (text stream : Text) (question : TheImporting) (c : Config) (dir : Dir) → IsFirst first → IsMoment moment → length text ≤ 268_435_456 → IsConfig c
        → importing_of first moment text ≡ Ok question → (importing_meaning question.words question.moment question.text).by_files c dir (answers.Text stream)
        → (mails : List Boxed) × (read text ≡ Some mails) × IsStream 0 stream (numbered first moment (acts_of c mails)) End }
{
    law_import();
}
