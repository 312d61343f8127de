// Held posts that no moderator answered go back to their authors.
use ml_base::{Bytes, Name};
use ml_timed::timed;
use std::alloc::Global;
use std::collections::BTreeMap;
use std::test::Fail;
use trials_lists::{
    KEY, Made, Silent, Texts, config, copy, lay, make, memory, reply_text, same, text_of,
};

pub(crate) const TABLE: &str = r"
# A message of 45 bytes of `g@h`, held at 1,000,000,000.
let waiting 10:1000000000,3:g@h,45:From: a@b\nTo: list@ex.org\nSubject: hello\n\nhi\n,
let expired 12:list-return-,6:ex.org,1:p,260:Mailing-List: contact list-help@ex.org; run by ezmlm\nPrecedence: bulk\nFrom: list-help@ex.org\nTo: g@h\nDate: Fri, 14 Sep 2001 01:46:40 -0000\nSubject: post not moderated\n\nNo moderator of list@ex.org answered in time.\n\nFrom: a@b\nTo: list@ex.org\nSubject: hello\n\nhi\n,3:g@h,
# A post goes back at 432,000 seconds.
list run new => 0 | put dig 0:0\n | put pending/1 {waiting} | put tickets 1:2\n | put ids 2:2\n
at 1000431999 | run timed => 0 3 0 | same | at 1000432000 | run timed => 0 3 1 | loses pending/1 | gets tickets 2:2\n | gets queue/2 {expired} | gets ids 2:3\n | same | run timed => 0 3 0 | same
# A thousand go back at once.
list run new => 0 | put dig 0:0\n | each 1 1001 pending {waiting} | put tickets 1:1002\n | at 1000432000
run timed => 0 3 1000 | lacks pending/1 | lacks pending/1000 | has pending/1001 {waiting} | has tickets 1001:1002\n | has ids 1:1001\n | run timed => 0 3 1 | lacks pending/1001 | has tickets 1002:1002\n | has ids 1:1002\n
";

// A held post with a message of a byte.
const SMALL: &[u8] = b"10:1000000000,3:g@h,1:x,";

const X: [u8; 64] = [b'x'; 64];

// Messages that have 33,554,432 bytes together: one of 33,554,431 bytes, and one of one byte. Then one more of one byte.
const LARGE: &[Made] = &[
    Made::Text(2, 0, &KEY),
    Made::Text(11, 0, b"0\n"),
    Made::Text(12, 0, b"0:0\n"),
    Made::Text(13, 1, b"10:1000000000,3:g@h,33554431:"),
    Made::Times(13, 1, 524_287, &X),
    Made::Times(
        13,
        1,
        1,
        b"xxxxxxxxxxxxxxxxxxxxxxxxxxxxxxxxxxxxxxxxxxxxxxxxxxxxxxxxxxxxxxx,",
    ),
    Made::Text(13, 2, SMALL),
    Made::Text(13, 3, SMALL),
    Made::Text(14, 0, b"1:4\n"),
    Made::Text(18, 0, b"1:1\n"),
];

// The files after a timed run at 1,000,432,000, and the text of its answer.
fn after(alloc: Global, texts: &Texts) -> Result<(Texts, Bytes), Fail> {
    let config = config(alloc, b"", b"", 1_048_576)?;
    let files = Silent {
        files: memory(alloc, texts, &[])?,
    };
    let (_, answer) = timed(alloc, files, &config, 1_000_432_000);
    let (puts, reply) = answer?;
    let mut after = copy(alloc, texts)?;
    lay(alloc, &mut after, &puts)?;
    Ok((after, reply_text(alloc, reply.code, reply.number)?))
}

// These runs are in no table: every command of a table copies its files several times. Each run has its answer, the second and the third held
// post, and the tickets.
#[test]
fn messages_of_33_554_432_bytes_go_back_at_once(rt: HostRuntime) -> Result<(), Fail> {
    let alloc = rt.alloc();
    let mut texts = BTreeMap::new(alloc);
    make(alloc, &mut texts, LARGE)?;
    let runs: [[&[u8]; 4]; 2] = [
        [b"3 2", b"-", SMALL, b"3:4\n"],
        [b"3 1", b"-", b"-", b"4:4\n"],
    ];
    for (row, [wanted, second, third, tickets]) in runs.into_iter().enumerate() {
        let (left, answer) = after(alloc, &texts)?;
        texts = left;
        same(alloc, "large messages", row, answer.as_slice(), wanted)?;
        let post = text_of(&texts, Name { kind: 13, at: 2 });
        same(alloc, "the second post", row, post, second)?;
        let post = text_of(&texts, Name { kind: 13, at: 3 });
        same(alloc, "the third post", row, post, third)?;
        same(
            alloc,
            "tickets",
            row,
            text_of(&texts, Name::TICKETS),
            tickets,
        )?;
    }
    Ok(())
}
