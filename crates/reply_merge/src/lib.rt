// The reply to a merge.
#![tactic(auto)]

ghost use Rattle.std.specs.Prelude.{◌≡◌, length};
ghost use Rattle.merge.specs.Merge.{merge_answer, index_answer, output_after};
ghost use Rattle.reply_merge.specs.Merge.{merge_reply, merge_gives};

use edits::list::ListFault;
use merge::NotMerged;

#[repr(C)]
#[derive(Clone, Copy, Default)]
pub struct MergeReply {
    pub number: u32,
    // Where the item of numbers 41 to 45 and 6 starts in the old file, or the edit of number 7, 8, 9 or 11 in the list.
    pub place: usize,
    // Beside 41 to 45 the number of the line that starts there in the old file.
    pub line: u64,
    // The new file's length.
    pub length: usize,
    // The length of number 2's text, which starts at 0 in the old file; beside 41 to 45 that of its line from `place` on, without the LF that ends it.
    pub text_len: usize,
}

pub fn merge_reply(
    kind: u32,
    old: &[u8],
    edits: &[u8],
    index: &mut [u32],
    out: &mut [u8],
) -> MergeReply
    ensures value { result ≡ merge_reply old.now (merge_answer kind old.now edits.now (length index.old) (length out.old)) }
    ensures index_after { index.new ≡ index_answer kind old.now edits.now index.old }
    ensures out_after { out.new ≡ output_after kind old.now edits.now (length index.old) out.old }
{
    merge_told(old, merge::merge(kind, old, edits, index, out))
}

fn merge_told(old: &[u8], merged: Result<usize, NotMerged>) -> MergeReply
    ensures { result ≡ merge_reply old.now merged }
{
    match merged {
        Ok(length) => MergeReply {
            length,
            ..MergeReply::default()
        },
        Err(NotMerged::UnknownKind) => refused(1, 0),
        Err(NotMerged::TooLarge) => refused(17, 0),
        Err(NotMerged::BadList(ListFault::BadEdit { place, fault })) => refused(
            fault as u32,
            place,
        ),
        Err(NotMerged::BadList(ListFault::TooMany(place))) => refused(9, place),
        Err(NotMerged::ShortIndex) => refused(10, 0),
        Err(NotMerged::Twins(place)) => refused(11, place as usize),
        Err(NotMerged::Refused(why)) => {
            let told = tell::refusal(old, why);
            MergeReply {
                number: told.number,
                place: told.place,
                line: told.line,
                length: 0,
                text_len: told.text_len,
            }
        }
        Err(NotMerged::NothingToDo) => refused(13, 0),
        Err(NotMerged::NoRecord) => refused(14, 0),
        Err(NotMerged::ShortOutput) => refused(12, 0),
    }
}

// A number with a place beside it, or 0.
fn refused(number: u32, place: usize) -> MergeReply
    ensures { result ≡ merge_gives number place 0 0 0 }
{
    MergeReply {
        number,
        place,
        ..MergeReply::default()
    }
}
