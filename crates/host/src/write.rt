// Everything that writes: the merge.
ghost use Rattle.std.specs.Prelude.{◌≡◌, length};
ghost use Rattle.merge.specs.Merge.{merge_answer, index_answer, output_after};
ghost use Rattle.reply_merge.specs.Merge.{merge_reply};

use reply_merge::MergeReply;

pub fn packed_refs_merge(
    kind: u32,
    old: &[u8],
    edits: &[u8],
    index: &mut [u32],
    out: &mut [u8],
) -> MergeReply
    ensures value { result ≡ merge_reply old.now (merge_answer kind old.now edits.now (length index.old) (length out.old)) }
    ensures index_after { index.new ≡ index_answer kind old.now edits.now index.old }
    ensures out_after { out.new ≡ output_after kind old.now edits.now (length index.old) out.old }
{
    reply_merge::merge_reply(kind, old, edits, index, out)
}
