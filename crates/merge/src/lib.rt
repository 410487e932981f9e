// The merge of an old file and an edit list into a lent output.
//
// The edits are read and put in name order first (`edits`). One pass over the old file then checks it and settles for each edit which run of
// old bytes it replaces (`runs`). From the runs it is known what the new file is, so the last refusals can be given, and the writing
// copies old bytes between the runs as they stand (`write`).
#![tactic(auto)]

ghost use Rattle.std.specs.Prelude.{◌≡◌, ◌≤◌, length, drop};
ghost use Rattle.class.specs.Class.{paper};
ghost use Rattle.iter.specs.Entries.{entries_of};
ghost use Rattle.checks.specs.Check.{judge_body};
ghost use Rattle.checks.specs.declared.Refusal.TheVariants.{BadHeader};
ghost use Rattle.iter.specs.Items.{items};
ghost use Rattle.edits.specs.List.{index_after};
ghost use Rattle.lines.specs.Lines.{header_line};
ghost use Rattle.merge.specs.Override.{edits_at};
ghost use Rattle.merge.specs.Merge.{merge_answer, output_after, index_answer, merge_of, output_of, output_by, new_file, old_entries, judged, judged_by, not_admitted, not_prepared};
ghost use Rattle.merge.specs.declared.NotMerged.TheVariants.{Refused};
ghost use Rattle.runs.specs.Runs.{is_still};
ghost use Rattle.merge.specs.Splice.{spliced_file, spliced_answer, Rising};

use checks::Refusal;
use edits::list::{ListFault, NotPrepared};
use header::BadHeader;
use parse::limit::NotAdmitted;

mod write;

// Why no new file is written.
#[derive(Clone, Copy)]
pub enum NotMerged {
    UnknownKind,
    TooLarge,
    // The first fault of the edit list.
    BadList(ListFault),
    ShortIndex,
    // Two edits of one name: the second place of the first equal pair.
    Twins(u32),
    // Why the old file does not pass the check.
    Refused(Refusal),
    NothingToDo,
    // The file is to be removed.
    NoRecord,
    ShortOutput,
}

impl From<NotAdmitted> for NotMerged {
    ghost from_gives = { λ refusal why. why ≡ not_admitted refusal };

    fn from(refusal: NotAdmitted) -> NotMerged {
        match refusal {
            NotAdmitted::UnknownKind => NotMerged::UnknownKind,
            NotAdmitted::TooLarge => NotMerged::TooLarge,
        }
    }
}

impl From<NotPrepared> for NotMerged {
    ghost from_gives = { λ refusal why. why ≡ not_prepared refusal };

    fn from(refusal: NotPrepared) -> NotMerged {
        match refusal {
            NotPrepared::BadList(fault) => NotMerged::BadList(fault),
            NotPrepared::ShortIndex => NotMerged::ShortIndex,
            NotPrepared::Twins(place) => NotMerged::Twins(place),
            NotPrepared::TooLarge => NotMerged::TooLarge,
        }
    }
}

impl From<BadHeader> for NotMerged {
    ghost from_gives = { λ bad why. why ≡ Refused (BadHeader bad.text) };

    fn from(bad: BadHeader) -> NotMerged {
        NotMerged::Refused(Refusal::from(bad))
    }
}

impl From<Refusal> for NotMerged {
    ghost from_gives = { λ refusal why. why ≡ Refused refusal };

    fn from(refusal: Refusal) -> NotMerged {
        NotMerged::Refused(refusal)
    }
}

// The old file and the edit list are lent; the index takes the edits' places in name order, the output the new file, whose length is told.
pub fn merge(
    kind: u32,
    old: &[u8],
    list: &[u8],
    index: &mut [u32],
    out: &mut [u8],
) -> Result<usize, NotMerged>
    ensures value { result ≡ merge_answer kind old.now list.now (length index.old) (length out.old) }
    ensures index_after { index.new ≡ index_answer kind old.now list.now index.old }
    ensures out_after { out.new ≡ output_after kind old.now list.now (length index.old) out.old }
{
    let n = parse::limit::admit(kind, old.len(), list.len())?;
    merge_with_digits(n, old, list, index, out)
}

// The same for ids of n digits, without a kind; an old file of any size is taken. The table of byte classes is not lent: that a CR stands only in line
// ends, and old lines can be copied without their CRs, is true of the real table alone.
pub fn merge_with_digits(
    n: usize,
    old: &[u8],
    list: &[u8],
    index: &mut [u32],
    out: &mut [u8],
) -> Result<usize, NotMerged>
    ensures value { result ≡ merge_of paper n old.now list.now (length index.old) (length out.old) }
    ensures index_after { index.new ≡ index_after paper n list.now index.old }
    ensures out_after { out.new ≡ output_of paper n old.now list.now (length index.old) out.old }
{
    let k = edits::list::prepare(n, list, index)?;
    with_edits(n, old, list, &index[0..k], out)
}

// The merge once the index is ready: it holds the places of all edits in name order, and no two edits have one name. The number of digits, the list and its
// index stay three parameters, here and below: the clauses read each by itself, and read it off a struct they would be longer than the calls are now.
fn with_edits(
    n: usize,
    old: &[u8],
    list: &[u8],
    index: &[u32],
    out: &mut [u8],
) -> Result<usize, NotMerged>
    requires { (length index.now ≤ 4096) × Rising list.now index.now }
    ensures value { result ≡ judged paper n old.now (edits_at n list.now index.now) (length out.old) }
    ensures out_after { out.new ≡ output_by (new_file (old_entries paper n old.now) (edits_at n list.now index.now)) out.old result }
{
    let header = header::open(old)?;
    behind_header(n, old, header.body, list, index, out)
}

// The merge once the header was read: the old records begin at the place `body`.
fn behind_header(
    n: usize,
    old: &[u8],
    body: usize,
    list: &[u8],
    index: &[u32],
    out: &mut [u8],
) -> Result<usize, NotMerged>
    requires { (length index.now ≤ 4096) × Rising list.now index.now }
    ensures value { result ≡ judged_by (entries_of n (items paper n (drop body old.now))) (edits_at n list.now index.now) (length out.old) (judge_body paper n old.now body) }
    ensures out_after { out.new ≡ output_by (new_file (entries_of n (items paper n (drop body old.now))) (edits_at n list.now index.now)) out.old result }
{
    let mut marks = no_marks();
    runs::survey(n, old, body, list, index, &mut marks)?;
    finish(n, old, body, list, index, &marks, out)
}

// Room for the start and the end of each edit's run, in fixed memory: nothing here allocates.
fn no_marks() -> [usize; 8192] {
    [0; 8192]
}

// The merge once the old file has passed the check and the runs are known: 13, 14 and 12, then the writing. Nothing is written before all
// refusals are known.
fn finish(
    n: usize,
    old: &[u8],
    body: usize,
    list: &[u8],
    index: &[u32],
    marks: &[usize],
    out: &mut [u8],
) -> Result<usize, NotMerged>
    ensures value { result ≡ spliced_answer header_line (is_still list.now index.now marks.now) (spliced_file header_line n old.now list.now body index.now marks.now) (length out.old) }
    ensures out_after { out.new ≡ output_by (spliced_file header_line n old.now list.now body index.now marks.now) out.old result }
{
    if runs::is_still(list, index, marks) {
        return Err(NotMerged::NothingToDo);
    }
    let header = lines::header();
    let len = write::write(&header, n, old, body, list, index, marks, &mut out[0..0]);
    if len == header.len() {
        return Err(NotMerged::NoRecord);
    }
    if out.len() < len {
        return Err(NotMerged::ShortOutput);
    }
    write::write(&header, n, old, body, list, index, marks, out);
    Ok(len)
}
