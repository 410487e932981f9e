// The one pass over the old records: the check, and for each edit the run of old bytes that it replaces.
#![tactic(auto)]

ghost use Rattle.std.specs.Prelude.{◌≡◌, ◌∷◌, [], ◌+◌, ◌*◌, get_or, length, drop};
ghost use Rattle.class.specs.Class.{paper};
ghost use Rattle.checks.specs.Check.{judge_body};
ghost use Rattle.iter.specs.Items.{items};
ghost use Rattle.put.specs.Put.{over};
ghost use Rattle.runs.specs.Runs.{surveyed, settles, at_end, marks_of, is_still};

use checks::Verdict;
use std::cmp::Ordering;

// Checks the records from a place on, and finds the run of each edit. The index holds the places of the edits in the list, in name order. Each edit
// has two marks, in the index's order: where its run starts, and where it ends. They are put to the front of `marks`; what has no room is left out.
// At the first fault the check ends, and the edits that are not settled by then get no marks.
pub fn survey(
    n: usize,
    file: &[u8],
    body: usize,
    list: &[u8],
    index: &[u32],
    marks: &mut [usize],
) -> Verdict
    ensures value { result ≡ judge_body paper n file.now body }
    ensures marks_after { marks.new ≡ over marks.old 0 (marks_of (surveyed n list.now body [] (items paper n (drop body file.now)) index.now)) }
{
    let mut place = body;
    let mut count = 0;
    let mut last = &file[0..0];
    let mut j = 0;
    loop {
        match checks::take_turn(n, file, place, last) {
            Ok(None) => {
                settle_rest(index, j, place, marks);
                return Ok(count);
            }
            Err(why) => {
                return Err(why);
            }
            Ok(Some(found)) => {
                last = decode::reference::name_of(&file[place..], n, found);
                let next = place + found.size;
                j = settle(list, index, j, last, place, next, marks);
                count += 1;
                place = next;
            }
        }
    }
}

// A record settles the edits whose names are not greater than its own: those of the index's entry `from` on get their runs. Gives the first entry
// that it does not settle.
fn settle(
    list: &[u8],
    index: &[u32],
    from: usize,
    name: &[u8],
    place: usize,
    next: usize,
    marks: &mut [usize],
) -> usize
    ensures value { result ≡ from + length (settles list.now name.now place next (drop from index.now)) }
    ensures marks_after { marks.new ≡ over marks.old (2 * from) (marks_of (settles list.now name.now place next (drop from index.now))) }
{
    for j in from..index.len() {
        match compare::order::compare(name, parts::edit_name(list, index[j])) {
            Ordering::Less => {
                return j;
            }
            Ordering::Equal => {
                mark(marks, 2 * j, place, next);
                return j + 1;
            }
            Ordering::Greater => mark(marks, 2 * j, place, place),
        }
    }
    from.max(index.len())
}

// The edits of the index's entry `from` on have greater names than all records: each gets an empty run behind the last record.
fn settle_rest(index: &[u32], from: usize, place: usize, marks: &mut [usize])
    ensures { marks.new ≡ over marks.old (2 * from) (marks_of (at_end place (drop from index.now))) }
{
    for j in from..index.len() {
        mark(marks, 2 * j, place, place);
    }
}

// The start and the end of a run put at a place of the marks, as far as there is room.
fn mark(marks: &mut [usize], at: usize, start: usize, end: usize)
    ensures { marks.new ≡ over marks.old at (start ∷ end ∷ []) }
{
    // The library's `get_mut` says nothing of what the slice ends as.
    if at < marks.len() {
        marks[at] = start;
        if at + 1 < marks.len() {
            marks[at + 1] = end;
        }
    }
}

// The mark at a place, or 0 where there is none.
pub fn mark_at(marks: &[usize], at: usize) -> usize
    ensures { result ≡ get_or marks.now at 0 }
{
    marks.get(at).copied().unwrap_or_default()
}

// Whether the edits leave every record as it is: there is no update, and every run is empty.
pub fn is_still(list: &[u8], index: &[u32], marks: &[usize]) -> bool
    ensures { result ≡ is_still list.now index.now marks.now }
{
    index.iter().enumerate().all(|(j, place)| {
        parts::edit_kind(list, *place) == 0 && mark_at(marks, 2 * j) == mark_at(marks, 2 * j + 1)
    })
}
