// The check of a whole file: every item a record, every name greater than the one before.
#![tactic(auto)]

ghost use Rattle.std.specs.Prelude.{◌≡◌};
ghost use Rattle.class.specs.Class.{paper};
ghost use Rattle.checks.specs.Check.{check_of, check_answer, judge_from, count_before, turn_of};

use decode::reference::{Fault, Record};
use header::BadHeader;
use parse::limit::NotAdmitted;

// Why a file does not pass the check. Every function that checks a file, be it to merge it or to look up a name, hands on this value.
#[derive(Clone, Copy)]
pub enum Refusal {
    // A first line that begins with # but can't be read as a header: the length of its text.
    BadHeader(usize),
    // The first item that is an error, and which part of it can't be read.
    BadRecord { place: usize, fault: Fault },
    // The first record whose name isn't greater than the one before.
    Unsorted(usize),
}

impl From<BadHeader> for Refusal {
    ghost use Rattle.checks.specs.declared.Refusal.TheVariants.{BadHeader};
    ghost use Rattle.std.specs.Prelude.{◌≡◌};

    ghost from_gives = { λ bad why. why ≡ BadHeader bad.text };

    fn from(bad: BadHeader) -> Refusal {
        Refusal::BadHeader(bad.text)
    }
}

// What a check comes to: the file passes, and has so many records; or why it does not.
pub type Verdict = Result<usize, Refusal>;

pub fn check(kind: u32, file: &[u8]) -> Result<Verdict, NotAdmitted>
    ensures { result ≡ check_answer kind file.now }
{
    let n = parse::limit::admit(kind, file.len(), 0)?;
    Ok(check_with_digits(n, file))
}

// The same for ids of n digits.
pub fn check_with_digits(n: usize, file: &[u8]) -> Verdict
    ensures { result ≡ check_of paper n file.now }
{
    let header = header::open(file)?;
    check_from(n, file, header.body, 0, &file[0..0])
}

// The check from a place on, in one pass: only the name before is looked at again. So many records have passed before the place, and the last of them has
// that name, which is empty before the first.
pub fn check_from<'a>(
    n: usize,
    file: &'a [u8],
    from: usize,
    passed: usize,
    name: &'a [u8],
) -> Verdict
    ensures { result ≡ judge_from paper n file.now from (count_before passed from) name.now }
{
    let mut place = from;
    // No more records than bytes stand before a place: so cut, the count never overflows.
    let mut count = passed.min(from);
    let mut last = name;
    loop {
        match take_turn(n, file, place, last) {
            Ok(None) => {
                return Ok(count);
            }
            Err(why) => {
                return refused(why);
            }
            Ok(Some(found)) => {
                last = decode::reference::name_of(&file[place..], n, found);
                count += 1;
                place += found.size;
            }
        }
    }
}

// The verdict where a pass ends at a fault. The refusal is made anew, case by case: handed on whole, as bytes, it would be copied in every turn of the
// pass, since it lies where a record that is in order lies in a turn's answer.
pub fn refused(why: Refusal) -> Verdict
    ensures { result ≡ Err why }
{
    match why {
        Refusal::BadHeader(text) => Err(Refusal::BadHeader(text)),
        Refusal::BadRecord { place, fault } => Err(Refusal::BadRecord { place, fault }),
        Refusal::Unsorted(place) => Err(Refusal::Unsorted(place)),
    }
}

// One turn of every pass that checks: the record that stands at a place and whose name is greater than the one before, or none at the end of the bytes; or an
// item that is no record, or a record whose name is not greater. `last` is the name of the record before it, and empty before the first.
pub fn take_turn(
    n: usize,
    file: &[u8],
    place: usize,
    last: &[u8],
) -> Result<Option<Record>, Refusal>
    ensures { result ≡ turn_of paper n file.now place last.now }
{
    if file.len() <= place {
        return Ok(None);
    }
    let rest = &file[place..];
    match decode::reference::reference(rest, n) {
        Err(fault) => Err(Refusal::BadRecord { place, fault }),
        Ok(found) => {
            if !compare::order::is_less(last, decode::reference::name_of(rest, n, found)) {
                return Err(Refusal::Unsorted(place));
            }
            Ok(Some(found))
        }
    }
}
