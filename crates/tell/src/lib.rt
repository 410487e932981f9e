// What several replies have in common: where a record's parts stand, and a refusal with what stands beside its number.
#![tactic(auto)]

ghost use Rattle.std.specs.Prelude.{◌≡◌, ◌≤◌, false};
ghost use Rattle.decode.specs.Record.{fault_number};
ghost use Rattle.checks.specs.Check.{refusal_number, verdict_number};
ghost use Rattle.tell.specs.Told.{name_at, beyond_limit, peeled_at, no_parts, parts_told, refusal_told};

use checks::{Refusal, Verdict};
use decode::reference::{Fault, Record};

// Where the parts of a record stand, in the bytes in which its own place is counted.
#[derive(Clone, Copy, Default)]
pub struct Parts {
    pub name_at: usize,
    pub name_len: usize,
    // 0 where there is no peeled id: the replies have numbers alone, for C.
    pub peeled_at: usize,
}

// The parts of a record that starts at a place. Lent bytes end at the size limit, so a record in them has no place beyond it; for one that had, the
// sums might not fit, and every part is 0.
#[tactic(auto, unfolding(crate::specs::Told::parts_told))]
pub fn parts_at(kind: u32, place: usize, found: Record) -> Parts
    ensures { result ≡ parts_told kind place found }
{
    if parse::limit::over_limit(place) || beyond_limit(found.peeled) {
        return no_parts();
    }
    Parts {
        name_at: name_at(kind, place),
        name_len: found.name_len,
        peeled_at: peeled_at(place, found.peeled),
    }
}

// Whether there is a peeled id that stands beyond the size limit.
fn beyond_limit(peeled: Option<usize>) -> bool
    ensures { result ≡ beyond_limit peeled }
{
    peeled.is_some_and(parse::limit::over_limit)
}

// Where there is no record.
pub fn no_parts() -> Parts
    ensures { result ≡ no_parts }
{
    Parts::default()
}

// Where the name stands of a record that starts at a place: behind the id and one space.
#[tactic(auto, unfolding(crate::specs::Told::name_at))]
fn name_at(kind: u32, place: usize) -> usize
    requires { place ≤ 1073741824 }
    ensures { result ≡ name_at kind place }
{
    place + parse::limit::digits(kind).unwrap_or(0) + 1
}

// Where the peeled id stands, or 0 where there is none.
#[tactic(auto, unfolding(crate::specs::Told::peeled_at))]
fn peeled_at(place: usize, peeled: Option<usize>) -> usize
    requires { (place ≤ 1073741824) × (beyond_limit peeled ≡ false) }
    ensures { result ≡ peeled_at place peeled }
{
    peeled.map_or(0, |at| place + at)
}

// A refusal's number and what stands beside it: a place, the number of the line that begins there, the length of a text; else 0.
#[derive(Clone, Copy, Default)]
pub struct Numbered {
    pub number: u32,
    pub place: usize,
    pub line: u64,
    pub text_len: usize,
}

// Why a file does not pass the check. Its lines are counted only up to a record that can't be read.
pub fn refusal(file: &[u8], why: Refusal) -> Numbered
    ensures { result ≡ refusal_told file.now why }
{
    let number = refusal_number(why);
    match why {
        Refusal::BadHeader(text_len) => Numbered {
            number,
            text_len,
            ..Numbered::default()
        },
        Refusal::BadRecord { place, .. } => Numbered {
            number,
            place,
            line: line_number::line_number(file, place),
            text_len: line_number::text_len(file, place),
        },
        Refusal::Unsorted(place) => Numbered {
            number,
            place,
            ..Numbered::default()
        },
    }
}

// The number that the check gives. It is told without the file: no line is counted for it.
pub fn verdict_number(verdict: Verdict) -> u32
    ensures { result ≡ verdict_number verdict }
{
    match verdict {
        Ok(_) => 0,
        Err(why) => refusal_number(why),
    }
}

// The paper's number for a refusal. Its cases hold values, so no cast gives it.
fn refusal_number(why: Refusal) -> u32
    ensures { result ≡ refusal_number why }
{
    match why {
        Refusal::BadHeader(_) => 2,
        Refusal::BadRecord { fault, .. } => fault_number(fault),
        Refusal::Unsorted(_) => 6,
    }
}

// The paper's number for a part that can't be read.
pub fn fault_number(fault: Fault) -> u32
    ensures { result ≡ fault_number fault }
{
    fault as u32
}
