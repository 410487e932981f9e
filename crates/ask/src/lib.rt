// The lookup that can be trusted on any bytes: absent is said only of a file that passes the check.
#![tactic(auto)]

ghost use Rattle.std.specs.Prelude.{◌≡◌};
ghost use Rattle.class.specs.Class.{paper};
ghost use Rattle.ask.specs.Ask.{ask_of, ask_answer, ask_body, sought_from, told_of};

use checks::{Refusal, Verdict};
use decode::reference::Record;
use header::BadHeader;
use parse::limit::NotAdmitted;

// What is told of a name. No Option and no Result: that no record has the name is an answer and no error, and it must not be mistaken for one.
#[derive(Clone, Copy)]
pub enum Told {
    // A record of the file has the name: where it starts, and what the check says of the whole file. Where the file does not pass, the record may
    // itself be what the damage made.
    Charted {
        place: usize,
        found: Record,
        verdict: Verdict,
    },
    // The whole file passes the check, and no record has the name.
    Absent,
    // The wanted name breaks the name rules.
    BadName,
    // The header can't be read, and no record was looked for; or no record has the name, and the file does not pass the check.
    Refused(Refusal),
}

// A record, and where it starts.
#[derive(Clone, Copy)]
pub struct Found {
    pub place: usize,
    pub reading: Record,
}

#[tactic(auto, unfolding(crate::specs::Ask::ask_answer))]
pub fn ask(kind: u32, file: &[u8], name: &[u8]) -> Result<Told, NotAdmitted>
    ensures { result ≡ ask_answer kind file.now name.now }
{
    let n = parse::limit::admit(kind, file.len(), name.len())?;
    Ok(ask_with_digits(n, file, name))
}

// The same for ids of n digits.
#[tactic(auto, unfolding(crate::specs::Ask::ask_of))]
pub fn ask_with_digits(n: usize, file: &[u8], name: &[u8]) -> Told
    ensures { result ≡ ask_of paper n file.now name.now }
{
    if !name::is_valid(name) {
        return Told::BadName;
    }
    match header::open(file) {
        Err(BadHeader { text }) => Told::Refused(Refusal::BadHeader(text)),
        Ok(h) => ask_body(n, file, h.body, name),
    }
}

// One pass from a place on that checks the records and looks for the name at once. From a record of the name on it checks alone, from the first fault
// on it looks for the name alone; with both it ends.
pub(crate) fn ask_body(n: usize, file: &[u8], body: usize, name: &[u8]) -> Told
    ensures { result ≡ ask_body paper n file.now body name.now }
{
    let mut place = body;
    let mut count = 0;
    let mut last = &file[0..0];
    loop {
        let found = match checks::take_turn(n, file, place, last) {
            Ok(Some(found)) => found,
            Ok(None) => return Told::Absent,
            Err(why) => {
                let sought = first_named(n, file, place, name);
                return tell(sought, checks::refused(why));
            }
        };
        last = decode::reference::name_of(&file[place..], n, found);
        count += 1;
        let next = place + found.size;
        if compare::prefix::is_same(last, name) {
            let verdict = checks::check_from(n, file, next, count, last);
            return Told::Charted {
                place,
                found,
                verdict,
            };
        }
        place = next;
    }
}

// The first record of a name from a place on, whatever stands before it.
pub(crate) fn first_named(n: usize, file: &[u8], from: usize, name: &[u8]) -> Option<Found>
    ensures { result ≡ sought_from paper n file.now from name.now }
{
    let mut place = from;
    while place < file.len() {
        let rest = &file[place..];
        match decode::reference::reference(rest, n) {
            Err(_) => place = parse::line::line_end(file, place),
            Ok(reading) => {
                if compare::prefix::is_same(decode::reference::name_of(rest, n, reading), name) {
                    return Some(Found { place, reading });
                }
                place += reading.size;
            }
        }
    }
    None
}

// A record that was found, with the verdict on the whole file; or else the verdict.
fn tell(sought: Option<Found>, whole: Verdict) -> Told
    ensures { result ≡ told_of sought whole }
{
    match (sought, whole) {
        (Some(Found { place, reading }), _) => Told::Charted {
            place,
            found: reading,
            verdict: whole,
        },
        (None, Ok(_)) => Told::Absent,
        (None, Err(why)) => Told::Refused(why),
    }
}
