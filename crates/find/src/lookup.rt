// Lookup of one full name in the bytes behind a header.
ghost use Rattle.std.specs.Prelude.{◌≡◌};
ghost use Rattle.class.specs.Class.{paper};
ghost use Rattle.find.specs.Lookup.{lookup_of, lookup_answer};

use decode::reference::{Fault, Record};
use parse::limit::NotAdmitted;
use search::Miss;

// No Option and no Result: that no record has the name is an answer and no error, and it must not be mistaken for one.
#[derive(Clone, Copy)]
pub enum Lookup {
    // The record of that name, and where it starts.
    Charted { place: usize, found: Record },
    // The record that was hit can't be read: where it starts, and the first part that can't be read.
    BadRecord { place: usize, fault: Fault },
    // No record was hit, but a probe met a shape that fails: nothing is known.
    Unsure,
    // No record was hit, and every probe read a name. Only in a checked body does that mean that no record has the name.
    Absent,
    // The wanted name breaks the name rules.
    BadName,
}

#[tactic(auto, unfolding(crate::specs::Lookup::lookup_answer))]
pub fn find(kind: u32, body: &[u8], name: &[u8]) -> Result<Lookup, NotAdmitted>
    ensures { result ≡ lookup_answer kind body.now name.now }
{
    let n = parse::limit::admit(kind, body.len(), name.len())?;
    Ok(find_with_digits(n, body, name))
}

// The same for ids of n digits.
pub fn find_with_digits(n: usize, body: &[u8], name: &[u8]) -> Lookup
    ensures { result ≡ lookup_of paper n body.now name.now }
{
    if !name::is_valid(name) {
        return Lookup::BadName;
    }
    let place = match search::search(n, body, name) {
        Ok(place) => place,
        Err(Miss { failed: true, .. }) => return Lookup::Unsure,
        Err(Miss { failed: false, .. }) => return Lookup::Absent,
    };
    match decode::reference::reference(parse::part::between(body, place, body.len()), n) {
        Ok(found) => Lookup::Charted { place, found },
        Err(fault) => Lookup::BadRecord { place, fault },
    }
}
