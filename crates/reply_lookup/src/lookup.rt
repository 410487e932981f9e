// Lookup of one name in a checked body.
ghost use Rattle.std.specs.Prelude.{◌≡◌};
ghost use Rattle.find.specs.Lookup.{lookup_answer};
ghost use Rattle.tell.specs.Told.{no_parts};
ghost use Rattle.reply_lookup.specs.Lookup.{lookup_reply, LookupNear, lookup_gives};

use find::lookup::Lookup;
use parse::limit::NotAdmitted;

#[repr(C)]
#[derive(Clone, Copy, Default)]
pub struct LookupReply {
    pub number: u32,
    // Where the record starts that was hit, which is where its id stands: beside 0, 41 and 45.
    pub place: usize,
    pub name_at: usize,
    pub name_len: usize,
    // 0 where there is no peeled id.
    pub peeled_at: usize,
}

pub fn lookup_reply(kind: u32, body: &[u8], name: &[u8]) -> LookupReply
    ensures { result ≡ lookup_reply kind (lookup_answer kind body.now name.now) }
{
    lookup_told(kind, find::lookup::find(kind, body, name))
}

fn lookup_told(kind: u32, answer: Result<Lookup, NotAdmitted>) -> LookupReply
    requires { LookupNear answer }
    ensures { result ≡ lookup_reply kind answer }
{
    match answer {
        Ok(Lookup::Charted { place, found }) => {
            let parts = tell::parts_at(kind, place, found);
            LookupReply {
                number: 0,
                place,
                name_at: parts.name_at,
                name_len: parts.name_len,
                peeled_at: parts.peeled_at,
            }
        }
        Ok(Lookup::BadRecord { place, fault }) => refused(tell::fault_number(fault), place),
        Ok(Lookup::Unsure) => refused(4, 0),
        Ok(Lookup::Absent) => refused(5, 0),
        Ok(Lookup::BadName) => refused(3, 0),
        Err(why) => refused(why as u32, 0),
    }
}

// A number with a place beside it, or 0.
fn refused(number: u32, place: usize) -> LookupReply
    ensures { result ≡ lookup_gives number place no_parts }
{
    LookupReply {
        number,
        place,
        ..LookupReply::default()
    }
}
