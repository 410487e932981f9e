// The lookup that can be trusted on any bytes.
ghost use Rattle.std.specs.Prelude.{◌≡◌};
ghost use Rattle.ask.specs.Ask.{ask_answer};
ghost use Rattle.tell.specs.Told.{no_parts};
ghost use Rattle.reply_lookup.specs.Asked.{ask_reply, AskNear, ask_gives};

use ask::Told;
use parse::limit::NotAdmitted;

#[repr(C)]
#[derive(Clone, Copy, Default)]
pub struct AskReply {
    pub number: u32,
    // Where the record starts, or the item of numbers 41 to 45 and 6.
    pub place: usize,
    // Beside 41 to 45 the number of the line that starts there.
    pub line: u64,
    pub name_at: usize,
    pub name_len: usize,
    // 0 where there is no peeled id.
    pub peeled_at: usize,
    // The length of number 2's text, which starts at 0; beside 41 to 45 that of the line from `place` on, without the LF that ends it.
    pub text_len: usize,
    // Beside 0 the number that the check gives of the whole file.
    pub fault: u32,
}

pub fn ask_reply(kind: u32, file: &[u8], name: &[u8]) -> AskReply
    ensures { result ≡ ask_reply kind file.now (ask_answer kind file.now name.now) }
{
    ask_told(kind, file, ask::ask(kind, file, name))
}

fn ask_told(kind: u32, file: &[u8], answer: Result<Told, NotAdmitted>) -> AskReply
    requires { AskNear answer }
    ensures { result ≡ ask_reply kind file.now answer }
{
    match answer {
        Ok(
            Told::Charted {
                place,
                found,
                verdict,
            },
        ) => {
            let parts = tell::parts_at(kind, place, found);
            AskReply {
                place,
                name_at: parts.name_at,
                name_len: parts.name_len,
                peeled_at: parts.peeled_at,
                fault: tell::verdict_number(verdict),
                ..AskReply::default()
            }
        }
        Ok(Told::Absent) => numbered(5),
        Ok(Told::BadName) => numbered(3),
        Ok(Told::Refused(why)) => {
            let told = tell::refusal(file, why);
            AskReply {
                number: told.number,
                place: told.place,
                line: told.line,
                text_len: told.text_len,
                ..AskReply::default()
            }
        }
        Err(why) => numbered(why as u32),
    }
}

// A number alone.
fn numbered(number: u32) -> AskReply
    ensures { result ≡ ask_gives number 0 0 no_parts 0 0 }
{
    AskReply {
        number,
        ..AskReply::default()
    }
}
