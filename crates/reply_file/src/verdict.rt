// The check of a whole file.
ghost use Rattle.std.specs.Prelude.{◌≡◌};
ghost use Rattle.checks.specs.Check.{check_answer};
ghost use Rattle.reply_file.specs.Verdict.{check_reply};

use checks::Verdict;
use parse::limit::NotAdmitted;

#[repr(C)]
#[derive(Clone, Copy, Default)]
pub struct CheckReply {
    pub number: u32,
    // Where the item of numbers 41 to 45 and 6 starts.
    pub place: usize,
    // Beside 41 to 45 the number of the line that starts there.
    pub line: u64,
    // How many records.
    pub count: usize,
    // The length of number 2's text, which starts at 0; beside 41 to 45 that of the line from `place` on, without the LF that ends it.
    pub text_len: usize,
}

pub fn check_reply(kind: u32, file: &[u8]) -> CheckReply
    ensures { result ≡ check_reply file.now (check_answer kind file.now) }
{
    check_told(file, checks::check(kind, file))
}

fn check_told(file: &[u8], answer: Result<Verdict, NotAdmitted>) -> CheckReply
    ensures { result ≡ check_reply file.now answer }
{
    match answer {
        Ok(Ok(count)) => CheckReply {
            count,
            ..CheckReply::default()
        },
        Ok(Err(why)) => {
            let told = tell::refusal(file, why);
            CheckReply {
                number: told.number,
                place: told.place,
                line: told.line,
                text_len: told.text_len,
                ..CheckReply::default()
            }
        }
        Err(why) => CheckReply {
            number: why as u32,
            ..CheckReply::default()
        },
    }
}
