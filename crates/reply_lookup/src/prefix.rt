// Where the listing of a prefix starts.
ghost use Rattle.std.specs.Prelude.{◌≡◌};
ghost use Rattle.find.specs.PrefixStart.{prefix_start_answer};
ghost use Rattle.reply_lookup.specs.Prefix.{prefix_reply};

use find::prefix_start::BadStart;
use parse::limit::NotAdmitted;

#[repr(C)]
#[derive(Clone, Copy, Default)]
pub struct PrefixReply {
    pub number: u32,
    // The place that the first step is given.
    pub place: usize,
    // Number 2's text.
    pub text_at: usize,
    pub text_len: usize,
}

pub fn prefix_reply(kind: u32, body: &[u8], prefix: &[u8]) -> PrefixReply
    ensures { result ≡ prefix_reply (prefix_start_answer kind body.now prefix.now) }
{
    prefix_told(find::prefix_start::begin(kind, body, prefix))
}

fn prefix_told(answer: Result<Result<usize, BadStart>, NotAdmitted>) -> PrefixReply
    ensures { result ≡ prefix_reply answer }
{
    match answer {
        Ok(Ok(place)) => PrefixReply {
            place,
            ..PrefixReply::default()
        },
        Ok(Err(BadStart { place, text })) => PrefixReply {
            number: 2,
            text_at: place,
            text_len: text,
            ..PrefixReply::default()
        },
        Err(why) => PrefixReply {
            number: why as u32,
            ..PrefixReply::default()
        },
    }
}
