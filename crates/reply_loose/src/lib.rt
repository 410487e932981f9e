// The reply to loose content: what the content of a loose reference file says.
#![tactic(auto)]

ghost use Rattle.std.specs.Prelude.{◌≡◌};
ghost use Rattle.loose.specs.Loose.{loose_answer};
ghost use Rattle.reply_loose.specs.Loose.{loose_reply, loose_gives};

use loose::{Loose, LooseFault};
use parse::limit::NotAdmitted;

#[repr(C)]
#[derive(Clone, Copy, Default)]
pub struct LooseReply {
    pub number: u32,
    // 1 an id, 2 the name of another reference, 0 beside a refusal.
    pub what: u32,
    // Where it stands, and its length.
    pub at: usize,
    pub len: usize,
}

pub fn loose_reply(kind: u32, content: &[u8]) -> LooseReply
    ensures { result ≡ loose_reply (loose_answer kind content.now) }
{
    loose_told(loose::read(kind, content))
}

fn loose_told(answer: Result<Result<Loose, LooseFault>, NotAdmitted>) -> LooseReply
    ensures { result ≡ loose_reply answer }
{
    match answer {
        Ok(Ok(Loose::Id(len))) => LooseReply {
            what: 1,
            len,
            ..LooseReply::default()
        },
        Ok(Ok(Loose::Symbolic { from, len })) => LooseReply {
            what: 2,
            at: from,
            len,
            ..LooseReply::default()
        },
        Ok(Err(fault)) => refused(fault as u32),
        Err(why) => refused(why as u32),
    }
}

// A number alone.
fn refused(number: u32) -> LooseReply
    ensures { result ≡ loose_gives number 0 0 0 }
{
    LooseReply {
        number,
        ..LooseReply::default()
    }
}
