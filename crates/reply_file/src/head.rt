// The header of a file, and the rules of a name.
ghost use Rattle.std.specs.Prelude.{◌≡◌};
ghost use Rattle.header.specs.Header.{header_answer};
ghost use Rattle.reply_file.specs.Head.{header_reply, name_number};

use header::{BadHeader, Header};
use parse::limit::TooLarge;

#[repr(C)]
#[derive(Clone, Copy, Default)]
pub struct HeaderReply {
    pub number: u32,
    // 0 unspecified, 1 partial, 2 fully.
    pub peeled: u32,
    pub sorted: u32,
    // Behind the header; 0 without one.
    pub place: usize,
    // The length of number 2's text, which starts at 0.
    pub text_len: usize,
}

pub fn header_reply(file: &[u8]) -> HeaderReply
    ensures { result ≡ header_reply (header_answer file.now) }
{
    header_told(header::read_header(file))
}

fn header_told(answer: Result<Result<Header, BadHeader>, TooLarge>) -> HeaderReply
    ensures { result ≡ header_reply answer }
{
    match answer {
        Ok(
            Ok(
                Header {
                    peeled,
                    sorted,
                    body,
                },
            ),
        ) => HeaderReply {
            peeled: peeled as u32,
            sorted: u32::from(sorted),
            place: body,
            ..HeaderReply::default()
        },
        Ok(Err(BadHeader { text })) => HeaderReply {
            number: 2,
            text_len: text,
            ..HeaderReply::default()
        },
        Err(TooLarge) => HeaderReply {
            number: 17,
            ..HeaderReply::default()
        },
    }
}

// The number alone, as C is given it; no enum stands behind it: 0 for a valid name, 3 for another, 17.
#[tactic(auto, unfolding(crate::specs::Head::name_number))]
pub fn name_number(name: &[u8]) -> u32
    ensures { result ≡ name_number name.now }
{
    if parse::limit::over_limit(name.len()) {
        return 17;
    }
    if name::is_valid(name) {
        return 0;
    }
    3
}
