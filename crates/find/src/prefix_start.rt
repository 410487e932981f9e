// Where a prefix iteration starts. From there the caller goes on by `iter::step`, with the same prefix.
ghost use Rattle.std.specs.Prelude.{◌≡◌, ◌≤◌, length};
ghost use Rattle.class.specs.Class.{paper};
ghost use Rattle.find.specs.PrefixStart.{prefix_start_of, prefix_start_from, prefix_start_answer};

use header::BadHeader;
use parse::limit::NotAdmitted;

// The bytes from the start of a listing on begin with # but with no header that can be read.
#[derive(Clone, Copy)]
pub struct BadStart {
    // Where they begin.
    pub place: usize,
    // The length of that text.
    pub text: usize,
}

// The place that the first step is taken from. It tells no line: the listing starts in the middle.
#[tactic(auto, unfolding(crate::specs::PrefixStart::prefix_start_answer))]
pub fn begin(kind: u32, body: &[u8], prefix: &[u8]) -> Result<Result<usize, BadStart>, NotAdmitted>
    ensures { result ≡ prefix_start_answer kind body.now prefix.now }
{
    let n = parse::limit::admit(kind, body.len(), prefix.len())?;
    Ok(begin_with_digits(n, body, prefix))
}

// The same for ids of n digits. Whether a probe failed is not asked.
pub fn begin_with_digits(n: usize, body: &[u8], prefix: &[u8]) -> Result<usize, BadStart>
    ensures { result ≡ prefix_start_of paper n body.now prefix.now }
{
    let place = search::search(n, body, prefix).unwrap_or_else(|miss| miss.place);
    begin_from(body, place)
}

// The start, where the search came to a place: the bytes from there on are looked at for a header.
fn begin_from(body: &[u8], place: usize) -> Result<usize, BadStart>
    requires { place ≤ length body.now }
    ensures { result ≡ prefix_start_from paper body.now place }
{
    match start::begin_without_kind(parse::part::between(body, place, body.len())) {
        Ok(start) => Ok(place + start.place),
        Err(BadHeader { text }) => Err(BadStart { place, text }),
    }
}
