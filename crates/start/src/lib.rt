// Where the iteration of a whole file starts.
#![tactic(auto)]

ghost use Rattle.std.specs.Prelude.{◌≡◌};
ghost use Rattle.class.specs.Class.{paper};
ghost use Rattle.start.specs.Start.{start_of, start_answer, start_line};

use header::BadHeader;
use parse::limit::NotAdmitted;

#[derive(Clone, Copy)]
pub struct Start {
    // The place behind the header.
    pub place: usize,
    // The number of the line that begins there.
    pub line: u64,
}

pub fn begin(kind: u32, file: &[u8]) -> Result<Result<Start, BadHeader>, NotAdmitted>
    ensures { result ≡ start_answer kind file.now }
{
    parse::limit::admit(kind, file.len(), 0)?;
    Ok(begin_without_kind(file))
}

// The same without a kind; a file of any size is taken.
pub fn begin_without_kind(file: &[u8]) -> Result<Start, BadHeader>
    ensures { result ≡ start_of paper file.now }
{
    let header = header::open(file)?;
    Ok(Start {
        place: header.body,
        line: start_line(file),
    })
}

// The number of the line that the items begin on. A header is line 1, so behind it they begin on line 2.
#[tactic(auto, unfolding(crate::specs::Start::start_line))]
fn start_line(file: &[u8]) -> u64
    ensures { result ≡ start_line file.now }
{
    match file {
        [b'#', ..] => 2,
        _ => 1,
    }
}
