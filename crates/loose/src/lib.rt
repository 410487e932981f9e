// The content of a loose reference file: an id, or `ref: ` and the name of another reference.
//
//     1111111111111111111111111111111111111111
//     ref: refs/heads/main
//
// Either stands at the front. Behind an id anything may follow but another hex digit. Before the name there may be more
// spaces, and it ends at the first NUL, CR or LF, or where the content ends.
#![tactic(auto)]

ghost use Rattle.std.specs.Prelude.{◌≡◌, ◌+◌, ℕ, Bool, not, take, drop};
ghost use Rattle.class.specs.Class.{paper, classes_of};
ghost use Rattle.parse.specs.Run.{span};
ghost use Rattle.loose.specs.Loose.{ends_path, symbolic_of, full_id, loose_of, loose_answer};

use parse::limit::NotAdmitted;

// What content says.
#[derive(Clone, Copy)]
pub enum Loose {
    // An id of so many digits. It stands at 0.
    Id(usize),
    // The valid name of another reference: its place and its length. `target_of` hands back its bytes.
    Symbolic { from: usize, len: usize },
}

// Why content says nothing, by its number.
#[derive(Clone, Copy)]
pub enum LooseFault {
    // Neither `ref: ` nor an id.
    Unreadable = 15,
    // `ref: ` without a valid name.
    BadTarget = 16,
}

// The content for any id kind, with the kind's refusal first, then the size limit.
#[tactic(auto, unfolding(crate::specs::Loose::loose_answer))]
pub fn read(kind: u32, content: &[u8]) -> Result<Result<Loose, LooseFault>, NotAdmitted>
    ensures { result ≡ loose_answer kind content.now }
{
    let n = parse::limit::admit(kind, content.len(), 0)?;
    Ok(read_with_digits(n, content))
}

// The same for ids of n digits.
#[tactic(auto, unfolding(crate::specs::Loose::loose_of))]
pub fn read_with_digits(n: usize, content: &[u8]) -> Result<Loose, LooseFault>
    ensures { result ≡ loose_of paper n content.now }
{
    if compare::prefix::begins_with(content, b"ref: ") {
        return symbolic(content);
    }
    if full_id(n, content) {
        return Ok(Loose::Id(n));
    }
    Err(LooseFault::Unreadable)
}

// What stands behind the mark `ref: `.
fn symbolic(content: &[u8]) -> Result<Loose, LooseFault>
    ensures { result ≡ symbolic_of paper content.now }
{
    let t = class::table();
    let from = first(content, 5, |b| b != b' ');
    let end = first(content, from, |b| ends_path(&t, b));
    if !name::is_valid(parse::part::between(content, from, end)) {
        return Err(LooseFault::BadTarget);
    }
    let len = end - from;
    Ok(Loose::Symbolic { from, len })
}

// The target of a symbolic reference, as that part of the lent content. A place and a length that no answer told give as many bytes as there are
// in that part.
pub fn target_of(content: &[u8], from: usize, len: usize) -> &[u8]
    ensures { result.now ≡ take len (drop from content.now) }
{
    let rest = parse::part::between(content, from, content.len());
    parse::part::between(rest, 0, len)
}

// The place of the first byte from a place on that passes a test, or the end; the place itself where that is beyond the end.
fn first<F: Fn(u8) -> bool>(s: &[u8], at: usize, test: F) -> usize
    requires { F.IsAlwaysCallable test }
    ensures { (fails : ℕ → Bool) → ((b : ℕ) (passes : Bool) → F.post test b passes → passes ≡ not (fails b)) → result ≡ at + span fails (drop at s.now) }
{
    let rest = parse::part::between(s, at, s.len());
    at + rest.iter().position(|b| test(*b)).unwrap_or(rest.len())
}

// Whether a byte is NUL, CR or LF.
fn ends_path(t: &[u8; 256], b: u8) -> bool
    ensures { result ≡ ends_path (classes_of t.now) b }
{
    (b == 0) | class::is_line_end(t, b)
}

// Whether an id of n digits stands at the front, with no further digit behind it.
fn full_id(n: usize, s: &[u8]) -> bool
    ensures { result ≡ full_id paper n s.now }
{
    let Some(end) = id::hex_hash(s, 0, n) else {
        return false;
    };
    let t = class::table();
    s.len() <= end || !class::is_hex(&t, s[end])
}
