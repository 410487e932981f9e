// One edit: kind, length of the name, name, ids in raw bytes.
#![tactic(auto)]

ghost use Rattle.std.specs.Prelude.{◌≡◌, ◌+◌, leb, length};
ghost use Rattle.class.specs.Class.{paper};
ghost use Rattle.edit.specs.Edit.{named_edit, edit_of};

use length::Length;

// Why an edit can't be taken, by its number.
#[derive(Clone, Copy)]
pub enum EditFault {
    // The kind is unknown, the length can't be read, or the edit is cut short.
    Malformed = 7,
    // A name that is empty, too long, or breaks the name rules.
    BadName = 8,
}

// The edit at the front of the bytes, with ids of n digits: it takes so many bytes, and `parts` has its name and its ids.
pub fn read(n: usize, s: &[u8]) -> Result<usize, EditFault>
    ensures { result ≡ edit_of paper n s.now }
{
    let kind = parts::edit_kind(s, 0);
    if s.is_empty() || 2 < kind {
        return Err(EditFault::Malformed);
    }
    let Some(Length { value, next }) = length::length_at(s, 1) else {
        return Err(EditFault::Malformed);
    };
    behind_length(s, next, value, usize::from(kind) * (n / 2))
}

// The edit whose name has this length and stands at this place, with ids of so many bytes behind it.
fn behind_length(s: &[u8], from: usize, len: usize, ids: usize) -> Result<usize, EditFault>
    ensures { result ≡ named_edit paper s.now from len ids }
{
    if len == 0 || 4096 < len {
        return Err(EditFault::BadName);
    }
    if !stands(s, from, len, ids) {
        return Err(EditFault::Malformed);
    }
    if !name::is_valid(parts::edit_name(s, 0)) {
        return Err(EditFault::BadName);
    }
    Ok(from + len + ids)
}

// Whether a name and ids of these lengths stand there in full.
fn stands(s: &[u8], next: usize, len: usize, ids: usize) -> bool
    ensures { result ≡ leb (next + len + ids) (length s.now) }
{
    next <= s.len() && len <= s.len() - next && ids <= s.len() - next - len
}
