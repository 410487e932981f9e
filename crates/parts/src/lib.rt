// The parts of the edit that stands at a place of a list: its kind, its name, its id and its peeled id. No place and no bytes are refused.
#![tactic(auto)]

ghost use Rattle.std.specs.Prelude.{◌≡◌};
ghost use Rattle.parts.specs.Parts.{edit_kind, edit_name, behind_name, edit_id, edit_peeled};

use length::Length;

// 0 delete, 1 update, 2 update with peeled id. A number and no enum: any byte may stand there, and the clause says which; `bad_edit`
// (lock_names) speaks of it.
pub fn edit_kind(list: &[u8], place: u32) -> u8
    ensures { result ≡ edit_kind list.now place }
{
    list.get(place as usize).copied().unwrap_or(0)
}

pub fn edit_name(list: &[u8], place: u32) -> &[u8]
    ensures { result.now ≡ edit_name list.now place }
{
    let Some(Length { value, next }) = length::length_at(list, place as usize + 1) else {
        return &list[0..0];
    };
    parse::part::between(list, next, next + value)
}

// The id in raw bytes, where ids have n digits.
pub fn edit_id(n: usize, list: &[u8], place: u32) -> &[u8]
    ensures { result.now ≡ edit_id n list.now place }
{
    parse::part::between(behind_name(list, place), 0, n / 2)
}

// The peeled id, the same way.
pub fn edit_peeled(n: usize, list: &[u8], place: u32) -> &[u8]
    ensures { result.now ≡ edit_peeled n list.now place }
{
    let half = n / 2;
    parse::part::between(behind_name(list, place), half, half + half)
}

// What stands behind the name: the ids.
fn behind_name(list: &[u8], place: u32) -> &[u8]
    ensures { result.now ≡ behind_name list.now place }
{
    let Some(Length { value, next }) = length::length_at(list, place as usize + 1) else {
        return &list[0..0];
    };
    parse::part::between(list, next + value, list.len())
}
