// The two hex digits of a byte, in lower case.
#![tactic(auto)]

ghost use Rattle.std.specs.Prelude.{◌≡◌, ◌/◌, ◌%◌};
ghost use Rattle.hex_digits.specs.Hex.{hex_digit};

const DIGITS: [u8; 16] = *b"0123456789abcdef";

#[tactic(auto, using(crate::proofs::Digits::digit_at), unfolding(crate::specs::Hex::hex_digit))]
pub fn high(b: u8) -> u8
    ensures { result ≡ hex_digit (b / 16) }
{
    DIGITS[(b / 16) as usize]
}

#[tactic(auto, using(crate::proofs::Digits::digit_at), unfolding(crate::specs::Hex::hex_digit))]
pub fn low(b: u8) -> u8
    ensures { result ≡ hex_digit (b % 16) }
{
    DIGITS[(b % 16) as usize]
}
