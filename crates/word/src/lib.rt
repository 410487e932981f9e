// Eight bytes at one look, read as one number.
#![tactic(auto)]

ghost use Rattle.std.specs.Prelude.{◌≡◌, Some, None};
ghost use Rattle.word.specs.Choice.{if};
ghost use Rattle.word.specs.Number.{eight, eight_at, number_at};
ghost use Rattle.word.specs.Low.{LowDigit, first_low_at, last_low_at};

// Of the eight bytes from a place on, how many stand before the first low one, which is one below 14 as line ends are; 8 where none is low. None where fewer
// than eight bytes are left, or where one of them is above 127: those are to be read one by one.
pub fn first_low(s: &[u8], at: usize) -> Option<usize>
    ensures { result ≡ first_low_at s.now at }
{
    low_digit(u64::from_le_bytes(eight(s, at)?))
}

// The same from the other end: how many stand behind the last low one.
pub fn last_low(s: &[u8], at: usize) -> Option<usize>
    ensures { result ≡ last_low_at s.now at }
{
    low_digit(u64::from_be_bytes(eight(s, at)?))
}

// The eight bytes from a place on as a number, the first byte the highest digit, so that numbers stand to each other as the bytes do; 0, the
// smallest, where fewer are left: an order, and no answer whether they are there.
pub fn number(s: &[u8], at: usize) -> u64
    ensures { result ≡ number_at s.now at }
{
    let Some(bytes) = eight(s, at) else {
        return 0;
    };
    u64::from_be_bytes(bytes)
}

// The eight bytes from a place on, where so many are left. One behind the other, so that a number made of them is one load.
fn eight(s: &[u8], at: usize) -> Option<[u8; 8]>
    ensures { result ≡ if (eight_at s.now at) (Some (eight s.now at)) None }
{
    if s.len() < at || s.len() - at < 8 {
        return None;
    }
    Some([
        s[at],
        s[at + 1],
        s[at + 2],
        s[at + 3],
        s[at + 4],
        s[at + 5],
        s[at + 6],
        s[at + 7],
    ])
}

// How many of a number's eight digits to the base 256 stand below the first low one (8: none is low); None where a digit is above 127.
// All digits below 128: with 114 added, a digit's high bit says that it is 14 or more, and no sum carries into the next digit.
fn low_digit(x: u64) -> Option<usize>
    ensures { LowDigit x result }
{
    if x & 9259542123273814144 != 0 {
        return None;
    }
    let high = (x + 8246779703540740722) & 9259542123273814144;
    Some((9259542123273814144 - high).trailing_zeros() as usize / 8)
}
