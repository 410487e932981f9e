// The first two refusals of every operation: 1 for an unknown id kind, 17 for an input over the size limit.
ghost use Rattle.std.specs.Prelude.{◌≡◌};
ghost use Rattle.parse.specs.Limit.{digits_of, over_limit, admission};

// How many hex digits an id of a kind has, where there is such a kind. A kind is a number as C gives it, here and in all that asks this first: any number is
// answered, and one that is no kind is the refusal 1.
pub fn digits(kind: u32) -> Option<usize>
    ensures { result ≡ digits_of kind }
{
    match kind {
        1 => Some(40),
        2 => Some(64),
        _ => None,
    }
}

// Whether a lent input of this size is refused.
pub fn over_limit(size: usize) -> bool
    ensures { result ≡ over_limit size }
{
    1_073_741_824 < size
}

// An input over the size limit, where no kind is asked.
#[derive(Clone, Copy)]
pub struct TooLarge;

// Why an operation is not begun, by its number.
#[derive(Clone, Copy)]
pub enum NotAdmitted {
    UnknownKind = 1,
    TooLarge = 17,
}

// What every operation asks first: the digits of an id, for an operation that is lent two inputs of these sizes; one with one input gives 0 for the other.
pub fn admit(kind: u32, size: usize, other: usize) -> Result<usize, NotAdmitted>
    ensures { result ≡ admission kind size other }
{
    let Some(n) = digits(kind) else {
        return Err(NotAdmitted::UnknownKind);
    };
    if over_limit(size) || over_limit(other) {
        return Err(NotAdmitted::TooLarge);
    }
    Ok(n)
}
