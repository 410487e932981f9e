// Git's rules for the name of a reference: most names are told valid by their blocks of sixteen bytes, the others in one pass over their bytes.
#![tactic(auto)]

ghost use Rattle.std.specs.Prelude.{◌≡◌, true, not, ◌&&◌, [], ◌∷◌, ℕ, ◌+◌, ◌≤◌, ◌<◌, leb, length, take};
ghost use Rattle.class.specs.Class.{paper, classes_of};
ghost use Rattle.compare.specs.Prefix.{begins};
ghost use Rattle.name.specs.Words.{contains, ends};
ghost use Rattle.name.specs.Name.{valid_name, dot, dot_dot, slash, slash_slash, at_brace, dot_lock};
ghost use Rattle.name.specs.Plain.{quiet, dot_or_slash, plain_pair, plain_at};

// Whether bytes are a valid name. Most names are plain: their bytes are looked at in blocks first, and only where a block asks for a look they are read
// one by one.
pub fn is_valid(s: &[u8]) -> bool
    ensures { result ≡ valid_name paper s.now }
{
    is_plain(s) || by_table(s)
}

// Never inlined, so that a plain name doesn't pay for the table.
#[inline(never)]
fn by_table(s: &[u8]) -> bool
    ensures { result ≡ valid_name paper s.now }
{
    by_one(&class::table(), s)
}

// Whether a name is seen to be valid at a glance: a slash stands in it, it neither begins nor ends with a slash or a dot, it does not end with the k of
// `.lock`, and inside all is plain. Of a name of fewer than seventeen bytes there is no block: read one by one it takes no longer.
fn is_plain(s: &[u8]) -> bool
    ensures { result ≡ true → valid_name paper s.now ≡ true }
{
    let n = s.len();
    if n < 17 {
        return false;
    }
    // As if a slash stood before the name: its first byte is the first of a component.
    let begins_well = is_plain_pair(b'/', s[0]);
    let last = s[n - 1];
    if !begins_well | ((last == b'/') | ((last == b'.') | (last == b'k'))) {
        return false;
    }
    plain_inside(s) && has_slash(s)
}

// Whether every byte but the first is plain behind the one before it: in blocks of sixteen, the last one up to the end, so that some bytes are looked at
// twice.
fn plain_inside(s: &[u8]) -> bool
    requires { 17 ≤ length s.now }
    ensures { result ≡ true → (k : ℕ) → k + 1 < length s.now → plain_at s.now k ≡ true }
{
    let n = s.len();
    for i in 0..(n - 1) / 16 {
        if !plain(s, 16 * i, 16) {
            return false;
        }
    }
    plain(s, n - 17, 16)
}

// Of the n bytes behind a place. No way out before the last one, so that it compiles to vector code.
fn plain(s: &[u8], at: usize, n: usize) -> bool
    requires { at + n < length s.now }
    ensures { result ≡ true → (k : ℕ) → k < n → plain_at s.now (at + k) ≡ true }
{
    let mut all = true;
    for k in 0..n {
        all &= is_plain_pair(s[at + k], s[at + k + 1]);
    }
    all
}

// Whether b may stand behind a in any name: it is quiet, and the two are no pair of dots and slashes and no end of `.lock/`. Here and in what it asks
// & and | join the comparisons, which are no branches then, as vector code needs it.
fn is_plain_pair(a: u8, b: u8) -> bool
    ensures { result ≡ plain_pair a b }
{
    is_quiet(b) & (!(is_dot_or_slash(a) & is_dot_or_slash(b)) & !((a == b'k') & (b == b'/')))
}

// Bytes that no rule forbids anywhere but for . and /: from - to 9, A to Z, and from _ to z.
fn is_quiet(b: u8) -> bool
    ensures { result ≡ quiet b }
{
    ((b'-' <= b) & (b <= b'9')) | (((b'A' <= b) & (b <= b'Z')) | ((b'_' <= b) & (b <= b'z')))
}

fn is_dot_or_slash(b: u8) -> bool
    ensures { result ≡ dot_or_slash b }
{
    (b'.' <= b) & (b <= b'/')
}

// Whether a slash stands in a name. Most names begin with `refs/`. In blocks of sixteen, each byte once (docs/COST.md counts): the library's `contains`
// looks at some up to three times. The loop's test says that sixteen are left, so that a block is vector code alone.
fn has_slash(s: &[u8]) -> bool
    ensures { result ≡ true → contains slash s.now ≡ true }
{
    let n = s.len();
    if 4 < n && s[4] == b'/' {
        return true;
    }
    let mut at = 0;
    while 16 <= n - at {
        if block::among16(s, at, b'/') {
            return true;
        }
        at += 16;
    }
    block::among16(s, at, b'/')
}

// The same byte by byte, by a table of byte classes.
fn by_one(t: &[u8; 256], s: &[u8]) -> bool
    ensures { result ≡ valid_name (classes_of t.now) s.now }
{
    // A name is read as if a slash stood before it, so that its first byte is judged as the first of a component.
    let mut before = b'/';
    let mut slash = false;
    for i in 0..s.len() {
        let b = s[i];
        if !may_follow(t, before, b) {
            return false;
        }
        // A slash ends a component, and so does the end of the name.
        if (b == b'/') && lock_before(s, i) {
            return false;
        }
        slash |= b == b'/';
        before = b;
    }
    // What is left to ask: a slash somewhere, and an end that is no slash, no dot and no `.lock`.
    slash & (before != b'/') & (before != b'.') & !lock_before(s, s.len())
}

// Whether a byte may stand in a name right behind another: it is allowed, and the two are none of `/.` `..` `//` `@{`.
fn may_follow(t: &[u8; 256], before: u8, b: u8) -> bool
    ensures { result ≡ (not ((classes_of t.now).forbidden b)
        && (not (begins (47 ∷ dot) (before ∷ b ∷ []))
        && (not (begins dot_dot (before ∷ b ∷ []))
        && (not (begins slash_slash (before ∷ b ∷ [])) && not (begins at_brace (before ∷ b ∷ [])))))) }
{
    if class::is_forbidden(t, b) {
        return false;
    }
    // Letters and digits are greater than the slash (47) and the dot (46): of most bytes only `@{` is left to ask.
    if b'/' < b {
        return (before != b'@') | (b != b'{');
    }
    if b == b'/' {
        return before != b'/';
    }
    if b == b'.' {
        return (before != b'/') & (before != b'.');
    }
    true
}

// Whether `.lock` stands right before a place; before one beyond the end it never does.
fn lock_before(s: &[u8], at: usize) -> bool
    ensures { result ≡ (leb at (length s.now) && ends dot_lock (take at s.now)) }
{
    if s.len() < at || at < 5 {
        return false;
    }
    // The last letter first: most components end otherwise, and then no other is read (docs/COST.md counts). The library's `ends_with` would look at all five.
    let start = at - 5;
    s[start + 4] == b'k'
        && ((s[start] == b'.')
            & (s[start + 1] == b'l')
            & (s[start + 2] == b'o')
            & (s[start + 3] == b'c'))
}
