// str::trim_start and str::trim_end, as parts of the text. The 25 White_Space characters have one, two or three bytes in UTF-8.
ghost use Rattle.std.specs.Prelude.{◌≡◌, ◌<◌, ◌≤◌, reverse, length, drop, MatchOption};
ghost use Rattle.text.specs.Runs.{is_space, run};
ghost use Rattle.text.specs.Trim.{one_byte_space, two_byte_space, three_byte_space, front_space, back_space, trim_start, trim_end};

#[tactic(auto, unfolding(crate::specs::Trim::one_byte_space))]
fn is_one_byte_space(a: u8) -> bool
    ensures { result ≡ one_byte_space a }
{
    matches!(a, 9..=13 | 32)
}

#[tactic(auto, unfolding(crate::specs::Trim::two_byte_space))]
fn is_two_byte_space(a: u8, b: u8) -> bool
    ensures { result ≡ two_byte_space a b }
{
    matches!((a, b), (0xC2, 0x85 | 0xA0))
}

#[tactic(auto, unfolding(crate::specs::Trim::three_byte_space))]
fn is_three_byte_space(a: u8, b: u8, c: u8) -> bool
    ensures { result ≡ three_byte_space a b c }
{
    matches!(
        (a, b, c),
        (0xE1, 0x9A, 0x80)
            | (0xE2, 0x80, 0x80..=0x8A | 0xA8 | 0xA9 | 0xAF)
            | (0xE2, 0x81, 0x9F)
            | (0xE3, 0x80, 0x80)
    )
}

// What is left behind the white space character in front, if one stands there.
fn behind_space(s: &[u8]) -> Option<&[u8]>
    ensures { MatchOption result (front_space s.now ≡ 0) (λ t. (0 < front_space s.now) × (t.now ≡ drop (front_space s.now) s.now)) }
{
    let (a, rest) = s.split_first()?;
    if is_one_byte_space(*a) {
        return Some(rest);
    }
    // most lines begin with ASCII
    if a.is_ascii() {
        return None;
    }
    let (b, rest) = rest.split_first()?;
    if is_two_byte_space(*a, *b) {
        return Some(rest);
    }
    let (c, rest) = rest.split_first()?;
    is_three_byte_space(*a, *b, *c).then_some(rest)
}

// What is left in front of the white space character at the back, if one stands there. One function for both ends would take the end as a
// trait, with a split and the two tests of more bytes in either order: longer than the two.
fn before_space(s: &[u8]) -> Option<&[u8]>
    ensures { MatchOption result (back_space (reverse s.now) ≡ 0) (λ t. (0 < back_space (reverse s.now)) × (reverse t.now ≡ drop (back_space (reverse s.now)) (reverse s.now))) }
{
    let (c, rest) = s.split_last()?;
    if is_one_byte_space(*c) {
        return Some(rest);
    }
    if c.is_ascii() {
        return None;
    }
    let (b, rest) = rest.split_last()?;
    if is_two_byte_space(*b, *c) {
        return Some(rest);
    }
    let (a, rest) = rest.split_last()?;
    is_three_byte_space(*a, *b, *c).then_some(rest)
}

// Spaces indent most lines: they go without the other tests.
fn skip_spaces(s: &[u8]) -> &[u8]
    ensures { result.now ≡ drop (run is_space s.now) s.now }
{
    let mut left = s;
    while let [b' ', rest @ ..] = left {
        left = rest;
    }
    left
}

pub fn trim_start(s: &[u8]) -> &[u8]
    ensures { result.now ≡ trim_start s.now }
{
    let mut left = skip_spaces(s);
    while let Some(rest) = behind_space(left) {
        left = skip_spaces(rest);
    }
    left
}

pub fn trim_end(s: &[u8]) -> &[u8]
    ensures { result.now ≡ trim_end s.now }
{
    let mut left = s;
    while let Some(rest) = before_space(left) {
        left = rest;
    }
    left
}
