// UTF-8 (RFC 3629): one pass over the bytes, whole words at a time while they are ASCII, and sixteen bytes at a time while each of them may follow the
// three before it.
// It promises that is_utf8 equals the definition utf8 of specs/Utf8.antt on every slice. What the text means is left to others.
#![tactic(auto)]

ghost use Rattle.std.specs.Prelude.{◌≡◌, false, ◌∷◌, ◌%◌, ◌<◌, ◌≤◌, true, if◌then◌else◌, length, replicate, MatchOption};
ghost use Rattle.utf8.specs.Utf8.{◌to◌, tail, utf8, all_ascii};
ghost use Rattle.utf8.specs.Parts.{Skips, Leaves, Passes, Lacks, Skipped, IsWhole, Row, Follows, FollowsNarrow};

// The high bits of the bytes of a word.
const HIGH_BITS: u64 = 0x8080_8080_8080_8080;

// Whether s is UTF-8.
pub fn is_utf8(s: &[u8]) -> bool
    ensures { result ≡ utf8 s.now }
{
    let left = skip_ascii(s);
    left.is_empty() || is_utf8_behind(left)
}

// The same of what stands behind ASCII, apart, so that a text of ASCII does not pay for what this needs.
#[inline(never)]
fn is_utf8_behind(s: &[u8]) -> bool
    ensures { result ≡ utf8 s.now }
{
    let mut left = skip_characters(s);
    while let [first, rest @ ..] = left {
        if left.len() < 16 && is_short_row(left) {
            return true;
        }
        if first.is_ascii() {
            left = skip_characters(skip_ascii(rest));
        } else {
            let Some(behind) = character(*first, rest) else {
                return false;
            };
            // something among the next sixteen bytes is wrong
            left = behind;
        }
    }
    true
}

// What is left behind whole characters in front, up to a block of ASCII: first those of up to two bytes, as most letters beyond ASCII are.
fn skip_characters(s: &[u8]) -> &[u8]
    ensures { Skipped s.now result.now }
{
    skip_rows::<true>(skip_rows::<false>(s))
}

// The same by blocks, each from where the character begins that the one before it did not end.
fn skip_rows<const WIDE: bool>(s: &[u8]) -> &[u8]
    ensures { Skipped s.now result.now }
{
    let mut left = s;
    while let Some((block, _)) = left.split_first_chunk::<16>() {
        if is_ascii(block) || !is_row::<WIDE>(block) {
            break;
        }
        left = &left[whole_bytes(block)..];
    }
    left
}

fn is_row<const WIDE: bool>(block: &[u8; 16]) -> bool
    ensures { result ≡ true → Row 0 0 0 block.now }
{
    if WIDE {
        is_wide_row(block)
    } else {
        is_narrow_row(block)
    }
}

// How many bytes of a block stand in front of a character that it does not end.
fn whole_bytes(block: &[u8; 16]) -> usize
    ensures { IsWhole block.now result }
{
    if block[15] >= 0xC0 {
        15
    } else if block[14] >= 0xE0 {
        14
    } else if block[13] >= 0xF0 {
        13
    } else {
        16
    }
}

// Whether the bytes, too few for a block, are whole characters, if they are a row with zeros behind them.
fn is_short_row(s: &[u8]) -> bool
    requires { length s.now < 16 }
    ensures { result ≡ true → utf8 s.now ≡ true }
{
    let mut block = [0; 16];
    block[..s.len()].copy_from_slice(s);
    if matches!(s, [..=0xDF, ..]) && is_narrow_row(&block) {
        return true;
    }
    is_wide_row(&block)
}

// Whether each byte may follow the three before it. A block is a loop without a way out, so that LLVM has all sixteen in one register.
fn is_wide_row(block: &[u8; 16]) -> bool
    ensures { result ≡ true → Row 0 0 0 block.now }
{
    let mut is = true;
    let (mut third, mut second, mut last) = (0, 0, 0);
    for b in block {
        is &= fault(third, second, last, *b) < 0x80;
        third = second;
        second = last;
        last = *b;
    }
    is
}

// The same where no character has more than two bytes.
fn is_narrow_row(block: &[u8; 16]) -> bool
    ensures { result ≡ true → Row 0 0 0 block.now }
{
    let mut is = true;
    let mut last = 0;
    for b in block {
        is &= narrow_fault(last, *b) < 0x80;
        last = *b;
    }
    is
}

// At least 0x80 where b may not follow the three bytes.
fn fault(third: u8, second: u8, last: u8, b: u8) -> u8
    ensures { result < 0x80 → Follows third second last b }
{
    let begins = b.saturating_sub(0x40);
    let goes_on = last.saturating_sub(0x40)
        | second.saturating_sub(0x60)
        | third.saturating_sub(0x70);
    let from_a0 = b.saturating_sub(0x20);
    let from_90 = b.saturating_sub(0x10);
    (b ^ begins ^ goes_on)
        | (begins ^ b.saturating_sub(0x42))
        | b.saturating_sub(0x75)
        | only_if(last == 0xE0, !from_a0)
        | only_if(last == 0xED, from_a0)
        | only_if(last == 0xF0, !from_90)
        | only_if(last == 0xF4, from_90)
}

// The same where no character has more than two bytes.
fn narrow_fault(last: u8, b: u8) -> u8
    ensures { result < 0x80 → FollowsNarrow last b }
{
    let begins = b.saturating_sub(0x40);
    (begins ^ b.saturating_sub(0x42))
        | (b ^ begins ^ last.saturating_sub(0x40))
        | b.saturating_sub(0x60)
}

fn only_if(is: bool, fault: u8) -> u8
    ensures { result ≡ (if is then fault else 0) }
{
    if is { fault } else { 0 }
}

// What is left behind the ASCII bytes in front.
fn skip_ascii(s: &[u8]) -> &[u8]
    ensures { Skips s.now result.now }
{
    let mut left = skip_words(s);
    while let [0x00..=0x7F, rest @ ..] = left {
        left = rest;
    }
    left
}

// The same by words of eight bytes, eight at a time while there are as many.
fn skip_words(s: &[u8]) -> &[u8]
    ensures { Skips s.now result.now }
{
    // one word apart, so that bytes which are no ASCII are soon left to others
    let Some((word, rest)) = s.split_first_chunk::<8>() else {
        return s;
    };
    if !is_ascii(word) {
        return s;
    }
    let left = skip_blocks::<8>(skip_blocks::<64>(rest));
    // fewer than eight are left: the last eight, some of them anew
    match s.last_chunk::<8>() {
        Some(word) if left.len() < 8 && is_ascii(word) => &[],
        _ => left,
    }
}

// The same by blocks of N bytes.
fn skip_blocks<const N: usize>(s: &[u8]) -> &[u8]
    requires { (0 < N) × (N ≤ 64) × (N % 8 ≡ 0) }
    ensures { Skips s.now result.now }
{
    let mut left = s;
    while let Some((block, rest)) = left.split_first_chunk::<N>() {
        if !is_ascii(block) {
            break;
        }
        left = rest;
    }
    left
}

// Whether whole words are ASCII. Each is tested, whatever the others are: by `all`, which stops at one that is none, a byte of ASCII takes 0.32
// instructions for 0.26 (a probe of 4 KB), where a page of source alone takes 0.9.
fn is_ascii(block: &[u8]) -> bool
    requires { length block.now % 8 ≡ 0 }
    ensures { result ≡ all_ascii block.now }
{
    let (words, _) = block.as_chunks::<8>();
    let mut is = true;
    for word in words {
        is &= u64::from_le_bytes(*word) & HIGH_BITS == 0;
    }
    is
}

// What is left behind the character that begins with the byte first; None where there is no such character. The rows are those of the RFC's table, in
// its order, so that a reader can hold the one to the other: equal ones stay apart.
fn character(first: u8, rest: &[u8]) -> Option<&[u8]>
    ensures { MatchOption result (utf8 (first ∷ rest.now) ≡ false) (λ t. Leaves (first ∷ rest.now) t.now) }
{
    match first {
        0x00..=0x7F => Some(rest),
        0x80..=0xC1 => None,
        0xC2..=0xDF => tails::<1>(rest),
        0xE0 => ranged::<1>(rest, 0xA0, 0xBF),
        0xE1..=0xEC => tails::<2>(rest),
        0xED => ranged::<1>(rest, 0x80, 0x9F),
        0xEE..=0xEF => tails::<2>(rest),
        0xF0 => ranged::<2>(rest, 0x90, 0xBF),
        0xF1..=0xF3 => tails::<3>(rest),
        0xF4 => ranged::<2>(rest, 0x80, 0x8F),
        0xF5..=0xFF => None,
    }
}

// What is left behind a byte from low to high and N tails, if such bytes stand in front.
fn ranged<const N: usize>(s: &[u8], low: u8, high: u8) -> Option<&[u8]>
    requires { N ≤ 3 }
    ensures { MatchOption result (Lacks (low to high ∷ replicate N tail) s.now) (λ t. Passes (low to high ∷ replicate N tail) s.now t.now) }
{
    let (first, rest) = s.split_first()?;
    if (low..=high).contains(first) {
        tails::<N>(rest)
    } else {
        None
    }
}

// What is left behind N tails, if as many stand in front.
fn tails<const N: usize>(s: &[u8]) -> Option<&[u8]>
    requires { N ≤ 3 }
    ensures { MatchOption result (Lacks (replicate N tail) s.now) (λ t. Passes (replicate N tail) s.now t.now) }
{
    let (bytes, rest) = s.split_first_chunk::<N>()?;
    bytes
        .iter()
        .all(|b| matches!(*b, 0x80..=0xBF))
        .then_some(rest)
}
