// A stored line's words, and what a word spells: a number in decimal digits, or bytes in small hex digits.
ghost use Rattle.std.specs.Prelude.{◌≤◌, length, IfSome};

use hex::decode_to_slice;
use itoa::{Buffer, Integer};

// A stored line, word by word (oracle/README.md has its format).
#[derive(Clone, Copy)]
pub struct Stored<'a> {
    pub page: &'a [u8],
    pub options: &'a [u8],
    pub scratch_room: &'a [u8],
    pub templates_room: &'a [u8],
    pub page_room: &'a [u8],
    pub number: &'a [u8],
    pub templates_bytes: &'a [u8],
    pub page_bytes: &'a [u8],
    pub templates: &'a [u8],
    pub templates_out: &'a [u8],
    pub page_out: &'a [u8],
    pub name: &'a [u8],
}

// A word that is not there is no bytes, which spell neither a number nor bytes: whoever reads it says so.
pub fn split_line(line: &[u8]) -> Stored<'_> {
    let mut words = line.split(|b| *b == b' ');
    let mut word = || words.next().unwrap_or(&line[..0]);
    Stored {
        page: word(),
        options: word(),
        scratch_room: word(),
        templates_room: word(),
        page_room: word(),
        number: word(),
        templates_bytes: word(),
        page_bytes: word(),
        templates: word(),
        templates_out: word(),
        page_out: word(),
        name: word(),
    }
}

// The number that w spells, where it is at most `most`.
pub fn number(w: &[u8], most: usize) -> Option<usize>
    ensures { IfSome result (λ n. n ≤ most) }
{
    // `parse` takes a sign too
    if !w.iter().all(|b| b.is_ascii_digit()) {
        return None;
    }
    let n = str::from_utf8(w).ok()?.parse::<usize>().ok()?;
    (n <= most).then_some(n)
}

// The hex digits of w: two for each byte, and `-` where there are none. `hex` takes capitals too.
fn digits(w: &[u8]) -> Option<&[u8]> {
    match w {
        b"" => None,
        b"-" => Some(b""),
        _ if w.iter().any(u8::is_ascii_uppercase) => None,
        _ => Some(w),
    }
}

// Puts the bytes that w spells to the front of out, and says how many they are.
pub fn unhex(w: &[u8], out: &mut [u8]) -> Option<usize>
    ensures { IfSome result (λ n. n ≤ length out.new) }
{
    let d = digits(w)?;
    let n = d.len() / 2;
    decode_to_slice(d, out.get_mut(..n)?).ok()?;
    Some(n)
}

// The byte that two hex digits spell.
fn byte(pair: &[u8]) -> Option<u8> {
    let mut b = [0];
    decode_to_slice(pair, &mut b).ok()?;
    Some(b[0])
}

// Whether w spells s.
pub fn spells(w: &[u8], s: &[u8]) -> bool {
    digits(w).is_some_and(|d| {
        d.len() % 2 == 0
            && d.len() / 2 == s.len()
            && d.chunks_exact(2)
                .zip(s.iter())
                .all(|(pair, b)| byte(pair) == Some(*b))
    })
}

// Whether w is n in decimal digits.
pub fn is_decimal<N: Integer>(w: &[u8], n: N) -> bool {
    let mut buffer = Buffer::new();
    w == buffer.format(n).as_bytes()
}
