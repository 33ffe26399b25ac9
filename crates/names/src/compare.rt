// Two names compared, as they stand or the first in small letters.
ghost use Rattle.std.specs.Prelude.{◌≡◌};
ghost use Rattle.field.specs.Bytes.{pick, same};
ghost use Rattle.names.specs.Names.{small_letter, small_letters};

// A capital as its small letter: the library's function, under a clause that has the definition's word, so that no caller cites the law between them.
#[tactic(auto, using(crate::proofs::CompareLaws::lower_is))]
pub fn small_letter(c: u8) -> u8
    ensures { result ≡ small_letter c }
{
    c.to_ascii_lowercase()
}

pub fn letter(c: u8, small: bool) -> u8
    ensures { result ≡ pick small (small_letter c) c }
{
    if small { small_letter(c) } else { c }
}

// Whether a, in small letters, is b.
#[tactic(auto, using(crate::proofs::CompareLaws::same_other, crate::proofs::CompareLaws::length_small))]
pub fn letters_are(a: &[u8], b: &[u8]) -> bool
    ensures { result ≡ same (small_letters a.now) b.now }
{
    a.len() == b.len() && a.iter().zip(b).all(|(x, y)| small_letter(*x) == *y)
}

// The library's ==, under a clause that has the definition's word, as small_letter.
#[tactic(auto, using(crate::proofs::CompareLaws::pointwise_same))]
pub fn same_bytes(a: &[u8], b: &[u8]) -> bool
    ensures { result ≡ same a.now b.now }
{
    a == b
}
