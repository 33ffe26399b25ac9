// Number literals: 71 and 75 hold a whole number, 7A and 7B digits and places. All that depends on how a number is held stands here.
ghost use Rattle.std.specs.Prelude.{◌≡◌, ◌+◌, ◌*◌, ◌^◌, ◌<◌, length, take, drop};
ghost use Rattle.field.specs.Number.{number_of};
ghost use Rattle.field.specs.Put.{Wrote};
ghost use Rattle.page.specs.Number.{has_places, render, number_in, number_bytes};
ghost use Rattle.page.specs.Check.{check_number};

use field::tags::{DECIMAL, MINUS_DECIMAL};
use field::writer::{put_byte, put_eight};
use refusal::{Refusal, refuse_unless};
use text::decimal::{put_decimal, put_shortest};

// 01, Expression: the largest number of a 71 and a 75.
pub const MAX_WHOLE: u64 = 9_007_199_254_740_991;

// 02, A2.
pub const MAX_DIGITS: u64 = 999_999_999_999_999;

pub const MAX_PLACES: usize = 15;

// The number in fewer than eight bytes, of a body that is refused.
fn short_in(s: &[u8]) -> u64
    requires { length s.now < 8 }
    ensures { result ≡ number_of s.now }
{
    let mut n = 0;
    for b in s {
        n = n * 256 + u64::from(*b);
    }
    n
}

// The number in the first eight bytes, or in all where there are fewer.
pub fn number_in(s: &[u8]) -> u64
    ensures { result ≡ number_of (take 8 s.now) }
{
    match s.first_chunk::<8>() {
        Some(eight) => u64::from_be_bytes(*eight),
        None => short_in(s),
    }
}

// The byte behind the digits.
#[tactic(auto, using(crate::proofs::LeafLaws::byte_at))]
fn places_in(s: &[u8]) -> u8
    ensures { result ≡ number_of (take 1 (drop 8 s.now)) }
{
    s.get(8).copied().unwrap_or(0)
}

fn has_places(tag: u8) -> bool
    ensures { result ≡ has_places tag }
{
    matches!(tag, DECIMAL | MINUS_DECIMAL)
}

// One test of the tag: a length by it, and then a range by it, take 5 % more in the check of a page of numbers.
pub fn check_number(tag: u8, s: &[u8]) -> Result<(), Refusal>
    ensures { result ≡ check_number tag s.now }
{
    if has_places(tag) {
        refuse_unless(s.len() == 9, Refusal::Misplaced)?;
        let fits = number_in(s) <= MAX_DIGITS && usize::from(places_in(s)) <= MAX_PLACES;
        return refuse_unless(fits, Refusal::NumberTooLarge);
    }
    refuse_unless(s.len() == 8, Refusal::Misplaced)?;
    refuse_unless(number_in(s) <= MAX_WHOLE, Refusal::NumberTooLarge)
}

// As 000 writes it, without a minus.
pub fn put_number(out: &mut [u8], at: usize, tag: u8, s: &[u8]) -> usize
    requires { at + length (render (number_in tag s.now)) < 2 ^ 63 }
    ensures { Wrote out.old at (render (number_in tag s.now)) out.new result }
{
    let n = number_in(s);
    if has_places(tag) {
        put_shortest(out, at, n, usize::from(places_in(s)).min(MAX_PLACES))
    } else {
        put_decimal(out, at, n)
    }
}

// The body of its field.
pub fn put_number_bytes(out: &mut [u8], at: usize, tag: u8, s: &[u8]) -> usize
    requires { at + 9 < 2 ^ 64 }
    ensures { Wrote out.old at (number_bytes (number_in tag s.now)) out.new result }
{
    let e = put_eight(out, at, number_in(s));
    if has_places(tag) {
        put_byte(out, e, places_in(s))
    } else {
        e
    }
}
