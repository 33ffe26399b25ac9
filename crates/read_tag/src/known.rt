// What braces hold where it is no tag: read by its text alone, and written as an expression's field.
ghost use Rattle.std.specs.Prelude.{◌≡◌, not, ◌+◌, ◌-◌, ◌^◌, ◌≤◌, ◌<◌, length, take, drop, MatchOption, IfSome, None, Some};
ghost use Rattle.std.specs.List.{list_any};
ghost use Rattle.grammar.specs.Known.{boolean, null, quoted, other, not_read, of_a_number, digit_or_point, unsigned, has_minus, trimmed_end, string_of, rest_of, known_trimmed, known_of};
ghost use Rattle.read_tag.specs.Knowns.{Counted, Numbered, barred, unquoted, Short, leaf_at, Holding, Holds, HeldWhole, HeldDecimal};

use crate::signs::{is_quote, is_space, skip_spaces};
use field::HEAD;
use field::tags::{
    BOOLEAN, DECIMAL, MINUS, MINUS_DECIMAL, NULL, NUMBER, OTHER_EXPRESSION, SOURCE, STRING,
};
use field::writer::{put_byte, put_eight, put_field, put_head, put_number_field};
use names::same_bytes;
use page::number::{MAX_DIGITS, MAX_PLACES, MAX_WHOLE};
use text::runs::{Class, is_run};

// What was read: whether its number is within the limit, the place behind its field, and how many fields deep it is below the first. A flag, and no
// Option of the place: the text is read on behind a number over the limit, since 14 and 15 come before 7.
#[derive(Clone, Copy)]
pub struct Held {
    pub fits: bool,
    pub at: usize,
    pub deep: usize,
}

// How many digits stand in front, and their value as far as it counts.
#[derive(Clone, Copy)]
pub struct Digits {
    pub count: usize,
    pub value: u64,
}

#[derive(Clone, Copy)]
pub enum Numeral {
    Whole(u64),
    Scaled { digits: u64, places: usize },
}

// Whether a minus stands in front, and what is behind it and white space.
#[derive(Clone, Copy)]
struct Signed<'a> {
    minus: bool,
    rest: &'a [u8],
}

// Without the white space at its end.
pub fn trim_end(s: &[u8]) -> &[u8]
    ensures value { result.now ≡ trimmed_end s.now }
    ensures within { length result.now ≤ length s.now }
{
    match s.iter().rposition(|c| !is_space(*c)) {
        Some(last) => &s[..=last],
        None => &[],
    }
}

// The digits in front, behind those that have the value n. Past the limit the value grows no further, so that any number of them is read.
fn read_digits(s: &[u8], n: u64) -> Digits
    requires { n < 2 ^ 60 }
    ensures { Counted s.now n result }
{
    let mut value = n;
    for (count, c) in s.iter().enumerate() {
        if !c.is_ascii_digit() {
            return Digits { count, value };
        }
        // No `if` around the sum: LLVM then sums at each digit, and one past the limit takes 12 instructions for 7.
        if MAX_WHOLE < value {
            continue;
        }
        value = value * 10 + u64::from(*c - b'0');
    }
    Digits {
        count: s.len(),
        value,
    }
}

// A whole number or a decimal, if s is one.
fn read_number(s: &[u8]) -> Option<Numeral>
    ensures { Numbered s.now result }
{
    let whole = read_digits(s, 0);
    if whole.count == 0 || (s[0] == b'0') & (1 < whole.count) {
        return None;
    }
    match &s[whole.count..] {
        [] => Some(Numeral::Whole(whole.value)),
        [b'.', places @ ..] => {
            let all = read_digits(places, whole.value);
            if (all.count == 0) | (all.count < places.len()) {
                return None;
            }
            Some(Numeral::Scaled {
                digits: all.value,
                places: places.len(),
            })
        }
        _ => None,
    }
}

fn sign_of(s: &[u8]) -> Signed<'_>
    ensures minus { result.minus ≡ has_minus s.now }
    ensures rest { result.rest.now ≡ unsigned s.now }
{
    match s {
        [b'-', behind @ ..] => Signed {
            minus: true,
            rest: &behind[skip_spaces(behind, 0)..],
        },
        _ => Signed {
            minus: false,
            rest: s,
        },
    }
}

// What stands between the quotes, where s is a quote, bytes that are not it, and the quote.
fn string_in(s: &[u8]) -> Option<&[u8]>
    ensures found { MatchOption result (string_of s.now ≡ None) (λ w. string_of s.now ≡ Some (quoted w.now)) }
    ensures within { IfSome result (λ w. length w.now ≤ length s.now) }
{
    let [first, inner @ .., last] = s else {
        return None;
    };
    if !is_quote(*first) || *last != *first || inner.contains(first) {
        return None;
    }
    Some(inner)
}

// Backquote, backslash, slash, `<`: without a branch, since a block of bytes is tested.
#[tactic(auto, unfolding(grammar::specs::Known::not_read))]
fn is_not_read(c: u8) -> bool
    ensures { result ≡ not_read c }
{
    (c == b'`') | (c == b'\\') | (c == b'/') | (c == b'<')
}

// A letter, point or underscore.
#[tactic(auto, unfolding(grammar::specs::Known::of_a_number))]
fn is_of_number(c: u8) -> bool
    ensures { result ≡ of_a_number c }
{
    matches!(c, b'A'..=b'Z' | b'a'..=b'z' | b'.' | b'_')
}

// All others.
struct Readable;

impl Class for Readable {
    ghost holds = { λ x c. not (not_read c) };

    fn has(&self, c: u8) -> bool {
        !is_not_read(c)
    }
}

// By blocks: byte by byte dense tags take 43.0 instructions a byte for 42.1.
fn holds_not_read(s: &[u8]) -> bool
    ensures { result ≡ list_any not_read s.now }
{
    !is_run::<_, 8>(&Readable, s)
}

// Apart from is_barred, since what `any` finds is proved only where it is all that a function does.
fn holds_of_number(s: &[u8]) -> bool
    ensures { result ≡ list_any of_a_number s.now }
{
    s.iter().any(|c| is_of_number(*c))
}

#[tactic(auto, unfolding(grammar::specs::Known::digit_or_point, grammar::specs::Signs::digit))]
fn begins_number(s: &[u8]) -> bool
    ensures { result ≡ digit_or_point s.now }
{
    matches!(s, [b'0'..=b'9' | b'.', ..])
}

// Whether it cannot be a 79; number is behind its minus.
fn is_barred(s: &[u8], number: &[u8]) -> bool
    requires { number.now ≡ unsigned s.now }
    ensures { result ≡ barred s.now }
{
    holds_not_read(s) || begins_number(number) && holds_of_number(s)
}

// Of a field up to `at` that holds no others and no number.
fn leaf(at: usize) -> Held
    ensures { result ≡ leaf_at at }
{
    Held {
        fits: true,
        at,
        deep: 0,
    }
}

fn put_boolean(out: &mut [u8], at: usize, b: bool) -> Held
    requires { at + 4 < 2 ^ 63 }
    ensures { Holding (boolean b) out.old at out.new result }
{
    let a = put_head(out, at, BOOLEAN, 1);
    leaf(put_byte(out, a, u8::from(b)))
}

fn put_null(out: &mut [u8], at: usize) -> Held
    requires { at + 3 < 2 ^ 63 }
    ensures { Holding null out.old at out.new result }
{
    leaf(put_head(out, at, NULL, 0))
}

fn put_quoted(out: &mut [u8], at: usize, s: &[u8]) -> Held
    requires { Short s.now (at + 3) }
    ensures { Holding (quoted s.now) out.old at out.new result }
{
    leaf(put_field(out, at, STRING, s))
}

// A 79 of one 20.
fn put_other(out: &mut [u8], at: usize, s: &[u8]) -> Held
    requires { Short s.now (at + 6) }
    ensures { Holding (other s.now) out.old at out.new result }
{
    let a = put_head(out, at, OTHER_EXPRESSION, HEAD + s.len());
    let e = put_field(out, a, SOURCE, s);
    Held { deep: 1, ..leaf(e) }
}

fn put_whole(out: &mut [u8], at: usize, minus: bool, v: u64) -> Held
    requires { at + 11 < 2 ^ 63 }
    ensures { HeldWhole minus v out.old at out.new result }
{
    let tag = if minus { MINUS } else { NUMBER };
    let e = put_number_field(out, at, tag, v);
    Held {
        fits: v <= MAX_WHOLE,
        ..leaf(e)
    }
}

// The places are cut to a byte: where that changes them, they are over the limit, and no byte of the field matters.
fn put_scaled(out: &mut [u8], at: usize, minus: bool, v: u64, places: usize) -> Held
    requires { at + 12 < 2 ^ 63 }
    ensures { HeldDecimal minus v places out.old at out.new result }
{
    let tag = if minus { MINUS_DECIMAL } else { DECIMAL };
    let a = put_head(out, at, tag, 9);
    let b = put_eight(out, a, v);
    let e = put_byte(out, b, (places % 256) as u8);
    Held {
        fits: (v <= MAX_DIGITS) & (places <= MAX_PLACES),
        ..leaf(e)
    }
}

// What is no string and no number; number is behind its minus.
fn put_rest(s: &[u8], number: &[u8], out: &mut [u8], at: usize) -> Option<Held>
    requires { (number.now ≡ unsigned s.now) × Short s.now (at + 6) }
    ensures { Holds (rest_of s.now) out.old at out.new result }
{
    if is_barred(s, number) {
        None
    } else {
        Some(put_other(out, at, s))
    }
}

// What is no string.
fn put_unquoted(s: &[u8], out: &mut [u8], at: usize) -> Option<Held>
    requires { Short s.now (at + 12) }
    ensures { Holds (unquoted s.now) out.old at out.new result }
{
    let number = sign_of(s);
    match read_number(number.rest) {
        None => put_rest(s, number.rest, out, at),
        Some(Numeral::Whole(v)) => Some(put_whole(out, at, number.minus, v)),
        Some(Numeral::Scaled { digits, places }) => {
            Some(put_scaled(out, at, number.minus, digits, places))
        }
    }
}

// Without white space around it. No match on the words, which entity_code has: the arm behind them, which calls on, would be proved once for each letter
// that may differ.
#[tactic(auto, unfolding(crate::specs::Knowns::Holds, crate::specs::Knowns::unquoted, grammar::specs::Known::known_trimmed, grammar::specs::Known::or_else, grammar::specs::Signs::choose))]
fn put_trimmed(s: &[u8], out: &mut [u8], at: usize) -> Option<Held>
    requires { Short s.now (at + 12) }
    ensures { Holds (known_trimmed s.now) out.old at out.new result }
{
    if same_bytes(s, b"true") {
        Some(put_boolean(out, at, true))
    } else if same_bytes(s, b"false") {
        Some(put_boolean(out, at, false))
    } else if same_bytes(s, b"null") {
        Some(put_null(out, at))
    } else if let Some(inner) = string_in(s) {
        Some(put_quoted(out, at, inner))
    } else {
        put_unquoted(s, out, at)
    }
}

// From i, where no white space stands, to the brace at e.
pub fn put_known(text: &[u8], i: usize, e: usize, out: &mut [u8], at: usize) -> Option<Held>
    requires { (i ≤ e) × (e ≤ length text.now) × (length text.now ≤ 32768) × (at + 65536 < 2 ^ 63) }
    ensures { Holds (known_of (take (e - i) (drop i text.now))) out.old at out.new result }
{
    put_trimmed(trim_end(&text[i..e]), out, at)
}
