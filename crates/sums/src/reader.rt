// What a text comes to: one loop over its bytes, with what waits for open brackets in lent words. What is right says `sum_of`.
ghost use Rattle.std.specs.Prelude.{◌≡◌, ◌+◌, ◌*◌, ◌≤◌, ◌<◌, length};
ghost use Rattle.sums.specs.Machine.{sum_of};
ghost use Rattle.sums.specs.Small.{Factor, finished, times_by, grown, ended, state_of};
ghost use Rattle.sums.specs.Packed.{worked_kind, worked_size, worked_from, before_tag, before_size, before_of, factor_tag, factor_size, factor_of, words};

use crate::value::{MOST, Sum, add, bounded, multiply, size, subtract};
use page::MAX_PAGE;

// How many words open brackets take in a text no longer than a page.
pub const ROOM: usize = MAX_PAGE / 2;

// What waits for a product: nothing, or a sum and `+` or `-`.
#[derive(Clone, Copy)]
enum Before {
    NoSum,
    SumPlus(Option<Sum>),
    SumMinus(Option<Sum>),
}

// Where the loop stands: an operand is awaited, or one has been read. A number is passed by a loop of its own.
#[derive(Clone, Copy)]
enum Mode {
    Awaits,
    Behind,
}

// What is read of a number, with one digit more; past the bound all are alike.
fn grow(n: u64, c: u8) -> u64
    requires { 48 ≤ c }
    ensures { result ≡ grown n c }
{
    if MOST < n {
        return MOST + 1;
    }
    (n * 10 + u64::from(c - b'0')).min(MOST + 1)
}

// The sum so far, with the product y.
#[tactic(auto, unfolding(crate::specs::Small::finished))]
fn total(before: Before, y: Option<Sum>) -> Option<Sum>
    ensures { result ≡ finished before y }
{
    match before {
        Before::NoSum => y,
        Before::SumPlus(x) => add(x, y),
        Before::SumMinus(x) => subtract(x, y),
    }
}

// The product so far, with the operand y.
#[tactic(auto, unfolding(crate::specs::Small::times_by))]
fn product(factor: Option<Option<Sum>>, y: Option<Sum>) -> Option<Sum>
    ensures { result ≡ times_by factor y }
{
    match factor {
        None => y,
        Some(x) => multiply(x, y),
    }
}

// The answer where the text ends and no bracket is open.
#[tactic(auto, unfolding(crate::specs::Small::ended, crate::specs::Small::state_of))]
fn end_of(mode: Mode, before: Before, y: Option<Sum>) -> Option<Sum>
    ensures { (f : Factor) → result ≡ ended (state_of mode before f y) }
{
    match mode {
        Mode::Awaits => None,
        Mode::Behind => total(before, y),
    }
}

// ---- an open bracket in words: fixed memory. A number tells what waits, and a size of its own stands before it only where there is one. So 16,384
// words, 131,072 bytes of stack, are enough. As a struct a bracket would take three words at the least, for two sizes and what they are, and
// 16,384 of them 393,216 bytes of the half megabyte that a call has (host/tests/stack.rs).

fn kind_of(v: Option<Sum>) -> u64
    ensures { (result ≡ worked_kind v) × (result ≤ 2) }
{
    match v {
        None => 0,
        Some(Sum::Plus(_)) => 1,
        Some(Sum::Minus(_)) => 2,
    }
}

fn size_of(v: Option<Sum>) -> u64
    ensures { result ≡ worked_size v }
{
    v.map_or(0, size)
}

#[tactic(auto, unfolding(crate::specs::Packed::worked_from, crate::specs::Choice::choose))]
fn value_of(kind: u64, size: u64) -> Option<Sum>
    ensures { result ≡ worked_from kind size }
{
    match kind {
        0 => None,
        1 => Some(Sum::Plus(size)),
        _ => Some(Sum::Minus(size)),
    }
}

#[tactic(auto, unfolding(crate::specs::Packed::before_tag))]
fn before_tag(before: Before) -> u64
    ensures { (result ≡ before_tag before) × (result ≤ 6) }
{
    match before {
        Before::NoSum => 0,
        Before::SumPlus(v) => 1 + kind_of(v),
        Before::SumMinus(v) => 4 + kind_of(v),
    }
}

#[tactic(auto, unfolding(crate::specs::Packed::before_size))]
fn before_size(before: Before) -> u64
    ensures { result ≡ before_size before }
{
    match before {
        Before::NoSum => 0,
        Before::SumPlus(v) | Before::SumMinus(v) => size_of(v),
    }
}

#[tactic(auto, unfolding(crate::specs::Packed::before_of, crate::specs::Choice::choose))]
fn before_of(tag: u64, size: u64) -> Before
    ensures { result ≡ before_of tag size }
{
    match tag {
        0 => Before::NoSum,
        1..=3 => Before::SumPlus(value_of(tag - 1, size)),
        _ => Before::SumMinus(value_of(tag - 4, size)),
    }
}

#[tactic(auto, unfolding(crate::specs::Packed::factor_tag))]
fn factor_tag(factor: Option<Option<Sum>>) -> u64
    ensures { (result ≡ factor_tag factor) × (result ≤ 3) }
{
    match factor {
        None => 0,
        Some(v) => 1 + kind_of(v),
    }
}

#[tactic(auto, unfolding(crate::specs::Packed::factor_size))]
fn factor_size(factor: Option<Option<Sum>>) -> u64
    ensures { result ≡ factor_size factor }
{
    factor.map_or(0, size_of)
}

#[tactic(auto, unfolding(crate::specs::Packed::factor_of, crate::specs::Choice::choose))]
fn factor_of(tag: u64, size: u64) -> Option<Option<Sum>>
    ensures { result ≡ factor_of tag size }
{
    match tag {
        0 => None,
        _ => Some(value_of(tag - 1, size)),
    }
}

// Whether what waits takes a word of its own.
#[tactic(auto, unfolding(crate::specs::Packed::words, crate::specs::Choice::choose))]
fn words_of(tag: u64) -> usize
    ensures { (result ≡ words tag) × (result ≤ 1) }
{
    usize::from(tag != 0)
}

// A bracket that opens takes one word, and one more for each of the two that is not nothing: two bytes of text each, with those that close,
// so that 16,384 words are enough. A text that asks for more ends before its brackets do.
pub fn sum_in(text: &[u8], stack: &mut [u64; ROOM]) -> Option<Sum>
    requires { length text.now ≤ 32768 }
    ensures { result ≡ sum_of text.now }
{
    let mut mode = Mode::Awaits;
    let mut before = Before::NoSum;
    let mut factor: Option<Option<Sum>> = None;
    let mut y: Option<Sum> = None;
    let mut top: usize = 0;
    // counted, since a number is passed by a loop of its own
    let mut i: usize = 0;
    while i < text.len() {
        let c = text[i];
        if c == b' ' {
            i += 1;
            continue;
        }
        match mode {
            Mode::Awaits => match c {
                b'0' => {
                    y = product(factor, bounded(Sum::Plus(0)));
                    mode = Mode::Behind;
                    i += 1;
                    continue;
                }
                b'(' => {
                    // nothing waits, as in a row of brackets: one word that says so
                    if let (Before::NoSum, None) = (before, factor) {
                        if ROOM <= top {
                            return None;
                        }
                        stack[top] = 0;
                        top += 1;
                        i += 1;
                        continue;
                    }
                    let b = before_tag(before);
                    let f = factor_tag(factor);
                    let at = top + words_of(b);
                    let last = at + words_of(f);
                    if ROOM <= last {
                        return None;
                    }
                    stack[top] = before_size(before);
                    stack[at] = factor_size(factor);
                    stack[last] = b * 4 + f;
                    top = last + 1;
                    before = Before::NoSum;
                    factor = None;
                    i += 1;
                    continue;
                }
                _ if c.is_ascii_digit() => {
                    let mut n = u64::from(c - b'0');
                    i += 1;
                    while i < text.len() {
                        let digit = text[i];
                        if !digit.is_ascii_digit() {
                            break;
                        }
                        n = grow(n, digit);
                        i += 1;
                    }
                    y = product(factor, bounded(Sum::Plus(n)));
                    mode = Mode::Behind;
                    continue;
                }
                _ => return None,
            },
            Mode::Behind => match c {
                b'+' => {
                    before = Before::SumPlus(total(before, y));
                    factor = None;
                    mode = Mode::Awaits;
                    i += 1;
                    continue;
                }
                b'-' => {
                    before = Before::SumMinus(total(before, y));
                    factor = None;
                    mode = Mode::Awaits;
                    i += 1;
                    continue;
                }
                b'*' => {
                    factor = Some(y);
                    mode = Mode::Awaits;
                    i += 1;
                    continue;
                }
                b')' => {
                    if top == 0 {
                        return None;
                    }
                    let v = total(before, y);
                    let tag = stack[top - 1];
                    // nothing waited before it, so no word is read back
                    if tag == 0 {
                        before = Before::NoSum;
                        y = v;
                        top -= 1;
                        i += 1;
                        continue;
                    }
                    let at = top - 1 - words_of(tag % 4);
                    let low = at - words_of(tag / 4);
                    before = before_of(tag / 4, stack[low]);
                    y = product(factor_of(tag % 4, stack[at]), v);
                    top = low;
                    i += 1;
                    continue;
                }
                _ => return None,
            },
        }
    }
    if top == 0 {
        end_of(mode, before, y)
    } else {
        None
    }
}
