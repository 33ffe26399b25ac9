// The check of an order. Its fields nest 48 deep at the most, so the check calls itself, and the bytes that are left fall at each call.
ghost use Rattle.std.specs.Prelude.{◌≡◌, ◌+◌, ◌*◌, ◌<◌, ◌≤◌, OnOk, length, ltb};
ghost use Rattle.utf8.specs.Utf8.{all_ascii};
ghost use Rattle.page.specs.Check.{check_header, check_text};
ghost use Rattle.fill.specs.Order.{read_order, is_filling, check_fillings, check_order, asked};
ghost use Rattle.fill.specs.Indexed.{HasRoom, asked_in, asked_by, Gathers};
ghost use Rattle.fill.specs.CheckFilling.{check_body, check_filling};

use field::reader::{Field, Fields};
use field::tags::{OLD_TEMPLATE, ORDER, PLAIN_TEXT};
use page::MAX_DEPTH;
use page::leaf::check_text;
use page::name::check_nothing_after;
use refusal::{Refusal, refuse_unless};
use text::runs::{Class, is_run};

// Whether a field may stand there, then its depth.
#[tactic(auto, unfolding(page::specs::Check::check_header, refusal::specs::Refusal::after))]
fn check_header(fits: bool, depth: usize) -> Result<(), Refusal>
    ensures gives { result ≡ check_header fits depth }
    ensures fits { OnOk result (depth ≤ 48) }
{
    refuse_unless(fits, Refusal::Misplaced)?;
    refuse_unless(depth <= MAX_DEPTH, Refusal::TooDeep)
}

fn is_filling(tag: u8) -> bool
    ensures { result ≡ is_filling tag }
{
    matches!(tag, ORDER..=PLAIN_TEXT)
}

// ASCII.
struct Ascii;

impl Class for Ascii {
    ghost holds = { λ x b. ltb b 0x80 };

    fn has(&self, b: u8) -> bool {
        b < OLD_TEMPLATE
    }
}

#[inline(always)]
fn is_ascii(s: &[u8]) -> bool
    ensures { result ≡ all_ascii s.now }
{
    if s.len() < 16 {
        is_run::<_, 8>(&Ascii, s)
    } else {
        is_run::<_, 16>(&Ascii, s)
    }
}

// Most texts are short and ASCII. With longer ones here LLVM tests a block by twelve instructions in place of three, and 64 KB of texts of 29 bytes took
// 6 % more (a probe).
#[inline(always)]
fn check_short_text(s: &[u8]) -> Result<(), Refusal>
    ensures { result ≡ check_text s.now }
{
    if s.len() <= 32 && is_ascii(s) {
        return Ok(());
    }
    check_text(s)
}

// The body of an 85: the number of a record, and fillings at a depth. The numbers that it asks for are gathered as they are met: by another walk over the
// order 64 KB of components took 7 % more instructions. For each 85 there must be room, by the seven bytes that it takes at the least.
#[cycle(check)]
fn check_body(s: &[u8], depth: usize, numbers: &mut [u32], end: &mut usize) -> Result<(), Refusal>
    requires { 7 * end.old + length s.now + 3 < 7 * length numbers.old + 7 }
    ensures gives { result ≡ check_body depth s.now }
    ensures gathers { OnOk result (Gathers numbers.old end.old (asked_in s.now) (3 + length s.now) numbers.new end.new) }
{
    let [a, b, c, d, fillings @ ..] = s else {
        return Err(Refusal::Misplaced);
    };
    numbers[*end] = u32::from_be_bytes([*a, *b, *c, *d]);
    *end += 1;
    check_fillings(fillings, depth, numbers, end)
}

#[cycle(check)]
fn check_filling(
    tag: u8,
    body: &[u8],
    depth: usize,
    numbers: &mut [u32],
    end: &mut usize,
) -> Result<(), Refusal>
    requires { 7 * end.old + length body.now + 3 < 7 * length numbers.old + 7 }
    ensures gives { result ≡ check_filling depth tag body.now }
    ensures gathers { OnOk result (Gathers numbers.old end.old (asked_by tag body.now) (3 + length body.now) numbers.new end.new) }
{
    check_header(is_filling(tag), depth)?;
    if tag == ORDER {
        check_body(body, depth + 1, numbers, end)
    } else {
        check_short_text(body)
    }
}

#[cycle(check)]
fn check_fillings(
    s: &[u8],
    depth: usize,
    numbers: &mut [u32],
    end: &mut usize,
) -> Result<(), Refusal>
    requires { 7 * end.old + length s.now < 7 * length numbers.old + 7 }
    ensures gives { result ≡ check_fillings depth (read_order s.now) }
    ensures gathers { OnOk result (Gathers numbers.old end.old (asked (read_order s.now)) (length s.now) numbers.new end.new) }
{
    let mut fields = Fields(s);
    // no `for`: what stands behind the last filling is looked at
    while let Some(filling) = fields.next() {
        check_filling(filling.tag, filling.body, depth, numbers, end)?;
    }
    check_nothing_after(fields.0)
}

// The outermost 85, alone; the numbers of all 85s, front to back, and how many. As one field it has 65,538 bytes at the most.
pub fn check_order(s: &[u8], numbers: &mut [u32], count: &mut usize) -> Result<(), Refusal>
    requires { (count.old ≡ 0) × HasRoom s.now (length numbers.old) }
    ensures gives { result ≡ check_order (read_order s.now) }
    ensures gathers { OnOk result (Gathers numbers.old 0 (asked (read_order s.now)) (7 * length numbers.old) numbers.new count.new) }
{
    let mut order = Fields(s);
    let Some(Field { tag, body }) = order.next() else {
        return Err(Refusal::Truncated);
    };
    refuse_unless(tag == ORDER, Refusal::Misplaced)?;
    check_body(body, 2, numbers, count)?;
    check_nothing_after(order.0)
}
