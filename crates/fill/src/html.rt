// The HTML of an order: static strings and fillings in turn, as the order nests (48 deep at the most). What does not fit is counted and not written.
ghost use Rattle.std.specs.Prelude.{◌≡◌, ◌+◌, ◌*◌, ◌<◌, ◌≤◌, ◌^◌, length};
ghost use Rattle.field.specs.Put.{Wrote};
ghost use Rattle.field.specs.Row.{read};
ghost use Rattle.refusal.specs.Refusal.{Fine};
ghost use Rattle.outs.specs.Passed.{record_body};
ghost use Rattle.outs.specs.declared.Kind.TheVariants.{New};
ghost use Rattle.text.specs.Escape.{escape_byte, escape_html};
ghost use Rattle.text.specs.Runs.{all};
ghost use Rattle.spec.specs.Words.{free};
ghost use Rattle.fill.specs.Located.{Fills};
ghost use Rattle.fill.specs.Indexed.{Served};
ghost use Rattle.fill.specs.Writing.{no_sign, unmarked, PartsAre, OrderFits, FillingFits, EndsBy, free_text, html_of_body, html_of_filling};

use crate::front::front;
use crate::index::Entries;
use field::reader::Field;
use field::tags::{ATTRIBUTE_TEXT, ORDER, PLAIN_TEXT};
use field::writer::{copy_block, copy_ends, put_bytes};
use field::{KINDS_AT, NUMBER_WIDTH};
use outs::templates::counted_front;
use text::escape::put_escaped;
use text::runs::{Class, is_run};

// A record's kinds and its strings.
#[derive(Clone, Copy)]
struct Parts<'a> {
    kinds: &'a [u8],
    strings: &'a [u8],
}

// Of the body of an 84 of templates that are checked.
fn parts_of(body: &[u8]) -> Parts<'_>
    requires { record_body New body.now ≡ Fine }
    ensures { PartsAre body.now result.kinds.now result.strings.now }
{
    let front = counted_front(body);
    Parts {
        kinds: &body[KINDS_AT..front],
        strings: &body[front..],
    }
}

fn is_no_sign(b: u8) -> bool
    ensures { result ≡ no_sign b }
{
    (b != b'<') & (b != b'>')
}

// The bytes that the text of an attribute may have.
struct Free;

impl Class for Free {
    ghost holds = { λ x b. no_sign b };

    fn has(&self, b: u8) -> bool {
        is_no_sign(b)
    }
}

// All of a block are tested, whatever its first bytes are: the tests then go side by side.
#[inline(always)]
fn are_free(block: &[u8]) -> bool
    ensures { result ≡ all no_sign block.now }
{
    let mut are = true;
    for b in block {
        are &= is_no_sign(*b);
    }
    are
}

// By is_run alone the last block of a text of 14 bytes took some 25 instructions more (unproved code).
fn is_free(s: &[u8]) -> bool
    ensures { result ≡ free s.now }
{
    if s.len() < 8 || 16 <= s.len() {
        return is_run::<_, 16>(&Free, s);
    }
    are_free(&s[..8]) & are_free(&s[s.len() - 8..])
}

// The text of an attribute stands as it is.
fn put_free(out: &mut [u8], at: usize, s: &[u8]) -> Option<usize>
    requires { at + length s.now < 2 ^ 64 }
    ensures html { Fills (free_text s.now) out.old at out.new result }
    ensures short { EndsBy (at + length s.now) result }
{
    if is_free(s) {
        Some(put_string(out, at, s))
    } else {
        None
    }
}

// Most strings between gaps are empty or short. By put_bytes alone, 64 KB of components took 5 % more instructions, and 9,361 orders 12 % (a probe by
// rustc).
#[inline(always)]
fn put_string(out: &mut [u8], at: usize, s: &[u8]) -> usize
    requires { at + length s.now < 2 ^ 64 }
    ensures { Wrote out.old at s.now out.new result }
{
    if s.is_empty() {
        return at;
    }
    let end = at + s.len();
    if 32 < s.len() || out.len() < end {
        return put_bytes(out, at, s);
    }
    let to = &mut out[at..end];
    if 16 <= s.len() {
        copy_ends::<16>(to, s);
    } else if 8 <= s.len() {
        copy_ends::<8>(to, s);
    } else if 4 <= s.len() {
        copy_ends::<4>(to, s);
    } else if 2 <= s.len() {
        copy_ends::<2>(to, s);
    } else {
        copy_ends::<1>(to, s);
    }
    end
}

// A byte that escaping leaves alone, but for `#`: with `#` among them a block of 16 took 20 instructions for 15 (a probe).
fn is_unmarked(b: u8) -> bool
    ensures { result ≡ unmarked b }
{
    (b != b'"') & (b != b'#') & (b != b'&') & (b != b'\'') & (b != b'<') & (b != b'>')
}

// As are_free.
#[inline(always)]
fn are_unmarked(block: &[u8]) -> bool
    ensures { result ≡ all unmarked block.now }
{
    let mut are = true;
    for b in block {
        are &= is_unmarked(*b);
    }
    are
}

// The escape of a byte. Not inlined, so that what is written around it stays short and is inlined.
#[inline(never)]
fn put_low(out: &mut [u8], at: usize, b: u8) -> usize
    requires { at + 6 ≤ length out.old }
    ensures { Wrote out.old at (escape_byte b) out.new result }
{
    match b {
        b'&' => put_string(out, at, b"&amp;"),
        b'<' => put_string(out, at, b"&lt;"),
        b'>' => put_string(out, at, b"&gt;"),
        b'\'' => put_string(out, at, b"&#39;"),
        b'"' => put_string(out, at, b"&quot;"),
        _ => {
            out[at] = b;
            at + 1
        }
    }
}

// The same. No byte above `>` is a sign, and most are.
#[inline(always)]
fn put_one(out: &mut [u8], at: usize, b: u8) -> usize
    requires { at + 6 ≤ length out.old }
    ensures { Wrote out.old at (escape_byte b) out.new result }
{
    if b <= b'>' {
        return put_low(out, at, b);
    }
    out[at] = b;
    at + 1
}

// Byte by byte.
#[inline(always)]
fn put_each(out: &mut [u8], at: usize, s: &[u8]) -> usize
    requires { at + 6 * length s.now ≤ length out.old }
    ensures { Wrote out.old at (escape_html s.now) out.new result }
{
    let mut a = at;
    for b in s {
        a = put_one(out, a, *b);
    }
    a
}

#[inline(always)]
fn put_block(out: &mut [u8], at: usize, s: &[u8]) -> usize
    requires { (length s.now ≡ 8) × (at + 6 * length s.now ≤ length out.old) }
    ensures { Wrote out.old at (escape_html s.now) out.new result }
{
    if are_unmarked(s) {
        let end = at + s.len();
        copy_block::<8>(&mut out[at..end], s);
        return end;
    }
    put_each(out, at, s)
}

// Of a text with a sign the blocks without one are written at once. Not inlined, as put_low.
#[inline(never)]
fn put_blocks(out: &mut [u8], at: usize, s: &[u8]) -> usize
    requires { at + 6 * length s.now ≤ length out.old }
    ensures { Wrote out.old at (escape_html s.now) out.new result }
{
    let mut a = at;
    let mut i = 0;
    while 8 <= s.len() - i {
        a = put_block(out, a, &s[i..i + 8]);
        i += 8;
    }
    put_each(out, a, &s[i..])
}

// A text of up to 31 bytes is written at once where it has no sign, and else by blocks or byte by byte.
#[inline(always)]
fn put_text(out: &mut [u8], at: usize, s: &[u8]) -> usize
    requires { at + length (escape_html s.now) < 2 ^ 63 }
    ensures { Wrote out.old at (escape_html s.now) out.new result }
{
    // an escape has six bytes at the most
    if 32 <= s.len() || out.len() < at + 6 * 32 {
        return put_escaped(out, at, s);
    }
    if 16 <= s.len() && are_unmarked(&s[..16]) & are_unmarked(&s[s.len() - 16..]) {
        let end = at + s.len();
        copy_ends::<16>(&mut out[at..end], s);
        return end;
    }
    if 8 <= s.len() {
        return put_blocks(out, at, s);
    }
    put_each(out, at, s)
}

// A filling for a gap of a kind.
#[cycle(html)]
fn write_filling(
    entries: &Entries<'_>,
    kind: u8,
    filling: Field<'_>,
    out: &mut [u8],
    at: usize,
    near: &mut usize,
) -> Option<usize>
    requires { FillingFits (Served entries.now.templates.now entries.now.numbers.now entries.now.places.now) filling.tag filling.body.now × (at + 65536 * length filling.body.now < 2 ^ 63) }
    ensures html { Fills (html_of_filling (read entries.now.templates.now) kind filling.entry.tag filling.entry.body.now) out.old at out.new result }
    ensures short { EndsBy (at + 65536 * length filling.entry.body.now) result }
{
    match (kind, filling.tag) {
        (2, ORDER) => write_order(entries, filling.body, out, at, near),
        (1, ATTRIBUTE_TEXT) => put_free(out, at, filling.body),
        (2, PLAIN_TEXT) => Some(put_text(out, at, filling.body)),
        _ => None,
    }
}

// The HTML of an 85's body: a record's number, and the fillings, which are counted here; strings and kinds are as many as the check of the templates
// has found. It comes to 65,536 bytes at the most for each byte of the body, so that no place overflows: a record's strings have 65,535, and a byte
// of text becomes six.
#[cycle(html)]
pub fn write_order(
    entries: &Entries<'_>,
    body: &[u8],
    out: &mut [u8],
    at: usize,
    near: &mut usize,
) -> Option<usize>
    requires { OrderFits (Served entries.now.templates.now entries.now.numbers.now entries.now.places.now) body.now × (at + 65536 * length body.now < 2 ^ 63) }
    ensures html { Fills (html_of_body (read entries.now.templates.now) body.now) out.old at out.new result }
    ensures short { EndsBy (at + 65536 * length body.now) result }
{
    let number = u32::from_be_bytes([body[0], body[1], body[2], body[3]]);
    let parts = parts_of(entries.record_of(number, near)?);
    let mut kinds = parts.kinds.iter();
    let mut strings = parts.strings;
    let mut fillings = &body[NUMBER_WIDTH..];
    let mut n = at;
    while !fillings.is_empty() {
        let (filling, fillings_left) = front(fillings);
        let kind = kinds.next()?;
        let (string, strings_left) = front(strings);
        let m = put_string(out, n, string.body);
        n = write_filling(entries, *kind, filling, out, m, near)?;
        strings = strings_left;
        fillings = fillings_left;
    }
    match kinds.next() {
        Some(_) => None,
        None => {
            let (last, _) = front(strings);
            Some(put_string(out, n, last.body))
        }
    }
}
