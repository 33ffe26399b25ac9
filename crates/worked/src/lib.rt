// 02, A12: a page with its sums worked out, written into a lent buffer in one pass. Each 79 of one source piece that `sums` gives a number
// becomes that number; all else is copied, and lengths grow with what they hold. Whether this is asked for, and the checks of the page as
// it came, are left to the caller.
#![tactic(auto)]

ghost use Rattle.std.specs.Prelude.{◌≡◌, true, ◌+◌, ◌*◌, ◌≤◌, ◌<◌, ◌^◌, length};
ghost use Rattle.field.specs.Bytes.{AllBytes};
ghost use Rattle.field.specs.Row.{read};
ghost use Rattle.field.specs.Put.{Wrote};
ghost use Rattle.worked.specs.Row.{holds, field_sum, worked_bytes, worked_field, is_piece, NextPiece};

use field::HEAD;
use field::reader::{Field, Fields};
use field::tags::{
    ARRAY, ARRAY_SPREAD, ATTRIBUTE, CONTAINER, ELEMENT, EXPORT, FRAGMENT, MINUS, NUMBER,
    OTHER_EXPRESSION, PAGE, SOURCE, SPREAD, SPREAD_CHILD, STATEMENT,
};
use field::writer::{put_bytes, put_field, put_head, put_number_field};
use sums::reader::{ROOM, sum_in};
use sums::value::Sum;

// Below this tag an expression may stand.
#[tactic(auto, unfolding(crate::specs::Row::holds))]
fn may_hold(tag: u8) -> bool
    ensures { result ≡ holds tag }
{
    matches!(
        tag,
        PAGE | EXPORT..=STATEMENT
            | ELEMENT
            | FRAGMENT
            | ATTRIBUTE
            | CONTAINER
            | SPREAD
            | SPREAD_CHILD
            | ARRAY
            | ARRAY_SPREAD
            | OTHER_EXPRESSION
    )
}

// A 20, 30 or 31.
#[tactic(auto, unfolding(crate::specs::Row::is_piece))]
fn is_piece(tag: u8) -> bool
    ensures { result ≡ is_piece tag }
{
    matches!(tag, SOURCE | ELEMENT | FRAGMENT)
}

// The next piece of a row.
fn next_piece<'a>(fields: &mut Fields<'a>) -> Option<Field<'a>>
    ensures { NextPiece fields.old.0.now result fields.new.0.now }
{
    fields.find(|field| is_piece(field.tag))
}

// What a field comes to: a number only where it is a 79 of one source piece that is a sum. The clauses' 32,768 is the length of a page, for which
// `sum_in` has room.
fn sum_of_field(field: Field<'_>, words: &mut [u64; ROOM]) -> Option<Sum>
    requires { length field.body.now ≤ 32768 }
    ensures { result ≡ field_sum field.entry.tag (read field.entry.body.now) }
{
    if field.tag != OTHER_EXPRESSION {
        return None;
    }
    let mut pieces = Fields(field.body);
    match (next_piece(&mut pieces), next_piece(&mut pieces)) {
        (Some(Field { tag: SOURCE, body }), None) => sum_in(body, words),
        _ => None,
    }
}

// One field. The head of a field that holds others is written behind them, when its length is known.
#[cycle(work)]
fn work_field(field: Field<'_>, words: &mut [u64; ROOM], out: &mut [u8], at: usize) -> usize
    requires { (length field.body.now ≤ 32768) × AllBytes field.body.now × (at + 2 * (3 + length field.body.now) < 2 ^ 63) }
    ensures { Wrote out.old at (worked_field field.entry.tag field.entry.body.now) out.new result }
{
    if !may_hold(field.tag) {
        return put_field(out, at, field.tag, field.body);
    }
    match sum_of_field(field, words) {
        Some(Sum::Plus(n)) => put_number_field(out, at, NUMBER, n),
        Some(Sum::Minus(n)) => put_number_field(out, at, MINUS, n),
        None => {
            let e = work_fields(field.body, words, out, at + HEAD);
            put_head(out, at, field.tag, e - (at + HEAD));
            e
        }
    }
}

// A row of fields, and what stands behind the last.
#[cycle(work)]
fn work_fields(s: &[u8], words: &mut [u64; ROOM], out: &mut [u8], at: usize) -> usize
    requires { (length s.now ≤ 32768) × (at + 2 * length s.now < 2 ^ 63) }
    ensures { Wrote out.old at (worked_bytes s.now) out.new result }
{
    let mut fields = Fields(s);
    let mut a = at;
    while let Some(field) = fields.next() {
        a = work_field(field, words, out, a);
    }
    put_bytes(out, a, fields.0)
}

// The page with its sums worked out, at the front of out.
pub fn work_page(page: &[u8], out: &mut [u8]) -> usize
    requires { length page.now ≤ 32768 }
    ensures { Wrote out.old 0 (worked_bytes page.now) out.new result }
{
    let mut words = [0u64; ROOM];
    work_fields(page, &mut words, out, 0)
}
