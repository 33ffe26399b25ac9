// The check of templates out: a row of records, each of which holds a row of strings. Nothing nests deeper, so no stack is needed.
ghost use Rattle.std.specs.Prelude.{◌≡◌, ◌≤◌, ℕ, length};
ghost use Rattle.field.specs.Bytes.{Bytes};
ghost use Rattle.field.specs.Row.{Row, counted_front, read};
ghost use Rattle.page.specs.Check.{check_text};
ghost use Rattle.refusal.specs.Refusal.{Verdict};
ghost use Rattle.outs.specs.Templates.{record_tag, all_kinds, check_strings, check_any_strings, check_records, check_templates};
ghost use Rattle.outs.specs.Passed.{Rowwise, record_body};
ghost use Rattle.outs.specs.declared.Kind.TheVariants as K;

use crate::Kind;
use field::reader::{Field, Fields};
use field::tags::{OLD_TEMPLATE, STATIC_STRING, TEMPLATE};
use field::{KINDS_AT, NUMBER_WIDTH};
use page::leaf::check_text;
use page::name::{check_end, check_missing, check_nothing_after};
use refusal::{Refusal, refuse_unless};

// The fields of a row that are all of one sort: their tag, whether a body is right, and whether a row of them is.
trait Sort {
    ghost TAG: { ℕ };

    ghost right: { Bytes → Verdict };

    ghost rows: { Row → Verdict };

    const TAG: u8;

    fn check(body: &[u8]) -> Result<(), Refusal>
        ensures { result ≡ right body.now };
}

// A row of any number of fields.
fn check_row<F: Sort>(s: &[u8]) -> Result<(), Refusal>
    requires { Rowwise F.TAG F.right F.rows }
    ensures { result ≡ F.rows (read s.now) }
{
    let mut fields = Fields(s);
    while let Some(field) = fields.next() {
        refuse_unless(field.tag == F::TAG, Refusal::Misplaced)?;
        F::check(field.body)?;
    }
    check_nothing_after(fields.0)
}

// ---- strings

struct Strings;

impl Sort for Strings {
    ghost TAG = { 0x81 };

    ghost right = { check_text };

    ghost rows = { check_any_strings };

    const TAG: u8 = STATIC_STRING;

    fn check(body: &[u8]) -> Result<(), Refusal> {
        check_text(body)
    }
}

// So many strings, no more and no fewer.
fn check_strings(s: &[u8], count: usize) -> Result<(), Refusal>
    ensures { result ≡ check_strings count (read s.now) }
{
    let mut fields = Fields(s);
    for _ in 0..count {
        match fields.next() {
            Some(
                Field {
                    tag: STATIC_STRING,
                    body,
                },
            ) => check_text(body)?,
            Some(_) => return Err(Refusal::Misplaced),
            None => return check_missing(fields.0),
        }
    }
    check_end(fields.0)
}

// ---- the bodies of records

// 80: a number of two bytes, and a string or more.
fn check_old_body(w: &[u8]) -> Result<(), Refusal>
    ensures { result ≡ record_body K.Old w.now }
{
    match w {
        [_, _, strings @ ..] if !strings.is_empty() => check_row::<Strings>(strings),
        _ => Err(Refusal::Misplaced),
    }
}

// Each kind is 1 or 2.
fn are_kinds(s: &[u8]) -> bool
    ensures { result ≡ all_kinds s.now }
{
    s.iter().all(|k| matches!(*k, 1..=2))
}

// 84: a number of four bytes, a count, as many kinds, and a string more than kinds.
fn check_new_body(w: &[u8]) -> Result<(), Refusal>
    ensures { result ≡ record_body K.New w.now }
{
    let [_, _, _, _, high, low, rest @ ..] = w else {
        return Err(Refusal::Misplaced);
    };
    let count = usize::from(u16::from_be_bytes([*high, *low]));
    match rest.split_at_checked(count) {
        Some((kinds, strings)) if are_kinds(kinds) => check_strings(strings, count + 1),
        _ => Err(Refusal::Misplaced),
    }
}

// How long the front of an 84's body is: its number, the count of its kinds, and the kinds. Of templates that are checked, all of it is there.
pub fn counted_front(w: &[u8]) -> usize
    requires { 6 ≤ length w.now }
    ensures { result ≡ counted_front 4 w.now }
{
    KINDS_AT + usize::from(u16::from_be_bytes([w[NUMBER_WIDTH], w[NUMBER_WIDTH + 1]]))
}

// ---- records

struct OldRecords;

impl Sort for OldRecords {
    ghost TAG = { record_tag K.Old };

    ghost right = { record_body K.Old };

    ghost rows = { check_records K.Old };

    const TAG: u8 = OLD_TEMPLATE;

    fn check(body: &[u8]) -> Result<(), Refusal> {
        check_old_body(body)
    }
}

struct NewRecords;

impl Sort for NewRecords {
    ghost TAG = { record_tag K.New };

    ghost right = { record_body K.New };

    ghost rows = { check_records K.New };

    const TAG: u8 = TEMPLATE;

    fn check(body: &[u8]) -> Result<(), Refusal> {
        check_new_body(body)
    }
}

pub fn check_templates(s: &[u8], kind: Kind) -> Result<(), Refusal>
    ensures { result ≡ check_templates kind s.now }
{
    match kind {
        Kind::Old => check_row::<OldRecords>(s),
        Kind::New => check_row::<NewRecords>(s),
    }
}
