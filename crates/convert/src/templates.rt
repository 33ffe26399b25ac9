// Templates from 80s into 84s and back, record by record. The strings are copied as they stand; only what is before them is made anew.
ghost use Rattle.std.specs.Prelude.{◌≡◌, ◌+◌, ◌<◌, ◌^◌, length};
ghost use Rattle.field.specs.Row.{read, field_bytes};
ghost use Rattle.refusal.specs.Refusal.{Fine};
ghost use Rattle.outs.specs.Templates.{check_templates};
ghost use Rattle.outs.specs.declared.Kind.TheVariants as K;
ghost use Rattle.convert.specs.Flat.{gaps_in, BodyFits, rewritten_tag, rewritten_body, RewritesBody, Rewrites};

use crate::kinds::{are_kinds, put_kinds};
use field::reader::Fields;
use field::tags::{OLD_TEMPLATE, TEMPLATE};
use field::writer::{put_bytes, put_four, put_head, put_two};
use field::{KINDS_AT, MAX_BODY, OLD_NUMBER_WIDTH};
use outs::Kind;
use outs::templates::counted_front;
use renumber::LARGEST;

// The place behind what is written, and whether some body is over 65,535 bytes. There is none where the other form cannot say it: a gap is of no
// kind, the kinds are not those of the strings, or a number has no room.
// A flag, and no refusal yet: the records behind are read all the same, since what cannot be said (17) comes before what is too long (11).
#[derive(Clone, Copy)]
pub struct Rewritten {
    pub place: usize,
    pub long: bool,
}

// One gap fewer than strings.
fn count_gaps(s: &[u8]) -> usize
    ensures { result ≡ gaps_in s.now }
{
    Fields(s).count().saturating_sub(1)
}

// An 84 from the body of an 80. Up and down are two functions: the fronts have other parts, and only one works kinds out.
fn raise_record(out: &mut [u8], at: usize, w: &[u8]) -> Option<Rewritten>
    requires { BodyFits K.Old w.now × (at + length (field_bytes (rewritten_tag K.Old) (rewritten_body K.Old w.now)) < 2 ^ 64) }
    ensures { RewritesBody K.Old w.now out.old at out.new result }
{
    let number = usize::from(u16::from_be_bytes([w[0], w[1]]));
    let strings = &w[OLD_NUMBER_WIDTH..];
    let gaps = count_gaps(strings);
    let len = KINDS_AT + gaps + strings.len();
    let a = put_head(out, at, TEMPLATE, len);
    let b = put_four(out, a, number);
    let c = put_two(out, b, gaps);
    let d = put_kinds(out, c, strings, gaps)?;
    let e = put_bytes(out, d, strings);
    Some(Rewritten {
        place: e,
        long: MAX_BODY < len,
    })
}

// An 80 from the body of an 84. Of templates that are checked: the parts by their places. outs' check reads them by a pattern that may fail, and as
// an Option this one would never be None.
fn lower_record(out: &mut [u8], at: usize, w: &[u8]) -> Option<Rewritten>
    requires { BodyFits K.New w.now × (at + length (field_bytes (rewritten_tag K.New) (rewritten_body K.New w.now)) < 2 ^ 64) }
    ensures { RewritesBody K.New w.now out.old at out.new result }
{
    // From makes no usize of a u32.
    let number = u32::from_be_bytes([w[0], w[1], w[2], w[3]]) as usize;
    let front = counted_front(w);
    let kinds = &w[KINDS_AT..front];
    let strings = &w[front..];
    if LARGEST < number || !are_kinds(kinds, strings) {
        return None;
    }
    let len = OLD_NUMBER_WIDTH + strings.len();
    let a = put_head(out, at, OLD_TEMPLATE, len);
    let b = put_two(out, a, number);
    let e = put_bytes(out, b, strings);
    Some(Rewritten {
        place: e,
        long: MAX_BODY < len,
    })
}

fn rewrite_record(from: Kind, out: &mut [u8], at: usize, w: &[u8]) -> Option<Rewritten>
    requires { BodyFits from w.now × (at + length (field_bytes (rewritten_tag from) (rewritten_body from w.now)) < 2 ^ 64) }
    ensures { RewritesBody from w.now out.old at out.new result }
{
    match from {
        Kind::Old => raise_record(out, at, w),
        Kind::New => lower_record(out, at, w),
    }
}

// All records of templates that are fine.
pub fn rewrite_templates(s: &[u8], from: Kind, out: &mut [u8]) -> Option<Rewritten>
    requires { check_templates from s.now ≡ Fine }
    ensures { Rewrites from (read s.now) out.old out.new result }
{
    let mut n: usize = 0;
    let mut long = false;
    for record in Fields(s) {
        let w = rewrite_record(from, out, n, record.body)?;
        n = w.place;
        long |= w.long;
    }
    Some(Rewritten { place: n, long })
}
