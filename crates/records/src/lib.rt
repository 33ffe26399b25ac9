// The record walk: the templates of a first pass, an inner one before the outer one. A template is written whole once its strings stand,
// since the kinds of its gaps are found in them.
#![tactic(auto)]

ghost use Rattle.std.specs.Prelude.{◌≡◌, true, false, [], ◌+◌, ◌≤◌, ◌<◌, ◌^◌};
ghost use Rattle.field.specs.Row.{read};
ghost use Rattle.field.specs.Front.{behind_of};
ghost use Rattle.spec.specs.Merge.{merge};
ghost use Rattle.spec.specs.Output.{dynamic_exprs, gen_template};
ghost use Rattle.spec.specs.Children.{children_to_string, children_to_expr, serialize_jsx, entries, entries_pass, found_pass};
ghost use Rattle.decisions.specs.At.{element_at, children_at, serializable, under};
ghost use Rattle.decisions.specs.Repeats.{Told};
ghost use Rattle.strings.specs.Carve as C;
ghost use Rattle.records.specs.Keep.{at, keep, write, write_runs, begun, kinded_if, end_at, bumped, Low, Room};

mod kinds;
pub mod moves;

use crate::kinds::put_kinds;
use crate::moves::move_up;
use decisions::children::{Children, becomes_template, children_of};
use decisions::element::{inner_children, is_serializable, serialized};
use decisions::options::Options;
use decisions::repeats::Names;
use field::reader::{Field, Fields, behind};
use field::tags::{ELEMENT, FRAGMENT, STATIC_STRING, TEMPLATE};
use field::writer::{put_four, put_head, put_two};
use field::{HEAD, KINDS_AT, MAX_BODY, NUMBER_WIDTH};
use strings::due::{Due, with_body};
use strings::{Open, children_strings, merged_children_strings, tag_strings};

// The next number, the place behind what was written, and what is due: a state by value (01, What must change shape), as the open string of
// `strings` is. Beside it go options, scratch and out one by one: of slices in a struct a caller knows no length any more behind a call.
#[derive(Clone, Copy)]
pub struct Records {
    pub next: usize,
    pub place: usize,
    pub due: Due,
}

// In a template that is written: where the count of its gaps stands, and behind it where its strings begin, before their kinds move them.
const COUNT_AT: usize = HEAD + NUMBER_WIDTH;

const STRINGS_AT: usize = HEAD + KINDS_AT;

// Behind the room for its head, its number and the count of its gaps.
fn opened(st: Records) -> Open
    requires { st.place + 9 < 2 ^ 63 }
    ensures { result ≡ begun st }
{
    Open {
        head: st.place + STRINGS_AT,
        len: 0,
        gaps: 0,
        due: st.due,
    }
}

// The kinds are found in the strings, which make room for them. Where they do not fit or are too long, the page is refused.
fn put_gaps(out: &mut [u8], place: usize, end: usize, gaps: usize)
    requires { (place + 9 ≤ end) × (end + gaps < 2 ^ 63) }
    ensures { out.new ≡ kinded_if place end gaps out.old }
{
    let size = end + gaps - (place + HEAD);
    if gaps != 0 && size <= MAX_BODY && end + gaps <= out.len() {
        let at = place + STRINGS_AT;
        move_up(out, at, end, gaps);
        put_kinds(out, at, at + gaps, gaps);
    }
}

// The open string is closed as strings' `cut` does it, which asks room for a next one: here none comes. What both share is a head and what is due
// behind it, a call each.
#[inline(always)]
fn closed(out: &mut [u8], n: usize, st: Records, open: Open) -> Records
    requires { (st.place + 9 ≤ C.end «open») × C.Low (C.at out.old «open») }
    ensures { at out.new result ≡ end_at n st «open».gaps (C.close (C.at out.old «open»)) }
{
    let place = st.place;
    let Open {
        head,
        len,
        gaps,
        due,
    } = open;
    put_head(out, head, STATIC_STRING, len);
    let end = head + HEAD + len;
    put_gaps(out, place, end, gaps);
    let size = end + gaps - (place + HEAD);
    put_head(out, place, TEMPLATE, size);
    put_four(out, place + HEAD, n);
    put_two(out, place + COUNT_AT, gaps);
    Records {
        place: end + gaps,
        due: with_body(with_body(due, len), size),
        ..st
    }
}

// These three differ in what writes the strings. One function over a closure would state by the closure's contract what each of them states
// plainly.

// Of an element that is HTML.
fn write_element(
    options: &Options<'_>,
    b: &[u8],
    names: Names,
    out: &mut [u8],
    n: usize,
    st: Records,
) -> Records
    requires { (serializable options.now.skip.now b.now ≡ true) × Low (write n false (under options.now element_at b.now).to_string_vec (at out.old st)) × Told (behind_of b.now) names }
    ensures { at out.new result ≡ write n false (under options.now element_at b.now).to_string_vec (at out.old st) }
{
    let a = opened(st);
    let c = tag_strings(options, b, names, out, a);
    closed(out, n, st, c)
}

fn write_children(options: &Options<'_>, s: &[u8], out: &mut [u8], n: usize, st: Records) -> Records
    requires { Low (write n false (children_to_string false (under options.now children_at (read s.now))) (at out.old st)) }
    ensures { at out.new result ≡ write n false (children_to_string false (under options.now children_at (read s.now))) (at out.old st) }
{
    let a = opened(st);
    let c = children_strings(options, s, false, out, a);
    closed(out, n, st, c)
}

fn write_merged(
    options: &Options<'_>,
    s: &[u8],
    scratch: &mut [u8],
    out: &mut [u8],
    n: usize,
    st: Records,
) -> Records
    requires { Room scratch.old s.now (write_runs n (under options.now children_at (read s.now)) (at out.old st)) }
    ensures { at out.new result ≡ write_runs n (under options.now children_at (read s.now)) (at out.old st) }
{
    let a = opened(st);
    let c = merged_children_strings(options, s, scratch, out, a);
    closed(out, n, st, c)
}

fn taken(st: Records) -> Records
    requires { st.next < 2 ^ 63 }
    ensures { result ≡ bumped st }
{
    Records {
        next: st.next + 1,
        ..st
    }
}

// serialize_jsx
#[inline(always)]
#[cycle(record)]
pub fn record_serialize(
    options: &Options<'_>,
    b: &[u8],
    scratch: &mut [u8],
    out: &mut [u8],
    st: Records,
) -> Records
    requires { Room scratch.old b.now (keep (serialize_jsx (under options.now element_at b.now)) (at out.old st)) }
    ensures { at out.new result ≡ keep (serialize_jsx (under options.now element_at b.now)) (at out.old st) }
{
    let Some(names) = serialized(options.skip, b) else {
        return record_found(options, behind(b), scratch, out, st);
    };
    let inner = record_parts(options, inner_children(b), scratch, out, taken(st));
    write_element(options, b, names, out, st.next, inner)
}

// An element in a template. One with nothing behind its name, as most void ones, needs no test of the name.
#[cycle(record)]
fn record_element(
    options: &Options<'_>,
    b: &[u8],
    scratch: &mut [u8],
    out: &mut [u8],
    st: Records,
) -> Records
    requires { Room scratch.old b.now (keep (dynamic_exprs (under options.now element_at b.now).to_string_vec) (at out.old st)) }
    ensures { at out.new result ≡ keep (dynamic_exprs (under options.now element_at b.now).to_string_vec) (at out.old st) }
{
    let rest = behind(b);
    if rest.is_empty() {
        st
    } else if is_serializable(options.skip, b) {
        record_parts(options, inner_children(b), scratch, out, st)
    } else {
        record_found(options, rest, scratch, out, st)
    }
}

// Children in a template. Not one loop with `record_entries`, whose arms call other functions: it would choose at each field by a switch, and
// its contract would choose by the same switch between what a template's parts and what a call's entries record.
#[cycle(record)]
fn record_parts(
    options: &Options<'_>,
    s: &[u8],
    scratch: &mut [u8],
    out: &mut [u8],
    st: Records,
) -> Records
    requires { Room scratch.old s.now (keep (dynamic_exprs (children_to_string false (under options.now children_at (read s.now)))) (at out.old st)) }
    ensures { at out.new result ≡ keep (dynamic_exprs (children_to_string false (under options.now children_at (read s.now)))) (at out.old st) }
{
    let mut cur = st;
    for field in Fields(s) {
        match field.tag {
            ELEMENT => cur = record_element(options, field.body, scratch, out, cur),
            FRAGMENT => cur = record_parts(options, field.body, scratch, out, cur),
            _ => {}
        }
    }
    cur
}

// Children of a call.
#[cycle(record)]
pub fn record_found(
    options: &Options<'_>,
    s: &[u8],
    scratch: &mut [u8],
    out: &mut [u8],
    st: Records,
) -> Records
    requires { Room scratch.old s.now (keep (found_pass (children_to_expr (under options.now children_at (read s.now)))) (at out.old st)) }
    ensures { at out.new result ≡ keep (found_pass (children_to_expr (under options.now children_at (read s.now)))) (at out.old st) }
{
    match children_of(s) {
        Children::Zero => st,
        Children::One(Field { tag: ELEMENT, body }) => {
            record_serialize(options, body, scratch, out, st)
        }
        Children::One(
            Field {
                tag: FRAGMENT,
                body,
            },
        ) => record_found(options, body, scratch, out, st),
        // An arm of its own: that no child records nothing, and that this one does, are two laws.
        Children::One(_) => st,
        Children::More => {
            if becomes_template(options.skip, s) {
                let inner = record_parts(options, s, scratch, out, taken(st));
                write_merged(options, s, scratch, out, st.next, inner)
            } else {
                record_entries(options, s, scratch, out, st)
            }
        }
    }
}

#[cycle(record)]
fn record_entries(
    options: &Options<'_>,
    s: &[u8],
    scratch: &mut [u8],
    out: &mut [u8],
    st: Records,
) -> Records
    requires { Room scratch.old s.now (keep (entries_pass (entries (merge false false [] (under options.now children_at (read s.now))))) (at out.old st)) }
    ensures { at out.new result ≡ keep (entries_pass (entries (merge false false [] (under options.now children_at (read s.now))))) (at out.old st) }
{
    let mut cur = st;
    for field in Fields(s) {
        match field.tag {
            ELEMENT => cur = record_serialize(options, field.body, scratch, out, cur),
            FRAGMENT => cur = record_found(options, field.body, scratch, out, cur),
            _ => {}
        }
    }
    cur
}

// A template of a fragment's children.
pub fn record_fragment(
    options: &Options<'_>,
    s: &[u8],
    scratch: &mut [u8],
    out: &mut [u8],
    st: Records,
) -> Records
    requires { Room scratch.old s.now (keep (gen_template (children_to_string false (under options.now children_at (read s.now)))) (at out.old st)) }
    ensures { at out.new result ≡ keep (gen_template (children_to_string false (under options.now children_at (read s.now)))) (at out.old st) }
{
    let inner = record_parts(options, s, scratch, out, taken(st));
    write_children(options, s, out, st.next, inner)
}
