// The state of the walk, and single fields.
ghost use Rattle.std.specs.Prelude.{◌≡◌, ◌+◌, ◌-◌, ◌≤◌, ◌<◌, ◌^◌, ◌||◌, true, false, [], eqb, ltb, length};
ghost use Rattle.field.specs.Row.{read};
ghost use Rattle.field.specs.Put.{Wrote};
ghost use Rattle.text.specs.Escape.{escape_html};
ghost use Rattle.text.specs.Text.{jsx_text_to_str, normalize_lit_str};
ghost use Rattle.page.specs.Number.{number_bytes};
ghost use Rattle.page.specs.Tree.{expr_in};
ghost use Rattle.spec.specs.Output.{string_node};
ghost use Rattle.spec.specs.Output as O;
ghost use Rattle.decisions.specs.At.{number_at};
ghost use Rattle.decisions.specs.Becomes.{text};
ghost use Rattle.walk.specs.See.{at, see, to_page, marked, begun, begun_if, wrap, wrap_if, numbered, left, flushed, literal, Low};

use decisions::becomes::Text;
use decisions::expr::{boolean_in, put_number_bytes_at};
use field::HEAD;
use field::reader::{Field, field_at};
use field::tags::{
    BOOLEAN, DECIMAL, ELEMENT, JSX, JSX_ATTR, JSX_ESCAPE, MINUS, MINUS_DECIMAL, NULL, NUMBER,
    OTHER_LITERAL, STRING,
};
use field::writer::{put_bytes, put_four, put_head};
use strings::due::{Due, graver, with_body};
use strings::put_value;
use text::jsx_text::{jsx_text_to_str, normalize_lit_str};

// What was called, and what is due.
#[derive(Clone, Copy)]
pub struct Seen {
    pub jsx: bool,
    pub attr: bool,
    pub escape: bool,
    pub due: Due,
}

// The next numbers of the first pass and of the second, the places behind what was written. 000's `&mut self` becomes a state by value (01, What
// must change shape): so it goes into each writer and comes out of it, and beside it goes the page out that C lends, `page`.
#[derive(Clone, Copy)]
pub struct Walk {
    pub first: usize,
    pub later: usize,
    pub templates: usize,
    pub page: usize,
    pub seen: Seen,
}

pub fn at_page(st: Walk, p: usize) -> Walk
    ensures { result ≡ to_page p st }
{
    Walk { page: p, ..st }
}

fn mark(seen: Seen, tag: u8, len: usize) -> Seen
    ensures { result ≡ marked tag len seen }
{
    Seen {
        jsx: seen.jsx || tag == JSX,
        attr: seen.attr || tag == JSX_ATTR,
        escape: seen.escape || tag == JSX_ESCAPE,
        due: with_body(seen.due, len),
    }
}

// A field's head is left open.
pub fn begin(st: Walk) -> Walk
    requires { st.page + 3 < 2 ^ 63 }
    ensures { result ≡ to_page (st.page + 3) st }
{
    at_page(st, st.page + HEAD)
}

pub fn begin_if(st: Walk, b: bool) -> Walk
    requires { st.page + 3 < 2 ^ 63 }
    ensures { at [] [] result ≡ begun_if b (at [] [] st) }
{
    if b { begin(st) } else { st }
}

// The head at p of a field that ends here.
pub fn close(page: &mut [u8], st: Walk, p: usize, tag: u8) -> Walk
    requires { (p + 3 ≤ st.page) × Low st }
    ensures { at [] page.new result ≡ wrap tag p (at [] page.old st) }
{
    let end = st.page;
    let len = end - (p + HEAD);
    put_head(page, p, tag, len);
    Walk {
        seen: mark(st.seen, tag, len),
        ..st
    }
}

pub fn close_if(page: &mut [u8], st: Walk, p: usize, tag: u8, b: bool) -> Walk
    requires { (b ≡ true → p + 3 ≤ st.page) × Low st }
    ensures { at [] page.new result ≡ wrap_if b tag p (at [] page.old st) }
{
    if b { close(page, st, p, tag) } else { st }
}

// A leaf that begins at the place of st ends there: its head. Each leaf is the call that writes its body, and this. As a closure that call would
// need a clause of what it writes, which is the leaf's own.
#[inline(always)]
pub(crate) fn close_leaf(page: &mut [u8], st: Walk, end: usize, tag: u8) -> Walk
    requires { (st.page + 3 ≤ end) × Low (to_page end st) }
    ensures { at [] page.new result ≡ wrap tag st.page (at [] page.old (to_page end st)) }
{
    close(page, at_page(st, end), st.page, tag)
}

// It, begin_leaf and gap_back are inlined, so that the state goes in registers: the mean set takes 7,733,931 instructions for 8,050,946.
#[inline(always)]
#[tactic(auto, using(crate::proofs::LeafLaws::leaf_room, crate::proofs::LeafLaws::leaf_is))]
pub fn leaf(page: &mut [u8], st: Walk, tag: u8, b: &[u8]) -> Walk
    requires { Low (see (O.leaf tag b.now) (at [] page.old st)).st }
    ensures { at [] page.new result ≡ see (O.leaf tag b.now) (at [] page.old st) }
{
    let e = put_bytes(page, st.page + HEAD, b);
    close_leaf(page, st, e, tag)
}

// A number in front of s under its tag, its body as it came.
#[tactic(auto, using(crate::proofs::LeafLaws::leaf_room, crate::proofs::LeafLaws::leaf_is))]
fn number_leaf(page: &mut [u8], st: Walk, tag: u8, s: &[u8]) -> Walk
    requires { Low (see (O.leaf tag (number_bytes (number_at s.now))) (at [] page.old st)).st }
    ensures { at [] page.new result ≡ see (O.leaf tag (number_bytes (number_at s.now))) (at [] page.old st) }
{
    let e = put_number_bytes_at(page, st.page + HEAD, s);
    close_leaf(page, st, e, tag)
}

// An expression in which no tag stands; no expression is null.
pub fn literal_leaf(page: &mut [u8], st: Walk, s: &[u8]) -> Walk
    requires { Low (see (literal (expr_in (read s.now))) (at [] page.old st)).st }
    ensures { at [] page.new result ≡ see (literal (expr_in (read s.now))) (at [] page.old st) }
{
    let field = field_at(s).unwrap_or(Field {
        tag: NULL,
        body: &[],
    });
    match field.tag {
        STRING | OTHER_LITERAL => leaf(page, st, field.tag, field.body),
        NUMBER | MINUS | DECIMAL | MINUS_DECIMAL => number_leaf(page, st, field.tag, s),
        BOOLEAN => leaf(page, st, BOOLEAN, &[u8::from(boolean_in(field.body))]),
        _ => leaf(page, st, NULL, b""),
    }
}

// A 70 with the text of an attribute string.
#[tactic(auto, using(crate::proofs::LeafLaws::leaf_room, crate::proofs::LeafLaws::leaf_is))]
pub fn attr_string_leaf(page: &mut [u8], st: Walk, s: &[u8]) -> Walk
    requires { Low (see (string_node (normalize_lit_str s.now)) (at [] page.old st)).st }
    ensures { at [] page.new result ≡ see (string_node (normalize_lit_str s.now)) (at [] page.old st) }
{
    let e = normalize_lit_str(page, st.page + HEAD, s);
    close_leaf(page, st, e, STRING)
}

// A 70 with the text of an only child.
#[tactic(auto, using(crate::proofs::LeafLaws::leaf_room, crate::proofs::LeafLaws::leaf_is))]
pub fn text_leaf(page: &mut [u8], st: Walk, s: &[u8]) -> Walk
    requires { Low (see (string_node (jsx_text_to_str s.now false true)) (at [] page.old st)).st }
    ensures { at [] page.new result ≡ see (string_node (jsx_text_to_str s.now false true)) (at [] page.old st) }
{
    let e = jsx_text_to_str(page, st.page + HEAD, s, false, true);
    close_leaf(page, st, e, STRING)
}

// A text joins the run of that length behind an open head at p; the run's length then. A run is told by its length, since its bytes stand in
// page, which the writers borrow, and a run of no bytes writes nothing, so 0 needs no case. p is the one part of the state that this and
// join_container read: who takes the state gives it back.
pub fn join_text(page: &mut [u8], p: usize, run: usize, s: &[u8]) -> usize
    requires { p + 3 + run + length (jsx_text_to_str s.now false false) < 2 ^ 63 }
    ensures { Wrote page.old (p + 3 + run) (jsx_text_to_str s.now false false) page.new (p + 3 + result) }
{
    jsx_text_to_str(page, p + HEAD + run, s, false, false) - (p + HEAD)
}

// A container does, by its text.
pub fn join_container(page: &mut [u8], p: usize, run: usize, t: Text<'_>) -> usize
    requires { p + 3 + run + length (escape_html (text t)) < 2 ^ 63 }
    ensures { Wrote page.old (p + 3 + run) (escape_html (text t.entry)) page.new (p + 3 + result) }
{
    put_value(page, p + HEAD + run, t) - (p + HEAD)
}

// The run behind an open head becomes a 70, where it holds something.
pub fn flush(page: &mut [u8], st: Walk, run: usize) -> Walk
    requires { Low (flushed run (at [] page.old st)).st }
    ensures { at [] page.new result ≡ flushed run (at [] page.old st) }
{
    if run == 0 {
        return st;
    }
    let p = st.page;
    close(page, at_page(st, p + (HEAD + run)), p, STRING)
}

// A call of a template begins: it takes the next number of the first pass.
pub fn begin_template(page: &mut [u8], st: Walk) -> Walk
    requires { Low (numbered (at [] page.old st)).st }
    ensures { at [] page.new result ≡ numbered (at [] page.old st) }
{
    let n = st.first;
    Walk {
        page: put_four(page, st.page + HEAD, n),
        first: n + 1,
        ..st
    }
}

// A tag is left: a 30 stands in the result.
#[tactic(auto, using(crate::proofs::LeafLaws::left_low))]
pub fn leave(page: &mut [u8], st: Walk) -> Walk
    requires { Low (left (at [] page.old st)).st }
    ensures { at [] page.new result ≡ left (at [] page.old st) }
{
    let w = leaf(page, st, ELEMENT, b"");
    let due = graver(w.seen.due, Due::Left);
    Walk {
        seen: Seen { due, ..w.seen },
        ..w
    }
}
