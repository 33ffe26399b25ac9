// The cycle: expression, element, children and call. An `on_` function is a visit of 000 (visit_mut_expr), a `to_` function one that
// serializes (serialize_jsx_to_call_expr). Scratch, templates and page stand side by side: of slices that a struct lends on, a caller knows
// nothing, unless each function also promises that three slices keep their names and lengths, which is longer than the two parameters saved.
ghost use Rattle.std.specs.Prelude.{◌≡◌, true, false, []};
ghost use Rattle.field.specs.Row.{read};
ghost use Rattle.spec.specs.Merge.{merge};
ghost use Rattle.spec.specs.Output.{dynamic_exprs};
ghost use Rattle.spec.specs.Attributes.{attrs_parts, props_of};
ghost use Rattle.spec.specs.Children.{serialize_jsx, children_to_string, children_to_expr, entries, entries_pass};
ghost use Rattle.decisions.specs.At.{opts, element_at, attributes_at, children_at, serializable, under};
ghost use Rattle.found.specs.Finds.{Known};
ghost use Rattle.walk.specs.See.{at, see, act};
ghost use Rattle.visits.specs.Visiting.{expr_at, held_at, items_at, pieces_at, element_mid, fragment_mid, template_mid, found_mid, found_out, Given, Room};

use crate::state::{elements, is_found, is_left, recorded, records_of, returned};
use decisions::attribute::{Attributes, Value};
use decisions::becomes::{AsChild, InTag, as_child, as_property, in_tag};
use decisions::children::{Children, children_of};
use decisions::element::{inner_children, is_component, is_serializable};
use decisions::options::Options;
use field::reader::{Field, Fields, behind, body, field_at};
use field::tags::{
    ARRAY, ARRAY_SPREAD, ATTRIBUTE, CONTAINER, ELEMENT, FRAGMENT, HOLE, JSX, JSX_ATTR, JSX_ESCAPE,
    JSX_TEMPLATE, NULL, OTHER_EXPRESSION, PROP, SOURCE, SPREAD, SPREAD_CHILD, TEXT,
};
use found::{Found, Kind, found_in, found_of};
use records::{record_found, record_fragment, record_serialize};
use walk::attribute::{attribute_front, gap_back, key_at, property_front};
use walk::call::{children_front, close_props, hole_leaf, name_expr};
use walk::state::{
    Walk, attr_string_leaf, begin, begin_if, begin_template, close, close_if, flush,
    join_container, join_text, leaf, leave, literal_leaf, text_leaf,
};

// visit_mut_expr on the expression in front.
#[cycle(visit)]
fn on_expr(
    options: &Options<'_>,
    s: &[u8],
    scratch: &mut [u8],
    templates: &mut [u8],
    page: &mut [u8],
    st: Walk,
) -> Walk
    requires { Room scratch.old s.now (see (under options.now expr_at s.now) (at templates.old page.old st)) }
    ensures { at templates.new page.new result ≡ see (under options.now expr_at s.now) (at templates.old page.old st) }
{
    let p = st.page;
    match field_at(s) {
        Some(Field { tag: ARRAY, body }) => {
            let x = on_items(options, body, scratch, templates, page, begin(st));
            close(page, x, p, ARRAY)
        }
        Some(
            Field {
                tag: OTHER_EXPRESSION,
                body,
            },
        ) => {
            let x = on_pieces(options, body, scratch, templates, page, begin(st));
            close(page, x, p, OTHER_EXPRESSION)
        }
        Some(Field { tag: ELEMENT, body }) => on_jsx(options, body, scratch, templates, page, st),
        Some(
            Field {
                tag: FRAGMENT,
                body,
            },
        ) => { on_fragment(options, body, scratch, templates, page, st) }
        _ => literal_leaf(page, st, s),
    }
}

// The same of an expression in braces, where there is one.
#[cycle(visit)]
fn on_held(
    options: &Options<'_>,
    c: &[u8],
    scratch: &mut [u8],
    templates: &mut [u8],
    page: &mut [u8],
    st: Walk,
) -> Walk
    requires { Room scratch.old c.now (see (under options.now held_at c.now) (at templates.old page.old st)) }
    ensures { at templates.new page.new result ≡ see (under options.now held_at c.now) (at templates.old page.old st) }
{
    match field_at(c) {
        Some(_) => on_expr(options, c, scratch, templates, page, st),
        None => st,
    }
}

// An array's elements. `left` is what stands from the field on, since an expression is visited where it stands: walk's leaf of a number takes it
// with its head. A visit of a Field would be a second function beside `on_expr`, for this one call.
#[cycle(visit)]
fn on_items(
    options: &Options<'_>,
    s: &[u8],
    scratch: &mut [u8],
    templates: &mut [u8],
    page: &mut [u8],
    st: Walk,
) -> Walk
    requires { Room scratch.old s.now (see (under options.now items_at s.now) (at templates.old page.old st)) }
    ensures { at templates.new page.new result ≡ see (under options.now items_at s.now) (at templates.old page.old st) }
{
    let mut fields = Fields(s);
    let mut left = s;
    let mut cur = st;
    while let Some(field) = fields.next() {
        let t = left;
        left = fields.0;
        match field.tag {
            ARRAY_SPREAD => {
                let p = cur.page;
                let x = on_expr(options, field.body, scratch, templates, page, begin(cur));
                cur = close(page, x, p, ARRAY_SPREAD);
            }
            HOLE => cur = leaf(page, cur, HOLE, b""),
            _ => cur = on_expr(options, t, scratch, templates, page, cur),
        }
    }
    cur
}

// Pieces of source and the tags between them.
#[cycle(visit)]
pub fn on_pieces(
    options: &Options<'_>,
    s: &[u8],
    scratch: &mut [u8],
    templates: &mut [u8],
    page: &mut [u8],
    st: Walk,
) -> Walk
    requires { Room scratch.old s.now (see (under options.now pieces_at s.now) (at templates.old page.old st)) }
    ensures { at templates.new page.new result ≡ see (under options.now pieces_at s.now) (at templates.old page.old st) }
{
    let mut cur = st;
    for field in Fields(s) {
        let b = field.body;
        match field.tag {
            SOURCE => cur = leaf(page, cur, SOURCE, b),
            ELEMENT => cur = on_jsx(options, b, scratch, templates, page, cur),
            FRAGMENT => cur = on_fragment(options, b, scratch, templates, page, cur),
            _ => {}
        }
    }
    cur
}

// An element as an expression: its templates are recorded, and then both passes run with the numbers behind them.
#[cycle(visit)]
fn on_jsx(
    options: &Options<'_>,
    b: &[u8],
    scratch: &mut [u8],
    templates: &mut [u8],
    page: &mut [u8],
    st: Walk,
) -> Walk
    requires { Room scratch.old b.now (see (under options.now element_mid b.now) (at templates.old page.old st)) }
    ensures { at templates.new page.new result ≡ see (under options.now element_mid b.now) (at templates.old page.old st) }
{
    let first = st.first;
    let k = record_serialize(options, b, scratch, templates, records_of(st));
    let w = to_jsx(options, b, scratch, templates, page, recorded(st, k));
    returned(w, first)
}

// A fragment's children as a template. `to_found` has the same three calls for its template, of children that are merged twice: each states by
// another definition what comes of them.
#[cycle(visit)]
fn on_template(
    options: &Options<'_>,
    s: &[u8],
    scratch: &mut [u8],
    templates: &mut [u8],
    page: &mut [u8],
    st: Walk,
) -> Walk
    requires { Room scratch.old s.now (see (under options.now template_mid s.now) (at templates.old page.old st)) }
    ensures { at templates.new page.new result ≡ see (under options.now template_mid s.now) (at templates.old page.old st) }
{
    let first = st.first;
    let p = st.page;
    let k = record_fragment(options, s, scratch, templates, records_of(st));
    let a = begin_template(page, recorded(st, k));
    let c = to_parts(options, s, scratch, templates, page, a);
    let d = close(page, c, p, JSX_TEMPLATE);
    returned(d, first)
}

// A fragment as an expression.
#[cycle(visit)]
fn on_fragment(
    options: &Options<'_>,
    s: &[u8],
    scratch: &mut [u8],
    templates: &mut [u8],
    page: &mut [u8],
    st: Walk,
) -> Walk
    requires { Room scratch.old s.now (see (under options.now fragment_mid s.now) (at templates.old page.old st)) }
    ensures { at templates.new page.new result ≡ see (under options.now fragment_mid s.now) (at templates.old page.old st) }
{
    match children_of(s) {
        Children::Zero => leaf(page, st, NULL, b""),
        Children::One(Field { tag: ELEMENT, body }) => {
            on_jsx(options, body, scratch, templates, page, st)
        }
        Children::One(
            Field {
                tag: FRAGMENT,
                body,
            },
        ) => { on_found(options, body, scratch, templates, page, st) }
        Children::One(
            Field {
                tag: SPREAD_CHILD,
                ..
            },
        ) => leave(page, st),
        // Two arms, as in records' `record_found`: an only child and several give it by laws of their own, and behind one arm the proof would part them.
        Children::One(_) => on_template(options, s, scratch, templates, page, st),
        Children::More => on_template(options, s, scratch, templates, page, st),
    }
}

// A fragment in a fragment, by its children: a tag that they give, or nothing, is left.
#[cycle(visit)]
fn on_found(
    options: &Options<'_>,
    s: &[u8],
    scratch: &mut [u8],
    templates: &mut [u8],
    page: &mut [u8],
    st: Walk,
) -> Walk
    requires { Room scratch.old s.now (see (under options.now found_mid s.now) (at templates.old page.old st)) }
    ensures { at templates.new page.new result ≡ see (under options.now found_mid s.now) (at templates.old page.old st) }
{
    let f = found_of(options.skip, s);
    if is_left(f, s) {
        return leave(page, st);
    }
    let first = st.first;
    let k = record_found(options, s, scratch, templates, records_of(st));
    let a = recorded(st, k);
    let w = to_found(options, s, f, false, scratch, templates, page, a);
    returned(w, first)
}

// serialize_jsx, with numbers of the first pass from `first` on. It and to_found are inlined, and so is records' record_serialize, since
// slices and the state go through memory at each call: chains of calls take an eighth fewer instructions, trees of them a twelfth.
#[inline(always)]
#[cycle(visit)]
fn to_jsx(
    options: &Options<'_>,
    b: &[u8],
    scratch: &mut [u8],
    templates: &mut [u8],
    page: &mut [u8],
    st: Walk,
) -> Walk
    requires { Room scratch.old b.now (act (serialize_jsx (under options.now element_at b.now)) (at templates.old page.old st)) }
    ensures { at templates.new page.new result ≡ act (serialize_jsx (under options.now element_at b.now)) (at templates.old page.old st) }
{
    if !is_serializable(options.skip, b) {
        return to_call(options, b, scratch, templates, page, st);
    }
    let p = st.page;
    let a = begin_template(page, st);
    let c = to_inner(options, b, scratch, templates, page, a);
    close(page, c, p, JSX_TEMPLATE)
}

// The gaps of an element in a template.
#[cycle(visit)]
fn to_gaps(
    options: &Options<'_>,
    b: &[u8],
    scratch: &mut [u8],
    templates: &mut [u8],
    page: &mut [u8],
    st: Walk,
) -> Walk
    requires { Room scratch.old b.now (act (dynamic_exprs (under options.now element_at b.now).to_string_vec) (at templates.old page.old st)) }
    ensures { at templates.new page.new result ≡ act (dynamic_exprs (under options.now element_at b.now).to_string_vec) (at templates.old page.old st) }
{
    if is_serializable(options.skip, b) {
        to_inner(options, b, scratch, templates, page, st)
    } else {
        to_call(options, b, scratch, templates, page, st)
    }
}

// The gaps of HTML. With nothing behind its name it has none, so neither walk is begun, nor is this called.
#[inline(always)]
#[cycle(visit)]
fn to_inner(
    options: &Options<'_>,
    b: &[u8],
    scratch: &mut [u8],
    templates: &mut [u8],
    page: &mut [u8],
    st: Walk,
) -> Walk
    requires html { serializable options.now.skip.now b.now ≡ true }
    requires room { Room scratch.old b.now (act (dynamic_exprs (under options.now element_at b.now).to_string_vec) (at templates.old page.old st)) }
    ensures { at templates.new page.new result ≡ act (dynamic_exprs (under options.now element_at b.now).to_string_vec) (at templates.old page.old st) }
{
    let rest = behind(b);
    if rest.is_empty() {
        return st;
    }
    let a = to_attrs(options, rest, scratch, templates, page, st);
    to_parts(options, inner_children(b), scratch, templates, page, a)
}

// The gaps of attributes in an opening tag. Not one function with `to_props`, where a spread is a property too: it would choose gap, front and tag
// at each attribute.
#[cycle(visit)]
fn to_attrs(
    options: &Options<'_>,
    s: &[u8],
    scratch: &mut [u8],
    templates: &mut [u8],
    page: &mut [u8],
    st: Walk,
) -> Walk
    requires { Room scratch.old s.now (act (dynamic_exprs (attrs_parts (under options.now opts) (under options.now attributes_at (read s.now)))) (at templates.old page.old st)) }
    ensures { at templates.new page.new result ≡ act (dynamic_exprs (attrs_parts (under options.now opts) (under options.now attributes_at (read s.now)))) (at templates.old page.old st) }
{
    let mut cur = st;
    for a in Attributes(s) {
        if let InTag::Gap(gap) = in_tag(options.props, a) {
            let p = cur.page;
            let x = attribute_front(page, cur, a, gap);
            let y = on_held(options, gap.held(), scratch, templates, page, x);
            cur = gap_back(page, y, p, JSX_ATTR, a, gap);
        }
    }
    cur
}

// The gaps of children in a template. Whether a container is wrapped is asked before it and behind it: as two cases the visit between would stand
// twice, and so in `to_call` what the children give.
#[cycle(visit)]
fn to_parts(
    options: &Options<'_>,
    s: &[u8],
    scratch: &mut [u8],
    templates: &mut [u8],
    page: &mut [u8],
    st: Walk,
) -> Walk
    requires { Room scratch.old s.now (act (dynamic_exprs (children_to_string false (under options.now children_at (read s.now)))) (at templates.old page.old st)) }
    ensures { at templates.new page.new result ≡ act (dynamic_exprs (children_to_string false (under options.now children_at (read s.now)))) (at templates.old page.old st) }
{
    let mut cur = st;
    for field in Fields(s) {
        let b = field.body;
        match field.tag {
            CONTAINER => {
                if let AsChild::Gap(wrapped) = as_child(b) {
                    let p = cur.page;
                    let x = begin_if(cur, wrapped);
                    let y = on_expr(options, b, scratch, templates, page, x);
                    cur = close_if(page, y, p, JSX_ESCAPE, wrapped);
                }
            }
            ELEMENT => cur = to_gaps(options, b, scratch, templates, page, cur),
            FRAGMENT => cur = to_parts(options, b, scratch, templates, page, cur),
            _ => {}
        }
    }
    cur
}

// serialize_jsx_to_call_expr
#[cycle(visit)]
fn to_call(
    options: &Options<'_>,
    b: &[u8],
    scratch: &mut [u8],
    templates: &mut [u8],
    page: &mut [u8],
    st: Walk,
) -> Walk
    requires { Room scratch.old b.now (act (under options.now element_at b.now).to_call_expr (at templates.old page.old st)) }
    ensures { at templates.new page.new result ≡ act (under options.now element_at b.now).to_call_expr (at templates.old page.old st) }
{
    let p = st.page;
    let norm = !is_component(b);
    let rest = behind(b);
    let n = name_expr(page, begin(st), b);
    // Neither attributes nor children.
    if rest.is_empty() {
        let z = leaf(page, n, NULL, b"");
        return close(page, z, p, JSX);
    }
    let q = n.page;
    let x = to_props(options, rest, norm, scratch, templates, page, begin(n));
    let f = found_of(options.skip, rest);
    let stands = is_found(f);
    let h = x.page;
    let y = children_front(page, x, stands);
    let z = to_found(options, rest, f, false, scratch, templates, page, y);
    let c = close_if(page, z, h, PROP, stands);
    let d = close_props(page, c, q);
    let l = match key_at(rest, norm) {
        Some(Value::String(text)) => attr_string_leaf(page, d, text),
        Some(Value::Container(held)) => on_held(options, held, scratch, templates, page, d),
        Some(Value::Tag(_)) | None => d,
    };
    close(page, l, p, JSX)
}

// The properties of a call.
#[cycle(visit)]
fn to_props(
    options: &Options<'_>,
    s: &[u8],
    norm: bool,
    scratch: &mut [u8],
    templates: &mut [u8],
    page: &mut [u8],
    st: Walk,
) -> Walk
    requires { Room scratch.old s.now (see (props_of norm (under options.now attributes_at (read s.now))) (at templates.old page.old st)) }
    ensures { at templates.new page.new result ≡ see (props_of norm (under options.now attributes_at (read s.now))) (at templates.old page.old st) }
{
    let mut cur = st;
    for field in Fields(s) {
        let a = field.body;
        let p = cur.page;
        match field.tag {
            ATTRIBUTE => {
                if let Some(gap) = as_property(a, norm) {
                    let x = property_front(page, cur, a, gap);
                    let y = on_held(options, gap.held(), scratch, templates, page, x);
                    cur = gap_back(page, y, p, PROP, a, gap);
                }
            }
            SPREAD => {
                let x = on_expr(options, a, scratch, templates, page, begin(cur));
                cur = close(page, x, p, SPREAD);
            }
            _ => return cur,
        }
    }
    cur
}

// What the children of a call give: one expression, or, where it is spliced, the elements of an array.
#[inline(always)]
#[cycle(visit)]
fn to_found(
    options: &Options<'_>,
    s: &[u8],
    f: Found,
    splice: bool,
    scratch: &mut [u8],
    templates: &mut [u8],
    page: &mut [u8],
    st: Walk,
) -> Walk
    requires { (Given options.now.skip.now options.now.props.now s.now f) × Room scratch.old s.now (act (found_out splice (children_to_expr (under options.now children_at (read s.now)))) (at templates.old page.old st)) }
    ensures { at templates.new page.new result ≡ act (found_out splice (children_to_expr (under options.now children_at (read s.now)))) (at templates.old page.old st) }
{
    let u = f.part(s);
    let p = st.page;
    match f.kind {
        Kind::Nothing | Kind::Item => st,
        Kind::Text => text_leaf(page, st, body(u)),
        Kind::Element => to_jsx(options, body(u), scratch, templates, page, st),
        Kind::Template => {
            let a = begin_template(page, st);
            let c = to_parts(options, u, scratch, templates, page, a);
            close(page, c, p, JSX_TEMPLATE)
        }
        Kind::Run => to_entries(options, u, 0, scratch, templates, page, st),
        Kind::Expr => match elements(u, splice) {
            Some(items) => on_items(options, items, scratch, templates, page, st),
            None => on_expr(options, u, scratch, templates, page, st),
        },
        Kind::Many(known) if splice => {
            to_entries(options, u, known, scratch, templates, page, st)
        }
        Kind::Many(known) => {
            let c = to_entries(options, u, known, scratch, templates, page, begin(st));
            close(page, c, p, ARRAY)
        }
        Kind::Empty if splice => st,
        Kind::Empty => close(page, begin(st), p, ARRAY),
        Kind::Hole => hole_leaf(page, st, splice),
    }
}

// The entries of merged children. What ends a run flushes it in its own arm: one arm for the three would match their tag again.
#[cycle(visit)]
fn to_entries(
    options: &Options<'_>,
    s: &[u8],
    known: usize,
    scratch: &mut [u8],
    templates: &mut [u8],
    page: &mut [u8],
    st: Walk,
) -> Walk
    requires known { Known known options.now.skip.now s.now }
    requires room { Room scratch.old s.now (act (entries_pass (entries (merge false false [] (under options.now children_at (read s.now))))) (at templates.old page.old st)) }
    ensures { at templates.new page.new result ≡ act (entries_pass (entries (merge false false [] (under options.now children_at (read s.now))))) (at templates.old page.old st) }
{
    let mut cur = st;
    // The bytes of the string that stands open: a length, 0 where none does, since a run of no bytes writes nothing.
    let mut run: usize = 0;
    for field in Fields(s) {
        let b = field.body;
        match field.tag {
            TEXT => run = join_text(page, cur.page, run, b),
            CONTAINER => match as_child(b) {
                AsChild::Text(text) => run = join_container(page, cur.page, run, text),
                AsChild::Gap(_) => {
                    let a = flush(page, cur, run);
                    run = 0;
                    cur = on_expr(options, b, scratch, templates, page, a);
                }
            },
            ELEMENT => {
                let a = flush(page, cur, run);
                run = 0;
                cur = to_jsx(options, b, scratch, templates, page, a);
            }
            FRAGMENT => {
                let a = flush(page, cur, run);
                run = 0;
                let f = found_in(options.skip, s, b, known);
                cur = to_found(options, b, f, true, scratch, templates, page, a);
            }
            _ => {}
        }
    }
    flush(page, cur, run)
}
