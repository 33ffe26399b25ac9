// Elements and children in a template. A child that stays dynamic leaves a gap; all else is written into the open string as it comes, so
// that the runs of a merge need no buffer.
ghost use Rattle.std.specs.Prelude.{◌≡◌, true, ◌&&◌, ◌+◌, ◌<◌, ◌^◌, ◌∷◌, [], ◌++◌, length};
ghost use Rattle.field.specs.Bytes.{Bytes};
ghost use Rattle.field.specs.Put.{Wrote};
ghost use Rattle.field.specs.Row.{read};
ghost use Rattle.field.specs.Front.{behind_of};
ghost use Rattle.text.specs.Escape.{escape_html};
ghost use Rattle.names.specs.Table.{void_kind};
ghost use Rattle.page.specs.Tree.{children_in, contained_in};
ghost use Rattle.spec.specs.Pass.{chars};
ghost use Rattle.spec.specs.Children.{children_to_string};
ghost use Rattle.decisions.specs.At.{children_at, element_at, serializable, is_none, under};
ghost use Rattle.decisions.specs.Becomes.{as_child};
ghost use Rattle.decisions.specs.Repeats.{Told};
ghost use Rattle.strings.specs.Due.{graver, grave};
ghost use Rattle.strings.specs.Carve.{at, carve, flags_at, opening, put_child, Low};

use crate::attributes::{attributes_strings, put_value};
use crate::due::{Due, graver};
use crate::writer::{Open, cut, put_chars, put_text};
use decisions::becomes::{AsChild, as_child};
use decisions::children::children_at;
use decisions::element::{identifier, serialized};
use decisions::options::Options;
use decisions::repeats::{Names, repeats};
use field::reader::{Fields, behind};
use field::tags::{CONTAINER, ELEMENT, FRAGMENT, TEXT};
use field::writer::{put_byte, put_bytes};
use names::{Void, void_kind};
use text::escape::put_short_escaped;

// `<name`
#[tactic(auto, unfolding(crate::specs::Carve::carve))]
fn put_open(out: &mut [u8], st: Open, n: &[u8]) -> Open
    requires { Low (carve (chars (60 ∷ escape_html n.now) ∷ []) (at out.old st)) }
    ensures { at out.new result ≡ carve (chars (60 ∷ escape_html n.now) ∷ []) (at out.old st) }
{
    let p = put_byte(out, st.end(), b'<');
    let q = put_short_escaped(out, p, n);
    st.ended(q)
}

// What is found of an element that is serialized, by what its name is to `void_kind` and what is told of its attributes' names.
fn tag_due(due: Due, kind: Option<Void>, names: Names, rest: &[u8]) -> Due
    requires { Told rest.now names }
    ensures { (n : Bytes) → kind ≡ void_kind n → result ≡ graver due (grave (flags_at n rest.now)) }
{
    match kind {
        _ if repeats(names, rest) => graver(due, Due::Repeated),
        Some(Void::InSmallLetters) => graver(due, Due::Mixed),
        Some(Void::AsWritten) | None => due,
    }
}

fn open_tag(
    out: &mut [u8],
    st: Open,
    n: &[u8],
    kind: Option<Void>,
    names: Names,
    rest: &[u8],
) -> Open
    requires { (kind ≡ void_kind n.now) × Low (carve (opening n.now rest.now) (at out.old st)) × Told rest.now names }
    ensures { at out.new result ≡ carve (opening n.now rest.now) (at out.old st) }
{
    let p = put_open(out, st, n);
    Open {
        due: tag_due(p.due, kind, names, rest),
        ..p
    }
}

// `</name>`
#[tactic(auto, unfolding(crate::specs::Carve::carve))]
fn put_close(out: &mut [u8], st: Open, n: &[u8]) -> Open
    requires { Low (carve (chars (60 ∷ 47 ∷ (n.now ++ (62 ∷ []))) ∷ []) (at out.old st)) }
    ensures { at out.new result ≡ carve (chars (60 ∷ 47 ∷ (n.now ++ (62 ∷ []))) ∷ []) (at out.old st) }
{
    let p = put_byte(out, st.end(), b'<');
    let q = put_byte(out, p, b'/');
    let r = put_bytes(out, q, n);
    let e = put_byte(out, r, b'>');
    st.ended(e)
}

// A container among children.
fn container_child(c: &[u8], out: &mut [u8], st: Open) -> Open
    requires { Low (put_child (as_child (contained_in (read c.now))) (at out.old st)) }
    ensures { at out.new result ≡ put_child (as_child (contained_in (read c.now))) (at out.old st) }
{
    match as_child(c) {
        AsChild::Text(text) => {
            let end = put_value(out, st.end(), text);
            st.ended(end)
        }
        AsChild::Gap(_) => cut(out, st),
    }
}

// Whether no child follows, where that matters to a text's last line.
fn is_last(parent: bool, s: &[u8]) -> bool
    ensures { result ≡ (parent && is_none (children_in (read s.now))) }
{
    parent && children_at(s).is_empty()
}

// An element in a template: one that is no HTML leaves a gap. Inlined: as a call of its own it would copy the open string there and back.
#[inline(always)]
#[cycle(strings)]
pub fn element_strings(options: &Options<'_>, b: &[u8], out: &mut [u8], st: Open) -> Open
    requires { Low (carve (under options.now element_at b.now).to_string_vec (at out.old st)) }
    ensures { at out.new result ≡ carve (under options.now element_at b.now).to_string_vec (at out.old st) }
{
    let Some(names) = serialized(options.skip, b) else {
        return cut(out, st);
    };
    tag_strings(options, b, names, out, st)
}

// One that is known to be HTML: its tags, and what stands between them. That it is serializable is the caller's test, which tells of its attributes'
// names too: a type of tested elements
// would have to say by which options they were tested, which is this clause again.
#[cycle(strings)]
pub fn tag_strings(options: &Options<'_>, b: &[u8], names: Names, out: &mut [u8], st: Open) -> Open
    requires { (serializable options.now.skip.now b.now ≡ true) × Low (carve (under options.now element_at b.now).to_string_vec (at out.old st)) × Told (behind_of b.now) names }
    ensures { at out.new result ≡ carve (under options.now element_at b.now).to_string_vec (at out.old st) }
{
    let n = identifier(b);
    let rest = behind(b);
    let kind = void_kind(n);
    let p = open_tag(out, st, n, kind, names, rest);
    let a = attributes_strings(options, rest, out, p);
    let c = put_chars(out, a, b">");
    if let Some(Void::AsWritten) = kind {
        return c;
    }
    // most small elements hold nothing, and a call copies the open string
    if rest.is_empty() {
        return put_close(out, c, n);
    }
    let d = children_strings(options, rest, true, out, c);
    put_close(out, d, n)
}

// Children in a template; `parent` where they are an element's.
#[cycle(strings)]
pub fn children_strings(
    options: &Options<'_>,
    s: &[u8],
    parent: bool,
    out: &mut [u8],
    st: Open,
) -> Open
    requires { Low (carve (children_to_string parent (under options.now children_at (read s.now))) (at out.old st)) }
    ensures { at out.new result ≡ carve (children_to_string parent (under options.now children_at (read s.now))) (at out.old st) }
{
    let mut cur = st;
    let mut fields = Fields(s);
    while let Some(field) = fields.next() {
        match field.tag {
            TEXT => {
                let last = is_last(parent, fields.0);
                cur = put_text(out, cur, field.body, last);
            }
            CONTAINER => cur = container_child(field.body, out, cur),
            ELEMENT => cur = element_strings(options, field.body, out, cur),
            FRAGMENT => cur = children_strings(options, field.body, false, out, cur),
            _ => {}
        }
    }
    cur
}
