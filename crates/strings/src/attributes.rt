// Attributes in an opening tag. An attribute is given by the fields of its 50: the name in front, the value behind it.
ghost use Rattle.std.specs.Prelude.{◌≡◌, ◌+◌, ◌<◌, ◌^◌, ◌∷◌, [], length};
ghost use Rattle.field.specs.Row.{read};
ghost use Rattle.field.specs.Put.{Wrote};
ghost use Rattle.text.specs.Escape.{escape_html};
ghost use Rattle.page.specs.Tree.{attr_name_in, value_in, attributes_in};
ghost use Rattle.spec.specs.Pass.{chars};
ghost use Rattle.spec.specs.Attributes.{attribute, serialize_attr, attr_parts, attrs_parts};
ghost use Rattle.spec.specs.Transform.{value, attributes};
ghost use Rattle.decisions.specs.At.{opts, under};
ghost use Rattle.decisions.specs.Becomes.{text};
ghost use Rattle.strings.specs.Carve.{at, carve, name_at, Low};

use crate::writer::{Open, space_and_cut};
use decisions::attribute::{AttrName, Attributes, attr_name_at, put_name};
use decisions::becomes::{InTag, Text, in_tag};
use decisions::expr::put_number_at;
use decisions::options::Options;
use field::writer::{put_byte, put_bytes};
use names::{put_attr_name, put_namespaced};
use text::escape::put_escaped;

// The normalised name, escaped, as serialize_attr puts it. The match is that of `put_name`, over writers that escape as they go: one function for both
// would take the two writers of each and keep the match alone.
fn put_escaped_name(out: &mut [u8], at: usize, a: &[u8]) -> usize
    requires { at + length (escape_html (name_at a.now)) < 2 ^ 63 }
    ensures { Wrote out.old at (escape_html (name_at a.now)) out.new result }
{
    match attr_name_at(a) {
        AttrName::Ident(n) => put_attr_name(out, at, n),
        AttrName::Namespaced(ns, n) => put_namespaced(out, at, ns, n),
    }
}

// A text, escaped; no escape changes a number.
pub fn put_value(out: &mut [u8], at: usize, value: Text<'_>) -> usize
    requires { at + length (escape_html (text value)) < 2 ^ 63 }
    ensures { Wrote out.old at (escape_html (text value.entry)) out.new result }
{
    match value {
        Text::String(s) => put_escaped(out, at, s),
        Text::Number(c) => put_number_at(out, at, c),
        Text::Minus(c) => {
            let p = put_byte(out, at, b'-');
            put_number_at(out, p, c)
        }
    }
}

// serialize_attr. It and the next are inlined: a call holds the open string in memory, which takes 40 instructions more an attribute.
#[inline(always)]
#[tactic(auto, unfolding(crate::specs::Carve::carve, spec::specs::Attributes::serialize_attr))]
fn put_serialized(out: &mut [u8], st: Open, a: &[u8], value: Text<'_>) -> Open
    requires { Low (carve (chars (serialize_attr (name_at a.now) (text value)) ∷ []) (at out.old st)) }
    ensures { at out.new result ≡ carve (chars (serialize_attr (name_at a.now) (text value.entry)) ∷ []) (at out.old st) }
{
    let p = put_byte(out, st.end(), b' ');
    let q = put_escaped_name(out, p, a);
    let r = put_bytes(out, q, b"=\"");
    let e = put_value(out, r, value);
    let f = put_byte(out, e, b'"');
    st.ended(f)
}

// `disabled`, or `disabled={true}`: no escape changes a boolean name. Like `put_open` it is a byte and a name, and each name has its writer.
#[inline(always)]
#[tactic(auto, unfolding(crate::specs::Carve::carve))]
fn put_boolean_name(out: &mut [u8], st: Open, a: &[u8]) -> Open
    requires { Low (carve (chars (32 ∷ name_at a.now) ∷ []) (at out.old st)) }
    ensures { at out.new result ≡ carve (chars (32 ∷ name_at a.now) ∷ []) (at out.old st) }
{
    let p = put_byte(out, st.end(), b' ');
    let q = put_name(out, p, a, true);
    st.ended(q)
}

fn attribute_strings(options: &Options<'_>, a: &[u8], out: &mut [u8], st: Open) -> Open
    requires { Low (carve (attr_parts (under options.now opts) (attribute (attr_name_in (read a.now)) (value (under options.now opts) (value_in (read a.now))))) (at out.old st)) }
    ensures { at out.new result ≡ carve (attr_parts (under options.now opts) (attribute (attr_name_in (read a.now)) (value (under options.now opts) (value_in (read a.now))))) (at out.old st) }
{
    match in_tag(options.props, a) {
        InTag::Nothing => st,
        InTag::Name => put_boolean_name(out, st, a),
        InTag::Text(value) => put_serialized(out, st, a, value),
        InTag::Gap(_) => space_and_cut(out, st),
    }
}

// Attributes stand before children: the first field that is none ends them.
pub fn attributes_strings(options: &Options<'_>, s: &[u8], out: &mut [u8], st: Open) -> Open
    requires { Low (carve (attrs_parts (under options.now opts) (attributes (under options.now opts) (attributes_in (read s.now)))) (at out.old st)) }
    ensures { at out.new result ≡ carve (attrs_parts (under options.now opts) (attributes (under options.now opts) (attributes_in (read s.now)))) (at out.old st) }
{
    let mut cur = st;
    for a in Attributes(s) {
        cur = attribute_strings(options, a, out, cur);
    }
    cur
}
