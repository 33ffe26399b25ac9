// An attribute by the fields of its 50: the name in front, the value behind it.
ghost use Rattle.std.specs.Prelude.{◌≡◌, ◌+◌, ◌<◌, ◌^◌, true, false, length};
ghost use Rattle.field.specs.Bytes.{ascii, same, among};
ghost use Rattle.field.specs.Put.{Wrote};
ghost use Rattle.field.specs.Row.{read};
ghost use Rattle.names.specs.Names.{get_attr_name, is_boolean_attr};
ghost use Rattle.page.specs.Tree.{texts_in, first_in, second_in, attr_name_in};
ghost use Rattle.decisions.specs.At.{attr_name, IdentAt, Holds, GivesAttribute};
ghost use Rattle.std.specs.Iterator.{at_most};
ghost use Rattle.decisions.specs.Index.{names_of};

use crate::index::{lists, lists_namespaced};
use field::reader::{Field, Fields, behind, field_at};
use field::tags::{
    ATTRIBUTE, ATTRIBUTE_STRING, CONTAINER, ELEMENT, FRAGMENT, IDENT, NAMESPACED_NAME, SPREAD,
};
use names::{
    get_attr_name, normalize_namespaced, normalizes_to_boolean, normalizes_to_key,
    normalizes_to_ref, same_bytes,
};

// A value with its bytes, by the field that stands behind the name.
#[derive(Clone, Copy)]
pub enum Value<'a> {
    // a string's text
    String(&'a [u8]),
    // what stands in braces
    Container(&'a [u8]),
    // an element or a fragment, in front
    Tag(&'a [u8]),
}

// The attributes in front of a row, each by the fields of its 50. A spread is passed over.
#[derive(Clone, Copy)]
pub struct Attributes<'a>(pub &'a [u8]);

impl<'a> Iterator for Attributes<'a> {
    type Item = &'a [u8];

    ghost next_gives = { GivesAttribute };

    ghost remaining = { λ row. at_most (length row.0.now) };

    #[inline(always)]
    fn next(&mut self) -> Option<&'a [u8]> {
        let mut fields = Fields(self.0);
        while let Some(field) = fields.next() {
            match field.tag {
                ATTRIBUTE => {
                    self.0 = fields.0;
                    return Some(field.body);
                }
                SPREAD => {}
                _ => return None,
            }
        }
        None
    }
}

// The body of the next 40, empty where there is none.
fn next_name<'a>(fields: &mut Fields<'a>) -> &'a [u8]
    ensures first { result.now ≡ first_in (texts_in 0x40 (read fields.old.0.now)) }
    ensures rest { first_in (texts_in 0x40 (read fields.new.0.now)) ≡ second_in (texts_in 0x40 (read fields.old.0.now)) }
{
    match fields.find(|field| field.tag == IDENT) {
        Some(name) => name.body,
        None => &[],
    }
}

// The bodies of the first two 40s of a series.
// No bytes stand for a missing one, as in the tree (first_in and second_in of page): with an Option each caller would put them again.
// It is not merged into its callers, since few names are in two parts.
#[inline(never)]
pub fn two_names(s: &[u8]) -> (&[u8], &[u8])
    ensures first { result.0.now ≡ first_in (texts_in 0x40 (read s.now)) }
    ensures second { result.1.now ≡ second_in (texts_in 0x40 (read s.now)) }
{
    let mut fields = Fields(s);
    let first = next_name(&mut fields);
    let second = next_name(&mut fields);
    (first, second)
}

// An attribute's name. A missing one is an identifier of no bytes, as in the tree.
#[derive(Clone, Copy)]
pub enum AttrName<'a> {
    Ident(&'a [u8]),
    Namespaced(&'a [u8], &'a [u8]),
}

#[inline(always)]
pub fn attr_name_at(a: &[u8]) -> AttrName<'_>
    ensures { attr_name result ≡ attr_name_in (read a.now) }
{
    match field_at(a) {
        Some(Field { tag: IDENT, body }) => AttrName::Ident(body),
        Some(
            Field {
                tag: NAMESPACED_NAME,
                body,
            },
        ) => {
            let (ns, n) = two_names(body);
            AttrName::Namespaced(ns, n)
        }
        _ => AttrName::Ident(&[]),
    }
}

// The identifier that an attribute's name is. No other name is what is asked for below: a namespaced one is not read for it.
#[inline(always)]
pub fn ident_at(a: &[u8]) -> Option<&[u8]>
    ensures { IdentAt (attr_name_in (read a.now)) result }
{
    match field_at(a) {
        Some(Field { tag: IDENT, body }) => Some(body),
        _ => None,
    }
}

// Whether the attribute with these fields is one of the names of 03.
#[inline(never)]
fn is_among<'a>(props: &'a [u8], a: &'a [u8]) -> bool
    ensures { result ≡ among (get_attr_name (attr_name_in (read a.now)) false) (names_of props.now) }
{
    match attr_name_at(a) {
        AttrName::Ident(n) => lists(props, n),
        AttrName::Namespaced(ns, n) => lists_namespaced(props, ns, n),
    }
}

// Whether it is listed in 03. Most options list none, and that alone is asked where an attribute is looked at.
#[inline(always)]
pub fn is_listed<'a>(props: &'a [u8], a: &'a [u8]) -> bool
    ensures { result ≡ among (get_attr_name (attr_name_in (read a.now)) false) (names_of props.now) }
{
    !props.is_empty() && is_among(props, a)
}

// Whether its normalised name is boolean. A namespaced name never is. What this and the next ones share is `ident_at`; each asks another question.
pub fn is_boolean(a: &[u8]) -> bool
    ensures { result ≡ is_boolean_attr (get_attr_name (attr_name_in (read a.now)) true) }
{
    ident_at(a).is_some_and(|n| normalizes_to_boolean(n))
}

// Whether its name reads `key`, normalised or as written.
pub fn is_key(a: &[u8], norm: bool) -> bool
    ensures { result ≡ same (get_attr_name (attr_name_in (read a.now)) norm) (ascii "key") }
{
    let name = ident_at(a);
    if norm {
        name.is_some_and(|n| normalizes_to_key(n))
    } else {
        name.is_some_and(|n| same_bytes(n, b"key"))
    }
}

pub fn is_ref(a: &[u8]) -> bool
    ensures { result ≡ same (get_attr_name (attr_name_in (read a.now)) true) (ascii "ref") }
{
    ident_at(a).is_some_and(|n| normalizes_to_ref(n))
}

// The closure has a clause, since the search for what it does gives up at so long a name.
pub fn is_inner_html(a: &[u8]) -> bool
    ensures { result ≡ same (get_attr_name (attr_name_in (read a.now)) false) (ascii "dangerouslySetInnerHTML") }
{
    ident_at(a).is_some_and(
        |n|
            ensures { result ≡ same n.now (ascii "dangerouslySetInnerHTML") }
        { same_bytes(n, b"dangerouslySetInnerHTML") },
    )
}

// The name, normalised or as it is written.
#[tactic(auto, unfolding(names::specs::Names::get_attr_name))]
pub fn put_name(out: &mut [u8], at: usize, a: &[u8], norm: bool) -> usize
    requires { at + length (get_attr_name (attr_name_in (read a.now)) norm) < 2 ^ 63 }
    ensures { Wrote out.old at (get_attr_name (attr_name_in (read a.now)) norm) out.new result }
{
    match attr_name_at(a) {
        AttrName::Ident(n) => get_attr_name(out, at, n, norm),
        AttrName::Namespaced(ns, n) => normalize_namespaced(out, at, ns, n),
    }
}

// None where nothing follows the name.
#[inline(always)]
pub fn value_at(a: &[u8]) -> Option<Value<'_>>
    ensures { Holds a.now result }
{
    let value = behind(a);
    match field_at(value)? {
        Field {
            tag: ATTRIBUTE_STRING,
            body,
        } => Some(Value::String(body)),
        Field {
            tag: CONTAINER,
            body,
        } => Some(Value::Container(body)),
        Field {
            tag: ELEMENT | FRAGMENT,
            ..
        } => Some(Value::Tag(value)),
        _ => None,
    }
}
