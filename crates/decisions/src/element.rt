// An element by the fields of its 30: the name in front, attributes and children behind it.
ghost use Rattle.std.specs.Prelude.{◌≡◌, []};
ghost use Rattle.field.specs.Bytes.{pick};
ghost use Rattle.field.specs.Row.{read};
ghost use Rattle.field.specs.Front.{behind_of};
ghost use Rattle.names.specs.Names.{is_void_element};
ghost use Rattle.page.specs.Tree.{attributes_in};
ghost use Rattle.spec.specs.Attributes.{first_upper, is_component};
ghost use Rattle.decisions.specs.At.{element_name, element_named, identifier_bytes, forbids, serializable};
ghost use Rattle.decisions.specs.Repeats.{AttributesTold, SerializedTold};

use crate::attribute::{is_inner_html, two_names};
use crate::index::lists;
use crate::repeats::{Names, ends_key, key_of};
use field::reader::{Field, Fields, behind, field_at};
use field::tags::{ATTRIBUTE, IDENT, MEMBER, NAMESPACED_NAME, SPREAD};
use names::is_void_element;

pub fn is_upper(name: &[u8]) -> bool
    ensures { result ≡ first_upper name.now }
{
    name.first().is_some_and(|c| c.is_ascii_uppercase())
}

// An element's name. A missing one is an identifier of no bytes, as in the tree.
#[derive(Clone, Copy)]
pub enum ElementName<'a> {
    Identifier(&'a [u8]),
    // a row of 40s
    Member(&'a [u8]),
    Namespaced(&'a [u8], &'a [u8]),
}

#[inline(always)]
pub fn element_name_at(b: &[u8]) -> ElementName<'_>
    ensures { element_named result ≡ element_name (read b.now) }
{
    match field_at(b) {
        Some(Field { tag: IDENT, body }) => ElementName::Identifier(body),
        Some(Field { tag: MEMBER, body }) => ElementName::Member(body),
        Some(
            Field {
                tag: NAMESPACED_NAME,
                body,
            },
        ) => {
            let (ns, n) = two_names(body);
            ElementName::Namespaced(ns, n)
        }
        _ => ElementName::Identifier(&[]),
    }
}

// The bytes of an identifier. Any other name has none, as in identifier_bytes: with an Option each caller would put them again. `ident_at` reads the
// same field, but what it tells is of an attribute's name.
pub fn identifier(b: &[u8]) -> &[u8]
    ensures { result.now ≡ identifier_bytes (element_name (read b.now)) }
{
    match field_at(b) {
        Some(Field { tag: IDENT, body }) => body,
        _ => &[],
    }
}

// A spread, or dangerouslySetInnerHTML, among the attributes in front.
#[inline(never)]
fn keeps_from_serializing(s: &[u8]) -> bool
    ensures { result ≡ forbids (attributes_in (read s.now)) }
{
    for field in Fields(s) {
        match field.tag {
            ATTRIBUTE => {
                if is_inner_html(field.body) {
                    return true;
                }
            }
            SPREAD => return true,
            _ => return false,
        }
    }
    false
}

// The same, where anything stands behind the name: most tags of dense pages have nothing there, and that is seen before a call is made.
#[inline(always)]
fn keeps_from(s: &[u8]) -> bool
    ensures { result ≡ forbids (attributes_in (read s.now)) }
{
    !s.is_empty() && keeps_from_serializing(s)
}

// The same where their names repeat, or where that is not told.
#[inline(never)]
fn unsure(s: &[u8]) -> Option<Names>
    ensures { AttributesTold s.now result }
{
    if keeps_from_serializing(s) {
        None
    } else {
        Some(Names::Unsure)
    }
}

// The same, and what the names tell on the way, by keys of three letters.
#[inline(never)]
fn told_by_letters(s: &[u8]) -> Option<Names>
    ensures { AttributesTold s.now result }
{
    let mut noted: u64 = 0;
    for field in Fields(s) {
        match field.tag {
            ATTRIBUTE => {
                let Some(key) = key_of(field.body) else {
                    return unsure(s);
                };
                if (noted >> key) & 1 == 1 {
                    return unsure(s);
                }
                noted |= 1 << key;
            }
            SPREAD => return None,
            _ => return Some(Names::Different),
        }
    }
    Some(Names::Different)
}

// The key of `dangerouslySetInnerHTML`. It is seen from the start, so that no name needs a test of its own for that one.
const INNER_HTML: u64 = 1 << 6;

// The same by keys of both ends, which take half as much: so the question of A4 needs no walk of its own where all keys are different. A function of
// its own, which calls none in its loop: merged into its caller it takes 7 instructions an attribute more.
#[inline(never)]
fn names_told(s: &[u8]) -> Option<Names>
    ensures { AttributesTold s.now result }
{
    let mut seen = INNER_HTML;
    for field in Fields(s) {
        match field.tag {
            ATTRIBUTE => {
                let Some(key) = ends_key(field.body) else {
                    return told_by_letters(s);
                };
                if (seen >> key) & 1 == 1 {
                    return told_by_letters(s);
                }
                seen |= 1 << key;
            }
            SPREAD => return None,
            _ => return Some(Names::Different),
        }
    }
    Some(Names::Different)
}

// The same, without a call where no attribute stands in front.
#[inline(always)]
fn told_in_front(s: &[u8]) -> Option<Names>
    ensures { AttributesTold s.now result }
{
    let Some(field) = field_at(s) else {
        return Some(Names::Different);
    };
    match field.tag {
        ATTRIBUTE => names_told(s),
        SPREAD => None,
        _ => Some(Names::Different),
    }
}

// is_serializable, and what is told of its attributes' names where it is. Merged into its callers it takes more registers than they have. The names
// of 02 are looked at last, as there: before the walk, pages of spreads under a full 02 of one hash take 95.3 million instructions for 2.9.
#[inline(never)]
pub fn serialized(skip: &[u8], b: &[u8]) -> Option<Names>
    ensures { SerializedTold skip.now b.now result }
{
    let ElementName::Identifier(n) = element_name_at(b) else {
        return None;
    };
    if is_upper(n) {
        return None;
    }
    let names = told_in_front(behind(b))?;
    if lists(skip, n) { None } else { Some(names) }
}

// skip has the names of 02. They are looked at last: most options list none.
#[inline(always)]
pub fn is_serializable(skip: &[u8], b: &[u8]) -> bool
    ensures { result ≡ serializable skip.now b.now }
{
    let ElementName::Identifier(n) = element_name_at(b) else {
        return false;
    };
    !is_upper(n) && !keeps_from(behind(b)) && !lists(skip, n)
}

// Names are treated as a component's where they are members or start with a capital.
pub fn is_component(b: &[u8]) -> bool
    ensures { result ≡ is_component (element_name (read b.now)) }
{
    match element_name_at(b) {
        ElementName::Identifier(n) => is_upper(n),
        ElementName::Member(_) => true,
        ElementName::Namespaced(..) => false,
    }
}

// The fields in which a template looks for the element's children: a void element's are not looked at.
#[inline(always)]
pub fn inner_children(b: &[u8]) -> &[u8]
    ensures { result.now ≡ pick (is_void_element (identifier_bytes (element_name (read b.now)))) [] (behind_of b.now) }
{
    if is_void_element(identifier(b)) {
        &[]
    } else {
        behind(b)
    }
}
