// A series of children. Fields that are no child are passed over, so that the fields behind an element's name may be given whole.
ghost use Rattle.std.specs.Prelude.{◌≡◌, ◌≤◌, ◌-◌, length, drop};
ghost use Rattle.field.specs.Row.{read};
ghost use Rattle.page.specs.Check.{is_child};
ghost use Rattle.page.specs.Tree.{children_in};
ghost use Rattle.decisions.specs.At.{FirstChild, few, count_of, OnlyIn, some_text, becomes};

use crate::element::is_serializable;
use field::reader::{Field, Fields};
use field::tags::{CONTAINER, ELEMENT, FRAGMENT, SPREAD_CHILD, TEXT};
use text::jsx_text::is_blank;

fn is_child(tag: u8) -> bool
    ensures { result ≡ is_child tag }
{
    matches!(tag, TEXT | CONTAINER | ELEMENT | FRAGMENT | SPREAD_CHILD)
}

// What is left of a series from its first child on. No bytes may be left of it: it is measured and walked as it is.
pub fn children_at(s: &[u8]) -> &[u8]
    ensures first { FirstChild s.now result.now }
    ensures within { length result.now ≤ length s.now }
    ensures place { result.now ≡ drop (length s.now - length result.now) s.now }
{
    let mut fields = Fields(s);
    let mut left = s;
    while let Some(field) = fields.next() {
        if is_child(field.tag) {
            return left;
        }
        left = fields.0;
    }
    &[]
}

// How many, of children or of an array's elements, as the definitions count them; `Children` has the only one with it.
#[derive(Clone, Copy)]
pub enum Count {
    Zero,
    One,
    More,
}

// None, the only one, or more.
#[derive(Clone, Copy)]
pub enum Children<'a> {
    Zero,
    One(Field<'a>),
    More,
}

pub fn children_of(s: &[u8]) -> Children<'_>
    ensures count { few (children_in (read s.now)) ≡ count_of result }
    ensures only { OnlyIn s.now result }
{
    let first = children_at(s);
    let mut fields = Fields(first);
    let Some(only) = fields.next() else {
        return Children::Zero;
    };
    if children_at(fields.0).is_empty() {
        Children::One(only)
    } else {
        Children::More
    }
}

// Whether the text rule leaves something of a text among the children.
fn has_text(s: &[u8]) -> bool
    ensures { result ≡ some_text (children_in (read s.now)) }
{
    Fields(s).any(|field| field.tag == TEXT && !is_blank(field.body, false))
}

// Whether several children of a call become one template. Texts are looked into only where one tag alone is serializable: a series of
// texts may be long and asked about often.
#[inline(always)]
pub fn becomes_template(skip: &[u8], s: &[u8]) -> bool
    ensures { result ≡ becomes skip.now (children_in (read s.now)) }
{
    // By a flag: the tags that were seen and those that are left are one sum, which is the whole proof; a `filter` that is asked twice would take laws
    // of what it passes over.
    let mut tagged = false;
    for field in Fields(s) {
        if field.tag == ELEMENT && is_serializable(skip, field.body) {
            if tagged {
                return true;
            }
            tagged = true;
        }
    }
    tagged && has_text(s)
}
