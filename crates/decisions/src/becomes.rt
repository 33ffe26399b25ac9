// What becomes of an attribute in an opening tag and in a call, and of a container among children: decided once, for the strings and the page alike.
// An attribute is given by the fields of its 50.
ghost use Rattle.std.specs.Prelude.{◌≡◌, ◌≤◌, true, false, length};
ghost use Rattle.field.specs.Row.{read};
ghost use Rattle.field.specs.Bytes.{pick};
ghost use Rattle.names.specs.Names.{get_attr_name, is_boolean_attr};
ghost use Rattle.page.specs.Tree.{attr_name_in, value_in, contained_in, contained_value};
ghost use Rattle.decisions.specs.Index.{names_of};
ghost use Rattle.decisions.specs.Becomes.{choice_of, expr_of, in_tag, listed_in_tag, plain_in_tag, as_property, as_child, gap_case, tag_case, property_case, child_case, held, tag_held, property_held};

use crate::attribute::{Value, is_boolean, is_key, is_listed, is_ref, value_at};
use crate::expr::{Shape, shape_at};
use field::reader::{body, field_at};

// A text that is written out.
#[derive(Clone, Copy)]
pub enum Text<'a> {
    String(&'a [u8]),
    // the number in front
    Number(&'a [u8]),
    Minus(&'a [u8]),
}

// What an attribute leaves as a field of its own, in an opening tag or as a property. A name is normalised, or as it is written.
#[derive(Clone, Copy)]
pub enum Gap<'a> {
    // a name and true
    True(bool),
    // a name and a string
    String(bool, &'a [u8]),
    // a name as it is written and null
    Null,
    // a name and an expression
    Attr(bool, &'a [u8]),
    // a boolean choice: the expression, the name
    Choice(&'a [u8]),
}

impl<'a> Gap<'a> {
    // The expression, or no bytes where it holds none. Who visits it asks of what stands in any braces whether it is something, so an Option would
    // ask that twice.
    #[inline(always)]
    pub fn held(self) -> &'a [u8]
        ensures { result.now ≡ held self.entry }
    {
        match self {
            Gap::True(_) | Gap::String(_, _) | Gap::Null => &[],
            Gap::Attr(_, c) | Gap::Choice(c) => c,
        }
    }
}

// An attribute in an opening tag.
#[derive(Clone, Copy)]
pub enum InTag<'a> {
    // it is ignored
    Nothing,
    // a boolean name alone
    Name,
    // its name, and that value
    Text(Text<'a>),
    Gap(Gap<'a>),
}

// A container among children.
#[derive(Clone, Copy)]
pub enum AsChild<'a> {
    // it joins the text around it; a string of no bytes stands for nothing, since a run of no bytes writes nothing
    Text(Text<'a>),
    // its expression leaves a gap, wrapped with jsxEscape or not
    Gap(bool),
}

// An expression that is no literal to be written out.
#[inline(always)]
fn choice_or_attr<'a>(a: &'a [u8], c: &'a [u8]) -> Gap<'a>
    ensures is { gap_case result ≡ pick (is_boolean_attr (get_attr_name (attr_name_in (read a.now)) true)) (choice_of (contained_in (read c.now))) (expr_of true (contained_in (read c.now))) }
    ensures within { length (held result) ≤ length c.now }
{
    if is_boolean(a) {
        Gap::Choice(c)
    } else {
        Gap::Attr(true, c)
    }
}

// What braces hold.
#[inline(always)]
#[tactic(auto, using(crate::proofs::BecomesLaws::container_fate))]
fn container_in_tag<'a>(a: &'a [u8], c: &'a [u8]) -> InTag<'a>
    requires { length c.now ≤ length a.now }
    ensures is { tag_case result ≡ plain_in_tag (get_attr_name (attr_name_in (read a.now)) true) (contained_value (contained_in (read c.now))) }
    ensures within { length (tag_held result) ≤ length a.now }
{
    match shape_at(c) {
        Shape::Empty => InTag::Nothing,
        Shape::String => InTag::Text(Text::String(body(c))),
        Shape::Number => InTag::Text(Text::Number(c)),
        Shape::Minus => InTag::Text(Text::Minus(c)),
        Shape::Boolean(b) if is_boolean(a) => { if b { InTag::Name } else { InTag::Nothing } }
        Shape::Boolean(_) => InTag::Gap(Gap::Attr(true, c)),
        Shape::Null | Shape::Literal | Shape::Other => InTag::Gap(choice_or_attr(a, c)),
    }
}

// One that is listed. 01 has an attribute without a value take its own way, by let .. else, here and in the next two.
#[inline(never)]
#[tactic(auto, unfolding(crate::specs::Becomes::listed_in_tag))]
fn listed_in_tag(a: &[u8]) -> Gap<'_>
    ensures is { gap_case result ≡ listed_in_tag (value_in (read a.now)) }
    ensures within { length (held result) ≤ length a.now }
{
    let Some(value) = value_at(a) else {
        return Gap::True(false);
    };
    match value {
        Value::String(b) => Gap::String(false, b),
        Value::Container(c) if field_at(c).is_some() => Gap::Attr(false, c),
        Value::Container(_) => Gap::Null,
        Value::Tag(t) => Gap::Attr(false, t),
    }
}

#[inline(always)]
#[tactic(auto, unfolding(crate::specs::Becomes::plain_in_tag))]
fn plain_in_tag(a: &[u8]) -> InTag<'_>
    ensures is { tag_case result ≡ plain_in_tag (get_attr_name (attr_name_in (read a.now)) true) (value_in (read a.now)) }
    ensures within { length (tag_held result) ≤ length a.now }
{
    let Some(value) = value_at(a) else {
        return if is_boolean(a) {
            InTag::Name
        } else {
            InTag::Gap(Gap::True(true))
        };
    };
    match value {
        Value::String(b) if is_key(a, true) || is_ref(a) => InTag::Gap(Gap::String(true, b)),
        Value::String(b) => InTag::Text(Text::String(b)),
        Value::Container(c) => container_in_tag(a, c),
        Value::Tag(_) => InTag::Nothing,
    }
}

#[inline(always)]
#[tactic(auto, unfolding(crate::specs::Becomes::in_tag))]
pub fn in_tag<'a>(props: &'a [u8], a: &'a [u8]) -> InTag<'a>
    ensures is { tag_case result ≡ in_tag (names_of props.now) (attr_name_in (read a.now)) (value_in (read a.now)) }
    ensures within { length (tag_held result) ≤ length a.now }
{
    if is_listed(props, a) {
        InTag::Gap(listed_in_tag(a))
    } else {
        plain_in_tag(a)
    }
}

// A property of a call, or None where it is the key or ignored.
pub fn as_property(a: &[u8], norm: bool) -> Option<Gap<'_>>
    ensures is { property_case result ≡ as_property norm (attr_name_in (read a.now)) (value_in (read a.now)) }
    ensures within { length (property_held result) ≤ length a.now }
{
    let Some(value) = value_at(a) else {
        return Some(Gap::True(norm));
    };
    match value {
        _ if is_key(a, norm) => None,
        Value::String(b) => Some(Gap::String(norm, b)),
        Value::Container(c) if field_at(c).is_some() => Some(Gap::Attr(norm, c)),
        Value::Container(_) => None,
        Value::Tag(_) => None,
    }
}

// The container with the fields c.
#[tactic(auto, using(crate::proofs::BecomesLaws::container_among))]
pub fn as_child(c: &[u8]) -> AsChild<'_>
    ensures { child_case result ≡ as_child (contained_in (read c.now)) }
{
    match shape_at(c) {
        Shape::Empty | Shape::Boolean(_) => AsChild::Text(Text::String(&[])),
        Shape::String => AsChild::Text(Text::String(body(c))),
        Shape::Number => AsChild::Text(Text::Number(c)),
        Shape::Null | Shape::Literal => AsChild::Gap(false),
        Shape::Minus | Shape::Other => AsChild::Gap(true),
    }
}
