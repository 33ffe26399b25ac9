// An attribute in an opening tag, and as a property of a call: what stands before the expression that it holds, and what stands behind.
// An attribute is given by the fields of its 50.
ghost use Rattle.std.specs.Prelude.{◌≡◌, ◌+◌, ◌≤◌, ◌<◌, ◌^◌, length, true, false, []};
ghost use Rattle.field.specs.Bytes.{Bytes};
ghost use Rattle.field.specs.Row.{read};
ghost use Rattle.field.specs.Put.{Wrote};
ghost use Rattle.names.specs.Names.{get_attr_name};
ghost use Rattle.text.specs.Text.{normalize_lit_str};
ghost use Rattle.page.specs.Tree.{attr_name_in};
ghost use Rattle.spec.specs.Pass.{none, node};
ghost use Rattle.spec.specs.Output as O;
ghost use Rattle.spec.specs.Attributes.{key_of};
ghost use Rattle.decisions.specs.At.{opts, attributes_at};
ghost use Rattle.walk.specs.See.{at, see, begun, Low};
ghost use Rattle.walk.specs.Plan.{front, back, key_given, key_braces};

use crate::state::{Walk, attr_string_leaf, begin, close, close_leaf, leaf};
use decisions::attribute::{Attributes, Value, is_key, put_name, value_at};
use decisions::becomes::Gap;
use field::HEAD;
use field::tags::{BOOLEAN, CHOICE, NULL, STATIC_STRING, STRING};

// An 81 with the attribute's name.
#[tactic(auto, using(crate::proofs::LeafLaws::leaf_room, crate::proofs::LeafLaws::leaf_is))]
fn name_leaf(page: &mut [u8], st: Walk, a: &[u8], norm: bool) -> Walk
    requires { Low (see (O.leaf 0x81 (get_attr_name (attr_name_in (read a.now)) norm)) (at [] page.old st)).st }
    ensures { at [] page.new result ≡ see (O.leaf 0x81 (get_attr_name (attr_name_in (read a.now)) norm)) (at [] page.old st) }
{
    let e = put_name(page, st.page + HEAD, a, norm);
    close_leaf(page, st, e, STATIC_STRING)
}

// A field begins with the name.
#[tactic(auto, using(crate::proofs::LeafLaws::begun_room, crate::proofs::LeafLaws::begun_low, crate::proofs::LeafLaws::begun_is))]
fn begin_named(page: &mut [u8], st: Walk, a: &[u8], norm: bool) -> Walk
    requires { Low (see (O.leaf 0x81 (get_attr_name (attr_name_in (read a.now)) norm)) (begun (at [] page.old st))).st }
    ensures { at [] page.new result ≡ see (O.leaf 0x81 (get_attr_name (attr_name_in (read a.now)) norm)) (begun (at [] page.old st)) }
{
    name_leaf(page, begin(st), a, norm)
}

// The name, and a leaf.
#[inline(always)]
#[tactic(auto, using(crate::proofs::LeafLaws::front_low, crate::proofs::LeafLaws::rest_low, crate::proofs::LeafLaws::rest_is))]
fn begin_leaf(page: &mut [u8], st: Walk, a: &[u8], norm: bool, tag: u8, b: &[u8]) -> Walk
    requires { Low (see (node 0x81 (get_attr_name (attr_name_in (read a.now)) norm) none (O.leaf tag b.now)) (begun (at [] page.old st))).st }
    ensures { at [] page.new result ≡ see (node 0x81 (get_attr_name (attr_name_in (read a.now)) norm) none (O.leaf tag b.now)) (begun (at [] page.old st)) }
{
    let x = begin_named(page, st, a, norm);
    leaf(page, x, tag, b)
}

// All that stands before the expression, in an opening tag.
#[inline(always)]
#[tactic(auto, using(crate::proofs::ArmLaws::gap_front_is))]
pub fn attribute_front(page: &mut [u8], st: Walk, a: &[u8], gap: Gap<'_>) -> Walk
    requires { Low (front (λ b. b) a.now gap (at [] page.old st)).st }
    ensures { at [] page.new result ≡ front (λ b. b) a.now gap.entry (at [] page.old st) }
{
    match gap {
        Gap::True(norm) => begin_leaf(page, st, a, norm, BOOLEAN, b"\x01"),
        Gap::String(norm, b) => begin_leaf(page, st, a, norm, STRING, b),
        Gap::Null => begin_leaf(page, st, a, false, NULL, b""),
        Gap::Attr(norm, _) => begin_named(page, st, a, norm),
        Gap::Choice(_) => begin(st),
    }
}

// And in a call.
pub fn property_front(page: &mut [u8], st: Walk, a: &[u8], gap: Gap<'_>) -> Walk
    requires { Low (front normalize_lit_str a.now gap (at [] page.old st)).st }
    ensures { at [] page.new result ≡ front normalize_lit_str a.now gap.entry (at [] page.old st) }
{
    if let Gap::String(norm, b) = gap {
        // in an opening tag it stands as it is
        let x = begin_named(page, st, a, norm);
        attr_string_leaf(page, x, b)
    } else {
        attribute_front(page, st, a, gap)
    }
}

// All that stands behind it, and the head of the field at p with that tag.
#[inline(always)]
pub fn gap_back(page: &mut [u8], st: Walk, p: usize, tag: u8, a: &[u8], gap: Gap<'_>) -> Walk
    requires { (p + 3 ≤ st.page) × Low (back tag a.now gap p (at [] page.old st)).st }
    ensures { at [] page.new result ≡ back tag a.now gap.entry p (at [] page.old st) }
{
    match gap {
        Gap::Choice(_) => {
            let x = name_leaf(page, st, a, true);
            close(page, x, p, CHOICE)
        }
        Gap::True(_) | Gap::String(_, _) | Gap::Null | Gap::Attr(_, _) => close(page, st, p, tag),
    }
}

// What decides the key: the value of the last attribute that reads `key` and has one.
pub fn key_at(s: &[u8], norm: bool) -> Option<Value<'_>>
    ensures { ((skip props : Bytes) → key_of norm (attributes_at skip props (read s.now)) none ≡ key_given (opts skip props) result) × (length (key_braces result) ≤ length s.now) }
{
    let mut key = None;
    for a in Attributes(s) {
        if is_key(a, norm) {
            key = value_at(a).or(key);
        }
    }
    key
}
