// The parts of a jsx call.
ghost use Rattle.std.specs.Prelude.{◌≡◌, ◌+◌, ◌≤◌, ◌∷◌, ◌++◌, []};
ghost use Rattle.field.specs.Bytes.{ascii, pick};
ghost use Rattle.field.specs.Row.{read};
ghost use Rattle.page.specs.Tree.{texts_in};
ghost use Rattle.spec.specs.Output as O;
ghost use Rattle.spec.specs.Children.{members_row, name_expr};
ghost use Rattle.decisions.specs.At.{element_name};
ghost use Rattle.walk.specs.See.{at, see, begun, props_closed, hole_mid, Low};

use crate::state::{Walk, at_page, begin, close, close_leaf, leaf};
use decisions::element::{ElementName, element_name_at, is_upper};
use field::HEAD;
use field::reader::Fields;
use field::tags::{ARRAY, HOLE, IDENT, MEMBER, NULL, PROPS, STATIC_STRING};
use field::writer::{put_byte, put_bytes};

fn member_names(page: &mut [u8], st: Walk, s: &[u8]) -> Walk
    requires { Low (see (members_row (texts_in 0x40 (read s.now))) (at [] page.old st)).st }
    ensures { at [] page.new result ≡ see (members_row (texts_in 0x40 (read s.now))) (at [] page.old st) }
{
    let mut cur = st;
    for field in Fields(s) {
        if field.tag == IDENT {
            cur = leaf(page, cur, IDENT, field.body);
        }
    }
    cur
}

// A namespaced name.
fn namespaced_leaf(page: &mut [u8], st: Walk, ns: &[u8], n: &[u8]) -> Walk
    requires { Low (see (O.leaf 0x81 (ns.now ++ (58 ∷ n.now))) (at [] page.old st)).st }
    ensures { at [] page.new result ≡ see (O.leaf 0x81 (ns.now ++ (58 ∷ n.now))) (at [] page.old st) }
{
    let x = put_bytes(page, st.page + HEAD, ns);
    let y = put_byte(page, x, b':');
    let z = put_bytes(page, y, n);
    close_leaf(page, st, z, STATIC_STRING)
}

// The first argument of a jsx call.
pub fn name_expr(page: &mut [u8], st: Walk, b: &[u8]) -> Walk
    requires { Low (see (name_expr (element_name (read b.now))) (at [] page.old st)).st }
    ensures { at [] page.new result ≡ see (name_expr (element_name (read b.now))) (at [] page.old st) }
{
    match element_name_at(b) {
        ElementName::Identifier(n) if is_upper(n) => leaf(page, st, IDENT, n),
        ElementName::Identifier(n) => leaf(page, st, STATIC_STRING, n),
        ElementName::Member(names) => {
            let p = st.page;
            let a = member_names(page, begin(st), names);
            close(page, a, p, MEMBER)
        }
        ElementName::Namespaced(ns, n) => namespaced_leaf(page, st, ns, n),
    }
}

// The `children` property begins, where it stands.
pub fn children_front(page: &mut [u8], st: Walk, stands: bool) -> Walk
    requires { Low (pick stands (see (O.leaf 0x81 (ascii "children")) (begun (at [] page.old st))) (at [] page.old st)).st }
    ensures { at [] page.new result ≡ pick stands (see (O.leaf 0x81 (ascii "children")) (begun (at [] page.old st))) (at [] page.old st) }
{
    if stands {
        leaf(page, begin(st), STATIC_STRING, b"children")
    } else {
        st
    }
}

// The properties that began at q end: null for none.
pub fn close_props(page: &mut [u8], st: Walk, q: usize) -> Walk
    requires { (q + 3 ≤ st.page) × Low (props_closed q (at [] page.old st)).st }
    ensures { at [] page.new result ≡ props_closed q (at [] page.old st) }
{
    if st.page == q + HEAD {
        leaf(page, at_page(st, q), NULL, b"")
    } else {
        close(page, st, q, PROPS)
    }
}

// A hole in an array: the array around it, where it is not spliced. By a flag, as `hole_mid` has it.
pub fn hole_leaf(page: &mut [u8], st: Walk, splice: bool) -> Walk
    requires { Low (see (hole_mid splice) (at [] page.old st)).st }
    ensures { at [] page.new result ≡ see (hole_mid splice) (at [] page.old st) }
{
    if splice {
        return leaf(page, st, HOLE, b"");
    }
    let p = st.page;
    let x = leaf(page, begin(st), HOLE, b"");
    close(page, x, p, ARRAY)
}
