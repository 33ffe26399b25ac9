// An attribute's name as the static strings of a template have it: normalised, then escaped.
ghost use Rattle.std.specs.Prelude.{◌+◌, ◌<◌, ◌^◌, ◌∷◌, ◌++◌, length};
ghost use Rattle.field.specs.Put.{Wrote};
ghost use Rattle.text.specs.Escape.{escape_html};
ghost use Rattle.names.specs.Names.{small_letters, normalize_dom_attr_name};

use crate::attributes::{is_plain, is_xlink_href, put_marked, put_spelled};
use crate::compare::{same_bytes, small_letter};
use crate::listed::find_mark;
use crate::runs::put_short;
use field::writer::{put_byte, put_bytes};
use text::escape::{is_escaped, put_escaped};

#[tactic(auto, using(field::proofs::PutLaws::wrote_none), unfolding(crate::specs::Names::small_letters, text::specs::Escape::escape_html))]
fn put_small_escaped(out: &mut [u8], at: usize, name: &[u8]) -> usize
    requires { at + length (escape_html (small_letters name.now)) < 2 ^ 63 }
    ensures { Wrote out.old at (escape_html (small_letters name.now)) out.new result }
{
    let mut a = at;
    for c in name {
        a = put_escaped(out, a, &[small_letter(*c)]);
    }
    a
}

// A name of the table has no sign that is escaped, and neither has what it becomes: other bytes than those of a name go letter by letter. Beside
// normalize_dom_attr_name, though one arm alone differs: one function with a flag would state both names by a test of it, which each caller would
// take apart again; and the arms in common by themselves would answer an Option, with a clause of three cases for the one arm that is spared.
#[tactic(auto, using(field::proofs::PutLaws::wrote_is, crate::proofs::EscapedLaws::escaped_normalize, crate::proofs::EscapedLaws::signs_unlisted), unfolding(crate::specs::Table::spelt))]
pub fn put_attr_name(out: &mut [u8], at: usize, name: &[u8]) -> usize
    requires { at + length (escape_html (normalize_dom_attr_name name.now)) < 2 ^ 63 }
    ensures { Wrote out.old at (escape_html (normalize_dom_attr_name name.now)) out.new result }
{
    if name.len() < 7 && is_plain(name) {
        return put_short(out, at, name);
    }
    if same_bytes(name, b"className") {
        return put_bytes(out, at, b"class");
    }
    match find_mark(name) {
        Some(mark) => put_marked(out, at, name, mark),
        None => {
            if is_plain(name) {
                put_short(out, at, name)
            } else if is_escaped(name) {
                put_spelled(out, at, name, None)
            } else {
                put_small_escaped(out, at, name)
            }
        }
    }
}

// Beside normalize_namespaced, of which it differs in the writer of a part: by a parameter for that, each contract would be a clause over both.
#[tactic(auto, using(field::proofs::PutLaws::wrote_is, crate::proofs::NamespacedLaws::namespaced_xlink, crate::proofs::EscapedLaws::namespaced_escaped_length, crate::proofs::EscapedLaws::namespaced_escaped))]
pub fn put_namespaced(out: &mut [u8], at: usize, ns: &[u8], name: &[u8]) -> usize
    requires { at + length (escape_html (normalize_dom_attr_name (ns.now ++ (58 ∷ name.now)))) < 2 ^ 63 }
    ensures { Wrote out.old at (escape_html (normalize_dom_attr_name (ns.now ++ (58 ∷ name.now)))) out.new result }
{
    if is_xlink_href(ns, name) {
        return put_bytes(out, at, b"href");
    }
    let a = put_small_escaped(out, at, ns);
    let b = put_byte(out, a, b':');
    put_small_escaped(out, b, name)
}
