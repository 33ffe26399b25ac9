// What an attribute's name becomes. The hyphens are worked out while the name is copied, and nowhere is a normalised name held.
ghost use Rattle.std.specs.Prelude.{◌≡◌, ◌+◌, ◌≤◌, ◌<◌, ◌^◌, ◌&&◌, ◌/◌, ◌%◌, ◌∷◌, [], ◌++◌, true, Some, length};
ghost use Rattle.field.specs.Bytes.{ascii, same};
ghost use Rattle.field.specs.Put.{Wrote};
ghost use Rattle.names.specs.Names.{ident, small_letter, get_attr_name, normalize_dom_attr_name};
ghost use Rattle.names.specs.Table.{plain_name, spelled_letter, spelled, front, by_places, places_are, by_mark, told};

use crate::compare::{letters_are, same_bytes, small_letter};
use crate::listed::{Spelling, find_mark, spelling_by};
use crate::runs::{put_run, put_short};
use field::writer::{put_byte, put_bytes};

// No capital, no digit and no sign but `-`, as in most names. Each name of the table has a capital, a digit or a colon, so such a name
// is copied as it stands.
#[tactic(auto, using(crate::proofs::SpellLaws::plain_on, crate::proofs::SpellLaws::plain_off, crate::proofs::SpellLaws::plain_end))]
pub fn is_plain(name: &[u8]) -> bool
    ensures { result ≡ plain_name name.now }
{
    // two loops, which take two tests at most letters: a for loop takes three, and a third more instructions a name (61 for 46)
    let n = name.len();
    let mut i: usize = 0;
    while i < n {
        while name[i] > b'Z' {
            i += 1;
            if i == n {
                return true;
            }
        }
        if name[i] != b'-' {
            return false;
        }
        i += 1;
    }
    true
}

// A capital as its small letter, with the sign in front of it; any other byte as it is.
#[tactic(auto, using(crate::proofs::SpellLaws::letter_none, crate::proofs::SpellLaws::letter_other, crate::proofs::SpellLaws::letter_signed, field::proofs::PutLaws::wrote_is))]
fn put_letter(out: &mut [u8], at: usize, c: u8, sign: Option<u8>) -> usize
    requires { at + 2 < 2 ^ 64 }
    ensures { Wrote out.old at (spelled_letter sign c) out.new result }
{
    match sign {
        Some(s) if c.is_ascii_uppercase() => {
            let a = put_byte(out, at, s);
            put_byte(out, a, small_letter(c))
        }
        _ => put_byte(out, at, small_letter(c)),
    }
}

// With room for a sign before each letter. Most letters are small, and are copied as they stand. Beside the loop of put_spelled, which asks for room
// at each letter: that loop alone takes 127 instructions a name for 100 (a probe of four names), and pages of capitals have none to spare.
#[tactic(auto, using(crate::proofs::SpellLaws::spelled_bound, field::proofs::PutLaws::wrote_none, field::proofs::PutLaws::wrote_length), unfolding(crate::specs::Table::spelled))]
fn put_within(out: &mut [u8], at: usize, name: &[u8], sign: Option<u8>) -> usize
    requires { (at + (length name.now + length name.now) ≤ length out.old) × (at + length (spelled sign name.now) < 2 ^ 63) }
    ensures { Wrote out.old at (spelled sign name.now) out.new result }
{
    let mut a = at;
    for c in name {
        if *c > b'Z' {
            out[a] = *c;
            a += 1;
        } else {
            a = put_letter(out, a, *c, sign);
        }
    }
    a
}

// Room is tested once, where there is plenty.
#[tactic(auto, using(crate::proofs::SpellLaws::spelled_bound, crate::proofs::SpellLaws::spelled_least, field::proofs::PutLaws::wrote_none), unfolding(crate::specs::Table::spelled))]
pub fn put_spelled(out: &mut [u8], at: usize, name: &[u8], sign: Option<u8>) -> usize
    requires { at + length (spelled sign name.now) < 2 ^ 63 }
    ensures { Wrote out.old at (spelled sign name.now) out.new result }
{
    if at + 2 * name.len() <= out.len() {
        return put_within(out, at, name, sign);
    }
    let mut a = at;
    for c in name {
        a = put_letter(out, a, *c, sign);
    }
    a
}

// A letter in small, behind a hyphen.
#[tactic(auto, using(field::proofs::PutLaws::store_two))]
fn put_hyphen(out: &mut [u8], at: usize, c: u8) -> usize
    requires { at + 2 ≤ length out.old }
    ensures { Wrote out.old at (45 ∷ small_letter c ∷ []) out.new result }
{
    out[at] = b'-';
    out[at + 1] = small_letter(c);
    at + 2
}

// The first k letters, and the next one behind a hyphen.
#[tactic(auto, using(field::proofs::PutLaws::wrote_then))]
fn put_front(out: &mut [u8], at: usize, name: &[u8], k: usize) -> usize
    requires { (at + k + 2 ≤ length out.old) × (k < length name.now) × (k ≤ 16) }
    ensures { Wrote out.old at (front k name.now) out.new result }
{
    let a = put_run(out, at, &name[..k]);
    put_hyphen(out, a, name[k])
}

// What lies between the capitals goes in runs.
fn put_runs(out: &mut [u8], at: usize, name: &[u8], first: usize, more: usize) -> usize
    requires { (at + length name.now + 2 ≤ length out.old) × (first + more < length name.now) × (length name.now ≤ first + more + 17) × (first ≤ 16) × (more ≤ 16) }
    ensures { Wrote out.old at (by_places first more name.now) out.new result }
{
    let a = put_front(out, at, name, first);
    let left = &name[first + 1..];
    if more == 0 {
        return put_run(out, a, left);
    }
    let b = put_front(out, a, left, more - 1);
    put_run(out, b, &left[more..])
}

// By the places that a mark says, where there is room.
fn put_hyphenated(out: &mut [u8], at: usize, name: &[u8], mark: u8) -> usize
    requires { (at + length (spelled (Some 45) name.now) < 2 ^ 63) × (places_are (mark / 16) (mark % 16) name.now ≡ true) }
    ensures { Wrote out.old at (spelled (Some 45) name.now) out.new result }
{
    if at + name.len() + 2 <= out.len() {
        put_runs(
            out,
            at,
            name,
            usize::from(mark / 16),
            usize::from(mark % 16),
        )
    } else {
        put_spelled(out, at, name, Some(b'-'))
    }
}

// A name that the table has, as its mark says.
#[tactic(auto, using(field::proofs::PutLaws::wrote_is, crate::proofs::MarkLaws::mark_above, crate::proofs::MarkLaws::told_places), unfolding(crate::specs::Table::spelt))]
pub fn put_marked(out: &mut [u8], at: usize, name: &[u8], mark: u8) -> usize
    requires { (at + length (by_mark (Some mark) name.now) < 2 ^ 63) × (told (Some mark) name.now ≡ true) }
    ensures { Wrote out.old at (by_mark (Some mark) name.now) out.new result }
{
    if 5 < mark {
        return put_hyphenated(out, at, name, mark);
    }
    match spelling_by(mark, name) {
        Spelling::Whole(w) => put_bytes(out, at, w),
        Spelling::Signed(sign) => put_spelled(out, at, name, Some(sign)),
        Spelling::Small => put_spelled(out, at, name, None),
    }
}

// className is asked for by itself: it is the one name of the table that pages are full of. Before it short plain names, which most are, and of
// which the table has none.
#[tactic(auto, using(field::proofs::PutLaws::wrote_is, crate::proofs::NormalizeLaws::normalize_class_name, crate::proofs::NormalizeLaws::normalize_plain))]
pub fn normalize_dom_attr_name(out: &mut [u8], at: usize, name: &[u8]) -> usize
    requires { at + length (normalize_dom_attr_name name.now) < 2 ^ 63 }
    ensures { Wrote out.old at (normalize_dom_attr_name name.now) out.new result }
{
    if name.len() < 7 && is_plain(name) {
        return put_short(out, at, name);
    }
    if same_bytes(name, b"className") {
        return put_bytes(out, at, b"class");
    }
    match find_mark(name) {
        Some(mark) => put_marked(out, at, name, mark),
        None => {
            if is_plain(name) {
                put_short(out, at, name)
            } else {
                put_spelled(out, at, name, None)
            }
        }
    }
}

// Of an identifier. A namespaced name is normalised always, by normalize_namespaced.
#[tactic(auto, unfolding(crate::specs::Names::get_attr_name))]
pub fn get_attr_name(out: &mut [u8], at: usize, name: &[u8], normalize: bool) -> usize
    requires { at + length (get_attr_name (ident name.now) normalize) < 2 ^ 63 }
    ensures { Wrote out.old at (get_attr_name (ident name.now) normalize) out.new result }
{
    if normalize {
        normalize_dom_attr_name(out, at, name)
    } else {
        put_bytes(out, at, name)
    }
}

// The table makes `key` of no other name, nor `ref`: that is what each of the two states, and one function over the name could not.
pub fn normalizes_to_key(name: &[u8]) -> bool
    ensures { result ≡ same (normalize_dom_attr_name name.now) (ascii "key") }
{
    letters_are(name, b"key")
}

pub fn normalizes_to_ref(name: &[u8]) -> bool
    ensures { result ≡ same (normalize_dom_attr_name name.now) (ascii "ref") }
{
    letters_are(name, b"ref")
}

// The one namespaced name that the table has. A namespace and a name go as two, here and above: the definition's constructor has two (AttrName in
// specs/Names.antt), and each function takes one and then the other, so that a struct of both would be opened wherever it comes.
pub fn is_xlink_href(ns: &[u8], name: &[u8]) -> bool
    ensures { result ≡ (same ns.now (ascii "xlink") && same name.now (ascii "href")) }
{
    same_bytes(ns, b"xlink") && same_bytes(name, b"href")
}

#[tactic(auto, using(crate::proofs::NamespacedLaws::namespaced_xlink, crate::proofs::NamespacedLaws::namespaced_length, crate::proofs::CompareLaws::length_small, field::proofs::PutLaws::wrote_is))]
pub fn normalize_namespaced(out: &mut [u8], at: usize, ns: &[u8], name: &[u8]) -> usize
    requires { at + length (normalize_dom_attr_name (ns.now ++ (58 ∷ name.now))) < 2 ^ 63 }
    ensures { Wrote out.old at (normalize_dom_attr_name (ns.now ++ (58 ∷ name.now))) out.new result }
{
    if is_xlink_href(ns, name) {
        return put_bytes(out, at, b"href");
    }
    let a = put_spelled(out, at, ns, None);
    let b = put_byte(out, a, b':');
    put_spelled(out, b, name, None)
}

// Whether ns:name, normalised, is b.
#[tactic(auto, using(crate::proofs::NamespacedLaws::namespaced_xlink, crate::proofs::NamespacedLaws::namespaced_same, crate::proofs::NamespacedLaws::namespaced_short))]
pub fn namespaced_is(ns: &[u8], name: &[u8], b: &[u8]) -> bool
    ensures { result ≡ same (normalize_dom_attr_name (ns.now ++ (58 ∷ name.now))) b.now }
{
    if is_xlink_href(ns, name) {
        return same_bytes(b"href", b);
    }
    let n = ns.len();
    n < b.len() && b[n] == b':' && letters_are(ns, &b[..n]) && letters_are(name, &b[n + 1..])
}
