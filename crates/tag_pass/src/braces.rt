// Braces: of a child, a spread and a value.
ghost use Rattle.std.specs.Prelude.{◌≡◌, false, ◌≤◌, ◌<◌, ◌^◌, length, get_or, Some};
ghost use Rattle.grammar.specs.Signs.{space};
ghost use Rattle.tag_pass.specs.declared.state.Braced.TheVariants.{Child};
ghost use Rattle.tag_pass.specs.declared.state.Mode.TheVariants.{Ended};
ghost use Rattle.tag_pass.specs.States.{Bounded};
ghost use Rattle.tag_pass.specs.Turns.{AttributeEnded, FilledTurn, KnownTurn, BracesTurn, PointTurn, ChildBracesTurn};

use crate::sign::sign_behind;
use crate::state::{Braced, Holder, Mode, Reading, patch};
use field::tags::{ATTRIBUTE, CONTAINER};
use field::writer::put_head;
use read_tag::known::put_known;
use read_tag::source::source_end;

// An attribute has ended at i: its 50 gets its length.
#[inline(always)]
pub fn end_attribute(out: &mut [u8], st: Reading, i: usize) -> Reading
    requires { st.at < 2 ^ 62 }
    ensures { AttributeEnded out.old st i result out.new }
{
    patch(out, st.fifty, ATTRIBUTE, st.at);
    st.in_mode(Mode::InTag, i)
}

// Braces have ended at i: their field, whose head is at b, gets its length.
#[inline(always)]
pub fn end_braces(out: &mut [u8], st: Reading, kind: Braced, b: usize, i: usize) -> Reading
    requires { st.at < 2 ^ 62 }
    ensures { FilledTurn st kind b i out.old (Some result) out.new × (result.mode ≡ Ended → ⊥) }
{
    patch(out, b, kind.tag(), st.at);
    match kind {
        Braced::Value => end_attribute(out, st, i),
        Braced::Spread => st.in_mode(Mode::InTag, i),
        Braced::Child | Braced::SpreadChild => st.in_mode(Mode::InChildren, i),
    }
}

// What stands in braces from j to e.
#[inline(always)]
fn known(
    text: &[u8],
    out: &mut [u8],
    st: Reading,
    kind: Braced,
    j: usize,
    e: usize,
) -> Option<Reading>
    requires { Bounded (length text.now) st j × (j ≤ e) × (e < length text.now) }
    ensures { KnownTurn text.now st kind j e out.old result out.new }
{
    let a = put_head(out, st.at, kind.tag(), 0);
    let held = put_known(text, j, e, out, a)?;
    let d = st.depth + kind.depth() + 1 + held.deep;
    // Not by the function `wrote`, which notes both: as LLVM has it a row of `{}` takes 31.0 instructions a byte for 23.0, components 25.4 for 24.6.
    let w = Reading {
        numbers: st.numbers & held.fits,
        ..st.wrote(held.at, d)
    };
    Some(end_braces(out, w, kind, st.at, e + 1))
}

// What stands in braces at j: no white space, no point and no `}`.
#[inline(always)]
fn expression(text: &[u8], out: &mut [u8], st: Reading, kind: Braced, j: usize) -> Option<Reading>
    requires { Bounded (length text.now) st j × (j < length text.now) × (space (get_or text.now j 0) ≡ false) × (get_or text.now j 0 ≡ 125 → ⊥) × (get_or text.now j 0 ≡ 46 → ⊥) }
    ensures { BracesTurn text.now st kind j out.old result out.new }
{
    match text[j] {
        b'<' => {
            let a = put_head(out, st.at, kind.tag(), 0);
            let d = st.depth + kind.depth();
            let w = st.wrote(a, d);
            Some(w.in_mode(Mode::Inner(Holder::Braces(kind)), j + 1))
        }
        b'[' => None,
        _ => {
            let e = source_end(text, j)?;
            known(text, out, st, kind, j, e)
        }
    }
}

// What stands in braces that may not be empty.
#[inline(always)]
pub fn braces(text: &[u8], out: &mut [u8], st: Reading, kind: Braced, i: usize) -> Option<Reading>
    requires { Bounded (length text.now) st i × (kind ≡ Child → ⊥) }
    ensures { BracesTurn text.now st kind i out.old result out.new }
{
    let sign = sign_behind(text, i)?;
    match sign.byte {
        b'}' | b'.' => None,
        _ => expression(text, out, st, kind, sign.place),
    }
}

// Two points more, and what they spread.
#[inline(always)]
pub fn points(text: &[u8], out: &mut [u8], st: Reading, kind: Braced, i: usize) -> Option<Reading>
    requires { Bounded (length text.now) st i × (kind ≡ Child → ⊥) }
    ensures { PointTurn text.now st kind i out.old result out.new }
{
    if !text[i..].starts_with(b"..") {
        return None;
    }
    braces(text, out, st, kind, i + 2)
}

// Braces among children.
pub fn child_braces(text: &[u8], out: &mut [u8], st: Reading, i: usize) -> Option<Reading>
    requires { Bounded (length text.now) st i }
    ensures { ChildBracesTurn text.now st i out.old result out.new }
{
    let sign = sign_behind(text, i)?;
    match sign.byte {
        b'}' => {
            let a = put_head(out, st.at, CONTAINER, 0);
            let w = st.wrote(a, st.depth + 1);
            Some(w.in_mode(Mode::InChildren, sign.place + 1))
        }
        b'.' => points(text, out, st, Braced::SpreadChild, sign.place + 1),
        _ => expression(text, out, st, Braced::Child, sign.place),
    }
}
