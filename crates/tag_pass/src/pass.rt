// The loop over the text, and what it does with the stack.
ghost use Rattle.std.specs.Prelude.{◌≡◌, true, ◌*◌, ◌≤◌, ◌<◌, length};
ghost use Rattle.tag_pass.specs.declared.state.Mode.TheVariants.{InTag, InChildren, Ended};
ghost use Rattle.tag_pass.specs.States.{goes_on, Bounded, Unended, Lent, Passed};
ghost use Rattle.tag_pass.specs.Turns.{InnerTurn, EndedTurn, BehindTurn, ModeTurn, StepTurn, PassTurn, OuterTurn, NamePlace};

use crate::braces::{end_attribute, end_braces};
use crate::children::step_children;
use crate::frames::{IDLE, Waiting, push, resume};
use crate::sign::sign_behind;
use crate::state::{Braced, Holder, Mode, Reading};
use crate::tags::{closing, open_fragment, open_named, step_tag};
use read_tag::signs::is_letter;

// Behind the `<` of a tag in another one, whose numbers are still those of the pass.
fn open_inner(
    text: &[u8],
    out: &mut [u8],
    frames: &mut [Waiting],
    st: Reading,
    holder: Holder,
) -> Option<Reading>
    requires { Bounded (length text.now) st st.place × NamePlace text.now st.name × (st.height < length frames.old) × (st.depth ≤ 65550) × (st.height ≤ 65536) }
    ensures { InnerTurn text.now frames.old st holder out.old result frames.new out.new }
{
    let sign = sign_behind(text, st.place)?;
    match sign.byte {
        c if is_letter(c) => {
            let w = push(frames, st, holder);
            open_named(text, out, w, sign.place)
        }
        b'>' => {
            let w = push(frames, st, holder);
            Some(open_fragment(out, w, sign.place + 1))
        }
        b'/' if holder == Holder::Children => closing(text, out, st, sign.place + 1),
        _ => None,
    }
}

// Behind a tag in braces, whose head stands at p.
fn behind(text: &[u8], out: &mut [u8], st: Reading, kind: Braced, p: usize) -> Option<Reading>
    requires { Bounded (length text.now) st st.place }
    ensures { BehindTurn text.now st kind p out.old result out.new × Unended result }
{
    let sign = sign_behind(text, st.place)?;
    match sign.byte {
        b'}' => {
            let head = p.saturating_sub(3);
            Some(end_braces(out, st, kind, head, sign.place + 1))
        }
        _ => None,
    }
}

// A tag has ended: what it stands in goes on.
fn ended(text: &[u8], out: &mut [u8], frames: &[Waiting], st: Reading) -> Option<Reading>
    requires { Bounded (length text.now) st st.place × (st.height ≤ length frames.now) }
    ensures { EndedTurn text.now frames.now st out.old result out.new × Unended result }
{
    let Some(frame) = frames[..st.height].last() else {
        if st.place < text.len() {
            return None;
        }
        return Some(st.in_mode(Mode::Done, st.place));
    };
    let w = resume(st, *frame);
    match frame.holder {
        Holder::Children => Some(w.in_mode(Mode::InChildren, w.place)),
        Holder::Value => Some(end_attribute(out, w, w.place)),
        Holder::Braces(kind) => behind(text, out, w, kind, st.head),
    }
}

// In a tag, where the pass stands in one.
fn tag_turn(text: &[u8], out: &mut [u8], st: Reading) -> Option<Reading>
    requires { Bounded (length text.now) st st.place }
    ensures { ModeTurn InTag text.now st out.old result out.new }
{
    match st.mode {
        Mode::InTag => step_tag(text, out, st),
        _ => Some(st),
    }
}

// Among children, where it stands there.
fn children_turn(text: &[u8], out: &mut [u8], st: Reading) -> Option<Reading>
    requires { st.mode ≡ InChildren → Bounded (length text.now) st st.place }
    ensures { ModeTurn InChildren text.now st out.old result out.new }
{
    match st.mode {
        Mode::InChildren => step_children(text, out, st),
        _ => Some(st),
    }
}

// What leaves the stack as it is; then the inner tag, where the pass stands before one. One after the other, and neither is worth a turn of its own: by
// one match of the mode dense tags take 40.0 instructions a byte for 38.8.
fn opened(text: &[u8], out: &mut [u8], frames: &mut [Waiting], st: Reading) -> Option<Reading>
    requires { Lent text.now frames.old st out.old × (goes_on st.mode ≡ true) }
    ensures { StepTurn text.now frames.old st out.old result frames.new out.new }
{
    let v = tag_turn(text, out, st)?;
    let w = children_turn(text, out, v)?;
    match w.mode {
        Mode::Inner(holder) => open_inner(text, out, frames, w, holder),
        _ => Some(w),
    }
}

fn turn(text: &[u8], out: &mut [u8], frames: &mut [Waiting], st: Reading) -> Option<Reading>
    requires { Lent text.now frames.old st out.old × (goes_on st.mode ≡ true) }
    ensures { StepTurn text.now frames.old st out.old result frames.new out.new × Unended result }
{
    let w = opened(text, out, frames, st)?;
    match w.mode {
        Mode::Ended => ended(text, out, frames, w),
        _ => Some(w),
    }
}

fn pass(text: &[u8], out: &mut [u8], frames: &mut [Waiting], first: Reading) -> Option<Reading>
    requires { Lent text.now frames.old first out.old × (first.mode ≡ Ended → ⊥) }
    ensures { PassTurn text.now frames.old first out.old result out.new }
{
    let mut st = first;
    while st.mode.goes_on() {
        st = turn(text, out, frames, st)?;
    }
    Some(st)
}

const START: Reading = Reading {
    mode: Mode::InTag,
    place: 0,
    at: 0,
    height: 0,
    head: 0,
    name: None,
    depth: 3,
    fifty: 0,
    names: true,
    numbers: true,
    shallow: true,
};

// The outermost tag, up to its name. Not one with open_inner: there a tag is put on the stack, and only in the two arms in which another opens.
fn open_outer(text: &[u8], out: &mut [u8]) -> Option<Reading>
    requires { length text.now ≤ 32768 }
    ensures { OuterTurn text.now out.old result out.new × Unended result }
{
    if *text.first()? != b'<' {
        return None;
    }
    let sign = sign_behind(text, 1)?;
    match sign.byte {
        c if is_letter(c) => open_named(text, out, START, sign.place),
        b'>' => Some(open_fragment(out, START, sign.place + 1)),
        _ => None,
    }
}

// With a stack that is long enough.
fn pass_with(text: &[u8], out: &mut [u8], frames: &mut [Waiting]) -> Option<Reading>
    requires { (length text.now ≤ 32768) × (length text.now ≤ 2 * length frames.old) }
    ensures { Passed text.now out.old result out.new }
{
    let st = open_outer(text, out)?;
    pass(text, out, frames, st)
}

// With a stack of its own: a tag waits for two bytes of text. Out of line, or each text pays for the largest.
#[inline(never)]
fn pass_in<const FRAMES: usize>(text: &[u8], out: &mut [u8]) -> Option<Reading>
    requires { (length text.now ≤ 32768) × (length text.now ≤ 2 * FRAMES) × (FRAMES ≤ 16384) }
    ensures { Passed text.now out.old result out.new }
{
    let mut frames = [IDLE; FRAMES];
    pass_with(text, out, &mut frames)
}

// `<a/>`: no tag is shorter (grammar, Shortest.antt). A text of one to three bytes is told by that alone, and need not have a stack cleared for it.
const SHORTEST: usize = 4;

// A stack is cleared before it is used: a text of over 64 bytes pays for at most eight times what it can need. None: no reading. That the text is short
// is asked of four functions here, and is no type's invariant: each reader below takes a slice, and would open the type again.
#[tactic(auto, using(crate::proofs::PassLaws::too_short))]
pub fn read(text: &[u8], out: &mut [u8]) -> Option<Reading>
    requires { length text.now ≤ 32768 }
    ensures { Passed text.now out.old result out.new }
{
    if text.len() < SHORTEST {
        return None;
    }
    match text.len() {
        0..=64 => pass_in::<32>(text, out),
        65..=512 => pass_in::<256>(text, out),
        513..=1024 => pass_in::<512>(text, out),
        1025..=2048 => pass_in::<1024>(text, out),
        2049..=8192 => pass_in::<4096>(text, out),
        _ => pass_in::<16384>(text, out),
    }
}
