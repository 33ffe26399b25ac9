// Where the pass stands. Behind a mode stands a state of the grammar's reader (specs/States.antt).
ghost use Rattle.std.specs.Prelude.{◌≡◌, true, ◌<◌, ◌^◌, leb};
ghost use Rattle.tag_pass.specs.States.{goes_on};
ghost use Rattle.tag_pass.specs.Turns.{at_mode, at_more, kind_code, kind_depth, inner_depth, Patched};

use field::tags::{CONTAINER, SPREAD, SPREAD_CHILD};
use field::writer::put_head;
use page::MAX_DEPTH;

// What is in braces.
#[derive(Clone, Copy, Debug, PartialEq, Eq)]
pub enum Braced {
    // a child of a tag, without three points and with them
    Child,
    SpreadChild,
    // a spread in a tag
    Spread,
    // the value of an attribute
    Value,
}

// What an inner tag stands in.
#[derive(Clone, Copy, Debug, PartialEq, Eq)]
pub enum Holder {
    // a tag, as its child
    Children,
    // an attribute, as its value
    Value,
    Braces(Braced),
}

// One enum, also of a tag's end, since a turn may end a tag and go on in the one around it. That there is more to read the loop alone asks, and hands on
// to its turn.
#[derive(Clone, Copy, Debug, PartialEq, Eq)]
pub enum Mode {
    // in a tag, behind its name or an attribute
    InTag,
    // among the children of a tag
    InChildren,
    // behind the `<` of an inner tag
    Inner(Holder),
    // a tag has ended
    Ended,
    // the outermost tag has ended, and the text with it
    Done,
}

// Places are numbers, and no slices of what is left: frames keep them in four bytes, and names are compared where they stand. What bounds a state
// (specs/States.antt's Bounded) is no invariant of this type: it speaks of the text and of a place that is not yet the state's, and a type with an
// invariant has no `..st`, by which each turn says what it changes.
#[derive(Clone, Copy)]
pub struct Reading {
    // in the text
    pub place: usize,
    // in what is written
    pub at: usize,
    // tags that wait on the stack
    pub height: usize,
    // the tag: where its head is written, where its name stands in the text (a fragment has none), how deep it is
    pub head: usize,
    pub name: Option<usize>,
    pub depth: usize,
    // the head of the attribute that is read, or was last
    pub fifty: usize,
    // closing names agree, numbers are in range, nothing is too deep: three, as the definition has them (specs/Worlds.antt), and each is noted by an `&`.
    // By the gravest of what fails each would be an `if` under a `max`, and each clause of a turn would say which of two is graver; `check` orders them once
    pub names: bool,
    pub numbers: bool,
    pub shallow: bool,
    pub mode: Mode,
}

impl Braced {
    // The tag of their field.
    #[tactic(auto, unfolding(crate::specs::Turns::kind_code))]
    pub fn tag(self) -> u8
        ensures { result ≡ kind_code self }
    {
        match self {
            Braced::SpreadChild => SPREAD_CHILD,
            Braced::Spread => SPREAD,
            Braced::Child | Braced::Value => CONTAINER,
        }
    }

    // How much deeper than the tag their field is.
    #[tactic(auto, unfolding(crate::specs::Turns::kind_depth))]
    pub fn depth(self) -> usize
        ensures { result ≡ kind_depth self }
    {
        match self {
            Braced::Value => 2,
            Braced::Child | Braced::SpreadChild | Braced::Spread => 1,
        }
    }
}

impl Holder {
    // How much deeper than the tag an inner one is.
    #[tactic(auto, using(crate::proofs::FrameLaws::kind_depth_small), unfolding(crate::specs::Turns::inner_depth))]
    pub fn depth(self) -> usize
        ensures { result ≡ inner_depth self }
    {
        match self {
            Holder::Children => 1,
            Holder::Value => 2,
            Holder::Braces(braced) => braced.depth() + 1,
        }
    }
}

impl Mode {
    // There is more to read of a tag.
    pub fn goes_on(self) -> bool
        ensures { result ≡ goes_on self }
    {
        matches!(self, Mode::InTag | Mode::InChildren | Mode::Inner(_))
    }
}

// Something more was written; whether its number is in range, and whether it is not too deep. A flag that is down stays down.
pub fn wrote(st: Reading, at: usize, fits: bool, shallow: bool) -> Reading
    ensures { result ≡ at_more st at fits shallow }
{
    Reading {
        at,
        numbers: st.numbers & fits,
        shallow: st.shallow & shallow,
        ..st
    }
}

impl Reading {
    pub fn in_mode(self, mode: Mode, i: usize) -> Reading
        ensures { result ≡ at_mode self mode i }
    {
        Reading {
            mode,
            place: i,
            ..self
        }
    }

    // The same of what holds no number, at that depth.
    pub fn wrote(self, at: usize, depth: usize) -> Reading
        ensures { result ≡ at_more self at true (leb depth 48) }
    {
        wrote(self, at, true, depth <= MAX_DEPTH)
    }
}

// A field whose head stands at p has ended: it gets its length.
#[inline(always)]
pub fn patch(out: &mut [u8], p: usize, tag: u8, at: usize)
    requires { at < 2 ^ 62 }
    ensures { Patched out.old p tag at out.new }
{
    if let Some(len) = at.checked_sub(p.saturating_add(3)) {
        put_head(out, p, tag, len);
    }
}
