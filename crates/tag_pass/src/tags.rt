// Tags: how they open and end.
ghost use Rattle.std.specs.Prelude.{◌≡◌, ◌^◌, ◌<◌, length, Some};
ghost use Rattle.read_tag.specs.Names.{LetterAt, NameAt};
ghost use Rattle.tag_pass.specs.States.{Bounded, Settled};
ghost use Rattle.tag_pass.specs.Turns.{name_code, NamedTurn, FragmentTurn, TagTurn, SlashedTurn, ClosingTurn, TagEnded, NamePlace, ClosingCompared};

use crate::attributes::{attribute, name_depth, spread};
use crate::sign::sign_behind;
use crate::state::{Mode, Reading, patch};
use field::tags::{ELEMENT, FRAGMENT};
use field::writer::put_head;
use read_tag::name::{put_name, same_names, scan_name};
use read_tag::signs::is_letter;

// The tag whose name begins at i.
#[inline(always)]
pub fn open_named(text: &[u8], out: &mut [u8], st: Reading, i: usize) -> Option<Reading>
    requires { Bounded (length text.now) st i × LetterAt text.now i }
    ensures { NamedTurn text.now st i out.old result out.new × Settled result }
{
    let name = scan_name(text, i)?;
    let a = put_head(out, st.at, ELEMENT, 0);
    let b = put_name(text, i, name.tag, name.end, out, a);
    let d = name_depth(name.tag, st.depth + 1);
    let w = st.wrote(b, d);
    Some(Reading {
        head: st.at,
        name: Some(i),
        ..w.in_mode(Mode::InTag, name.end)
    })
}

// A fragment, behind its `>`.
#[inline(always)]
pub fn open_fragment(out: &mut [u8], st: Reading, i: usize) -> Reading
    requires { st.at < 2 ^ 62 }
    ensures { FragmentTurn st i out.old (Some result) out.new × Settled (Some result) }
{
    let a = put_head(out, st.at, FRAGMENT, 0);
    let w = st.wrote(a, st.depth);
    Reading {
        head: st.at,
        name: None,
        ..w.in_mode(Mode::InChildren, i)
    }
}

#[tactic(auto, unfolding(crate::specs::Turns::name_code))]
fn tag_code(name: Option<usize>) -> u8
    ensures { result ≡ name_code name }
{
    match name {
        Some(_) => ELEMENT,
        None => FRAGMENT,
    }
}

// A tag has ended at i.
#[inline(always)]
fn end_tag(out: &mut [u8], st: Reading, same: bool, i: usize) -> Reading
    requires { st.at < 2 ^ 62 }
    ensures { TagEnded out.old st same i result out.new }
{
    patch(out, st.head, tag_code(st.name), st.at);
    Reading {
        names: st.names & same,
        ..st.in_mode(Mode::Ended, i)
    }
}

// Behind the `/` of `/` `>`.
fn slashed(text: &[u8], out: &mut [u8], st: Reading, i: usize) -> Option<Reading>
    requires { Bounded (length text.now) st i }
    ensures { SlashedTurn text.now st i out.old result out.new }
{
    let sign = sign_behind(text, i)?;
    match sign.byte {
        b'>' => Some(end_tag(out, st, true, sign.place + 1)),
        _ => None,
    }
}

fn same_closing(text: &[u8], name: Option<usize>, j: usize) -> bool
    requires { NamePlace text.now name × NameAt text.now j }
    ensures { ClosingCompared text.now name j result }
{
    // Not is_some_and: of its closure a proof learns only what a contract of the closure says, which would be that of same_names again.
    match name {
        Some(p) => same_names(text, p, j),
        None => false,
    }
}

// Behind `<` and `/`.
pub fn closing(text: &[u8], out: &mut [u8], st: Reading, i: usize) -> Option<Reading>
    requires { Bounded (length text.now) st i × NamePlace text.now st.name }
    ensures { ClosingTurn text.now st i out.old result out.new }
{
    let sign = sign_behind(text, i)?;
    match sign.byte {
        b'>' => Some(end_tag(out, st, st.name.is_none(), sign.place + 1)),
        c if is_letter(c) => {
            let name = scan_name(text, sign.place)?;
            if *text.get(name.end)? != b'>' {
                return None;
            }
            let same = same_closing(text, st.name, sign.place);
            Some(end_tag(out, st, same, name.end + 1))
        }
        _ => None,
    }
}

// In a tag, behind its name or an attribute.
pub fn step_tag(text: &[u8], out: &mut [u8], st: Reading) -> Option<Reading>
    requires { Bounded (length text.now) st st.place }
    ensures { TagTurn text.now st st.place out.old result out.new }
{
    let sign = sign_behind(text, st.place)?;
    match sign.byte {
        c if is_letter(c) => attribute(text, out, st, sign.place),
        b'>' => Some(st.in_mode(Mode::InChildren, sign.place + 1)),
        b'/' => slashed(text, out, st, sign.place + 1),
        b'{' => spread(text, out, st, sign.place + 1),
        _ => None,
    }
}
