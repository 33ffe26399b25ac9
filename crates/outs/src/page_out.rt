// The check of a page out: one loop with a stack of its own, since recursion by nesting would run out of the machine's stack.
ghost use Rattle.std.specs.Prelude.{◌≡◌, ◌≤◌, length};
ghost use Rattle.loops.specs.Until.{HighEnough};
ghost use Rattle.outs.specs.PageOut.{check_page_out};
ghost use Rattle.outs.specs.Step.{Stepped};

use crate::Expect;
use crate::leaf::check_leaf;
use crate::order::{close, front_of, inner_of, is_allowed, left_of};
use field::HEAD;
use field::reader::read_header;
use loops::{DEPTH, Stack, waits_until};
use page::name::check_nothing_after;
use refusal::{Refusal, refuse_unless};

// What stands at the front of what is left of a body: its end, a field that is done with, or one that is to be entered, whose fields go from
// start up to end. After is what may come behind it.
#[derive(Clone, Copy)]
pub enum Front {
    End,
    Leaf {
        end: usize,
        after: Expect,
    },
    Open {
        start: usize,
        end: usize,
        inner: Expect,
        after: Expect,
    },
}

// A body that waits for a field in it to end: how many of its bytes come behind that field, and what may still come in them.
#[derive(Clone, Copy)]
pub struct Frame {
    pub rest: u16,
    pub after: Expect,
}

// By its header: what is answered are places. Inlined, since it has a caller for each size of stack: called, nested expressions take 21 % more.
#[inline(always)]
fn step(b: &[u8], expect: Expect, width: usize) -> Result<Front, Refusal>
    ensures { Stepped width expect b.now result }
{
    let Some(h) = read_header(b) else {
        check_nothing_after(b)?;
        close(expect)?;
        return Ok(Front::End);
    };
    refuse_unless(is_allowed(expect, h.tag), Refusal::Misplaced)?;
    let after = left_of(expect, h.tag);
    match front_of(h.tag, width) {
        Some(front) => {
            refuse_unless(front <= h.end - HEAD, Refusal::Misplaced)?;
            Ok(Front::Open {
                start: HEAD + front,
                end: h.end,
                inner: inner_of(h.tag),
                after,
            })
        }
        None => {
            check_leaf(h.tag, &b[HEAD..h.end])?;
            Ok(Front::Leaf { end: h.end, after })
        }
    }
}

// With a stack that is high enough for so many bytes.
fn check_by<const N: usize>(s: &[u8], width: usize) -> Result<(), Refusal>
    requires { (N ≤ 21846) × HighEnough N (length s.now) }
    ensures { result ≡ check_page_out width s.now }
{
    let mut stack: Stack<Frame, N> = Stack::new(Frame {
        rest: 0,
        after: Expect::Whole,
    });
    let mut at: usize = 0;
    let mut end = s.len();
    let mut expect = Expect::Whole;
    loop {
        match step(&s[at..end], expect, width)? {
            Front::Leaf { end: e, after } => {
                at += e;
                expect = after;
            }
            Front::Open {
                start,
                end: e,
                inner,
                after,
            } => {
                // The outermost row alone may be longer, and of it the end is known: waits_until.
                stack.push(Frame {
                    rest: ((end - at - e) % 65536) as u16,
                    after,
                });
                end = at + e;
                at += start;
                expect = inner;
            }
            Front::End => {
                let Some(f) = stack.pop() else {
                    return Ok(());
                };
                end = waits_until(stack.height, at, f.rest, s.len());
                expect = f.after;
            }
        }
    }
}

// Never inlined, so that a short page out has no large stack in its frame.
#[inline(never)]
fn check_deep(s: &[u8], width: usize) -> Result<(), Refusal>
    ensures { result ≡ check_page_out width s.now }
{
    check_by::<DEPTH>(s, width)
}

#[inline(never)]
fn check_middling(s: &[u8], width: usize) -> Result<(), Refusal>
    requires { length s.now ≤ 3072 }
    ensures { result ≡ check_page_out width s.now }
{
    check_by::<1024>(s, width)
}

// Clearing the deepest stack takes 5,600 instructions, so the stack goes by the bytes: three of them open a field.
pub fn check_page_out(s: &[u8], width: usize) -> Result<(), Refusal>
    ensures { result ≡ check_page_out width s.now }
{
    match s.len() {
        ..=192 => check_by::<64>(s, width),
        ..=3072 => check_middling(s, width),
        _ => check_deep(s, width),
    }
}
