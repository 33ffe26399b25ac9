// A page out written anew with the numbers of its calls in another width (02, A7): one loop with a stack of its own, since fields nest 21,845
// deep. The length of a field is known when its body ends, so a head is written behind its body. Whether the bytes are a page out is not asked.
#![tactic(auto)]

ghost use Rattle.std.specs.Prelude.{◌≡◌, ◌⊎◌, ◌+◌, ◌-◌, ◌<◌, ◌≤◌, ◌^◌, min, length};
ghost use Rattle.field.specs.Row.{bytes, field_bytes};
ghost use Rattle.field.specs.Put.{Wrote};
ghost use Rattle.outs.specs.Held.{read_out};
ghost use Rattle.outs.specs.Renumber.{renumbered, Renumbers};
ghost use Rattle.renumber.specs.Step.{numbered};

use field::reader::read_header;
use field::tags::JSX_TEMPLATE;
use field::writer::{put_bytes, put_field, put_four, put_head, put_two};
use field::{HEAD, MAX_BODY, OLD_NUMBER_WIDTH};
use loops::{DEPTH, Stack, waits_until};
use outs::order::front_of;
use page::number::number_in;

// A body that waits for a field in it to end: where that field's head is to be written, counted from the head of the outermost field that is
// open, with its tag, and how many bytes of the body come behind it.
#[derive(Clone, Copy)]
pub struct Frame {
    pub head: u32,
    pub rest: u16,
    pub tag: u8,
}

// The largest number that two bytes say.
pub const LARGEST: usize = 65535;

// How many bytes there are to write, whether some body of them is over 65,535 bytes, and whether some number is over 65,535. Flags and no Result,
// since what is written and counted is promised whatever they say.
#[derive(Clone, Copy)]
pub struct Renumbered {
    pub bytes: usize,
    pub long: bool,
    pub wide: bool,
}

fn put_number(out: &mut [u8], at: usize, tag: u8, width: usize, number: usize) -> usize
    requires { (at + length (numbered width tag number) < 2 ^ 64) × ((width ≡ 2) ⊎ (width ≡ 4)) }
    ensures { Wrote out.old at (numbered width tag number) out.new result }
{
    match (tag, width) {
        (JSX_TEMPLATE, OLD_NUMBER_WIDTH) => put_two(out, at, number),
        (JSX_TEMPLATE, _) => put_four(out, at, number),
        _ => at,
    }
}

// Both calls are from 2 to 4 and from 4 to 2. Widths are numbers, and no Kinds, since any up to 4 may be read. The last premise says that there
// are not too many bytes to count.
pub fn renumber(s: &[u8], from: usize, to: usize, out: &mut [u8]) -> Renumbered
    requires { (from ≤ 4) × ((to ≡ 2) ⊎ (to ≡ 4)) × (length (bytes (renumbered to (read_out from s.now))) < 2 ^ 64) }
    ensures { Renumbers to (read_out from s.now) out.old out.new result.bytes result.long result.wide }
{
    let mut stack: Stack<Frame, DEPTH> = Stack::new(Frame {
        head: 0,
        rest: 0,
        tag: 0,
    });
    let mut base: usize = 0;
    let mut at: usize = 0;
    let mut end = s.len();
    let mut n: usize = 0;
    let mut long = false;
    let mut wide = false;
    loop {
        let b = &s[at..end];
        // By its header, since the loop goes by places.
        match read_header(b) {
            None if !b.is_empty() => {
                n = put_bytes(out, n, b);
                at = end;
            }
            None => {
                let Some(f) = stack.pop() else {
                    return Renumbered {
                        bytes: n,
                        long,
                        wide,
                    };
                };
                // From makes no usize of a u32.
                let head = base + f.head as usize;
                let len = n - head - HEAD;
                long |= MAX_BODY < len;
                put_head(out, head, f.tag, len);
                end = waits_until(stack.height, at, f.rest, s.len());
            }
            Some(h) => match front_of(h.tag, from) {
                None => {
                    n = put_field(out, n, h.tag, &b[HEAD..h.end]);
                    at += h.end;
                }
                Some(front) => {
                    let start = HEAD + front.min(h.end - HEAD);
                    // Of four bytes at the most; From makes no usize of a u64.
                    let number = number_in(&b[HEAD..start]) as usize;
                    if stack.height == 0 {
                        base = n;
                    }
                    // Both are cut: of an outermost field fewer than 2^32 bytes are written, and the outermost row alone may be longer than 65,535,
                    // and of it the end is known (waits_until). try_from has an error, which never comes.
                    stack.push(Frame {
                        head: (n - base) as u32,
                        rest: ((end - at - h.end) % 65536) as u16,
                        tag: h.tag,
                    });
                    n = put_number(out, n + HEAD, h.tag, to, number);
                    wide |= LARGEST < number;
                    end = at + h.end;
                    at += start;
                }
            },
        }
    }
}
