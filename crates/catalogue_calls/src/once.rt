// Whether the numbers of a page are 1 up to a count, each once. They are marked bit by bit on the stack, a window of them at a time: a page of a few
// forms takes one word and one walk over its numbers, and the largest page six walks with 32 KB.
ghost use Rattle.std.specs.Prelude.{◌≡◌, ◌*◌, ◌<◌, ◌≤◌, length};
ghost use Rattle.catalogue.specs.Judged.{each_once};
ghost use Rattle.catalogue_calls.specs.Once.{lowered_by, Marks, Window};

use crate::numbers::Numbers;

// Marks a place, unless it is marked.
fn mark(words: &mut [u64], i: usize) -> bool
    requires { i < 64 * length words.old }
    ensures { Marks words.old i result words.new }
{
    let word = words[i / 64];
    if (word >> (i % 64)) & 1 == 1 {
        return false;
    }
    words[i / 64] = word | (1 << (i % 64));
    true
}

// One walk: whether there are as many numbers as the count, all from 1 to the count, and none of the 64 * W behind low stands twice. It is not merged
// into its caller: so the large window stands in the frame of no small page.
#[inline(never)]
fn is_clear<N: Numbers, const W: usize>(s: &[u8], count: usize, before: u32, low: usize) -> bool
    requires { W ≤ 4096 }
    ensures { Window count low W (lowered_by before (N.numbers s.now)) result }
{
    let mut words = [0u64; W];
    let mut left = count;
    let mut rest = s;
    // by Numbers::next, which has the bytes behind: one walk for records and calls
    while let Some((raised, behind)) = N::next(rest) {
        let number = raised.wrapping_sub(before) as usize;
        if left == 0 || number == 0 || number > count {
            return false;
        }
        if number > low && number - low <= 64 * W && !mark(&mut words, number - low - 1) {
            return false;
        }
        left -= 1;
        rest = behind;
    }
    left == 0
}

// Window by window, the last numbers first. As many numbers as the count, all from 1 to the count and none of them twice, are each once.
fn in_windows<N: Numbers, const W: usize>(s: &[u8], count: usize, before: u32) -> bool
    requires { (0 < W) × (W ≤ 4096) }
    ensures { result ≡ each_once count (lowered_by before (N.numbers s.now)) }
{
    let mut above = count;
    loop {
        let low = above.saturating_sub(64 * W);
        if !is_clear::<N, W>(s, count, before, low) {
            return false;
        }
        if low == 0 {
            return true;
        }
        above = low;
    }
}

// A window is cleared before it is used, so it is only as large as the count needs.
pub fn each_once<N: Numbers>(s: &[u8], count: usize, before: u32) -> bool
    ensures { result ≡ each_once count (lowered_by before (N.numbers s.now)) }
{
    match count {
        0..=64 => in_windows::<N, 1>(s, count, before),
        65..=4096 => in_windows::<N, 64>(s, count, before),
        _ => in_windows::<N, 4096>(s, count, before),
    }
}
