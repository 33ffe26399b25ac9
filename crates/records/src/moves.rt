// Bytes moved up within a buffer, to make room in front of them.
ghost use Rattle.std.specs.Prelude.{◌≡◌, ◌+◌, ◌-◌, ◌≤◌, ◌<◌, ◌^◌, length, take, drop};
ghost use Rattle.field.specs.Put.{put};

use field::writer::copy_bytes;

// Loops, by blocks where there are many bytes, though the library has copy_from_slice and copy_within: in a probe of 1100 moves of 3 to 1000 bytes
// these took 170,100 instructions, and the library's methods 264,600.

// N bytes from i on. They may move over themselves: a local holds them, and makes one load and one store of it.
fn move_block<const N: usize>(out: &mut [u8], i: usize, n: usize)
    requires { i + N + n ≤ length out.old }
    ensures { out.new ≡ put out.old (i + n) (take N (drop i out.old)) }
{
    let mut block = [0u8; N];
    copy_bytes(&mut block, &out[i..i + N]);
    copy_bytes(&mut out[i + n..i + n + N], &block);
}

// The bytes from p up to end, which fit: from the back, since they may move over themselves.
fn move_bytes(out: &mut [u8], p: usize, end: usize, n: usize)
    requires { (p ≤ end) × (end + n ≤ length out.old) }
    ensures { out.new ≡ put out.old (p + n) (take (end - p) (drop p out.old)) }
{
    for i in (p..end).rev() {
        out[i + n] = out[i];
    }
}

// The same of a few bytes, eight of them at once: the strings of a tag with one gap are some thirteen bytes.
fn move_few(out: &mut [u8], p: usize, end: usize, n: usize)
    requires { (p ≤ end) × (end + n ≤ length out.old) }
    ensures { out.new ≡ put out.old (p + n) (take (end - p) (drop p out.old)) }
{
    if 8 <= end - p {
        let i = end - 8;
        move_block::<8>(out, i, n);
        move_bytes(out, p, i, n);
    } else {
        move_bytes(out, p, end, n);
    }
}

// The same by blocks, and then the first few bytes. A `while`, since behind it i is wanted: there the blocks end.
fn move_run(out: &mut [u8], p: usize, end: usize, n: usize)
    requires { (p ≤ end) × (end + n ≤ length out.old) }
    ensures { out.new ≡ put out.old (p + n) (take (end - p) (drop p out.old)) }
{
    let mut i = end;
    while 16 <= i - p {
        i -= 16;
        move_block::<16>(out, i, n);
    }
    move_few(out, p, i, n);
}

// The bytes from p up to end moved up by n, as far as they fit.
pub fn move_up(out: &mut [u8], p: usize, end: usize, n: usize)
    requires { (p ≤ end) × (end + n < 2 ^ 63) }
    ensures { out.new ≡ put out.old (p + n) (take (end - p) (drop p out.old)) }
{
    let room = out.len();
    if p + n < room {
        move_run(out, p, end.min(room - n), n);
    }
}
