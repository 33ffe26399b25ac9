// Short runs of bytes, written by two blocks that may overlap: at most sixteen bytes take two loads and two stores, and no turn of a loop.
ghost use Rattle.std.specs.Prelude.{◌≡◌, ◌+◌, ◌≤◌, ◌<◌, ◌^◌, length};
ghost use Rattle.field.specs.Put.{Wrote};

use field::writer::{copy_ends, put_bytes};

fn copy_run(to: &mut [u8], from: &[u8])
    requires { (length to.old ≡ length from.now) × (length from.now ≤ 16) }
    ensures { to.new ≡ from.now }
{
    let n = from.len();
    if 8 <= n {
        copy_ends::<8>(to, from);
    } else if 4 <= n {
        copy_ends::<4>(to, from);
    } else if 2 <= n {
        copy_ends::<2>(to, from);
    } else if n == 1 {
        to[0] = from[0];
    }
}

// Where there is room.
pub fn put_run(out: &mut [u8], at: usize, s: &[u8]) -> usize
    requires { (at + length s.now ≤ length out.old) × (length s.now ≤ 16) }
    ensures { Wrote out.old at s.now out.new result }
{
    let end = at + s.len();
    copy_run(&mut out[at..end], s);
    end
}

// A run that is mostly short.
pub fn put_short(out: &mut [u8], at: usize, s: &[u8]) -> usize
    requires { at + length s.now < 2 ^ 63 }
    ensures { Wrote out.old at s.now out.new result }
{
    if s.len() <= 16 && at + s.len() <= out.len() {
        put_run(out, at, s)
    } else {
        put_bytes(out, at, s)
    }
}
