// Rust's to_string of an unsigned integer, and of one over a power of ten.
ghost use Rattle.std.specs.Prelude.{◌+◌, ◌<◌, ◌≤◌, ◌^◌, length};
ghost use Rattle.field.specs.Put.{Wrote};
ghost use Rattle.text.specs.Decimal.{decimal, pointed, shortest};

use field::writer::put_bytes;

// The digits come last one first, so they are put into a buffer from its end, here and in put_pointed: written front to back by recursion a
// number of 16 digits takes 85 % more. How many there are only the division says: a `for` over the places would need an answer behind it,
// where it never comes.
pub fn put_decimal(out: &mut [u8], at: usize, n: u64) -> usize
    requires { at + length (decimal n) < 2 ^ 63 }
    ensures { Wrote out.old at (decimal n) out.new result }
{
    // twenty digits hold every u64
    let mut buf = [b'0'; 20];
    let mut i = buf.len();
    let mut m = n;
    loop {
        i -= 1;
        buf[i] = b'0' + (m % 10) as u8;
        m /= 10;
        if m == 0 {
            return put_bytes(out, at, &buf[i..]);
        }
    }
}

// n / 10^places with all its places.
fn put_pointed(out: &mut [u8], at: usize, n: u64, places: usize) -> usize
    requires { (places ≤ 15) × (at + length (pointed n places) < 2 ^ 63) }
    ensures { Wrote out.old at (pointed n places) out.new result }
{
    // a point and fifteen digits; the places begin at `first`
    let mut buf = [b'0'; 16];
    let first = buf.len() - places;
    let mut whole = n;
    for i in (first..buf.len()).rev() {
        buf[i] = b'0' + (whole % 10) as u8;
        whole /= 10;
    }
    buf[first - 1] = b'.';
    let a = put_decimal(out, at, whole);
    put_bytes(out, a, &buf[first - 1..])
}

// The same without trailing zeros, and without the point where no place is left.
pub fn put_shortest(out: &mut [u8], at: usize, n: u64, places: usize) -> usize
    requires { (places ≤ 15) × (at + length (shortest n places) < 2 ^ 63) }
    ensures { Wrote out.old at (shortest n places) out.new result }
{
    let mut m = n;
    for left in (1..=places).rev() {
        if m % 10 != 0 {
            return put_pointed(out, at, m, left);
        }
        m /= 10;
    }
    put_decimal(out, at, m)
}
