// Runs of bytes of one class: one is looked for byte by byte, or a block of N bytes at a time, which LLVM does in a few instructions.
ghost use Rattle.std.specs.Prelude.{◌≡◌, ℕ, Bool, ◌+◌, ◌<◌, ◌≤◌, length, drop};
ghost use Rattle.text.specs.Runs.{run, all};

// A class of bytes, by its test; it may hold a value, as a quote. No branch in it where it is looked for by blocks: the tests of a block
// then go side by side.
pub trait Class {
    ghost holds: { Self → ℕ → Bool };

    fn has(&self, b: u8) -> bool
        ensures { result ≡ holds self.now b };
}

// Where the run from a place on ends.
pub fn run_end<C: Class>(class: &C, s: &[u8], at: usize) -> usize
    requires { at ≤ length s.now }
    ensures place { result ≡ at + run (C.holds class.now) (drop at s.now) }
    ensures within { (at ≤ result) × (result ≤ length s.now) }
{
    // A `for` over at..s.len() has two ways out: it costs 5 % more on tags, up to 24 % on short ones, where 3 % is the bar of a set. By
    // position the proof does not close: what it says of a closure over a class is out of reach there.
    let mut i = at;
    while i < s.len() {
        if !class.has(s[i]) {
            return i;
        }
        i += 1;
    }
    i
}

// All of a block is tested, whatever its first bytes are: the tests then go side by side. By `all`, which stops at one of another class, a
// run of 100 bytes takes 827 instructions for 253 (a probe of long_run_end alone, by rustc).
fn is_all<C: Class>(class: &C, block: &[u8]) -> bool
    ensures { result ≡ all (C.holds class.now) block.now }
{
    let mut is = true;
    for b in block {
        is &= class.has(*b);
    }
    is
}

// The same by blocks of N bytes, and byte by byte where one of a block is of another class. By split_at_checked, with what is left as a
// slice, put_escaped took 518 instructions for 276 on 100 bytes of text.
pub fn long_run_end<C: Class, const N: usize>(class: &C, s: &[u8], at: usize) -> usize
    requires { (0 < N) × (at ≤ length s.now) }
    ensures place { result ≡ at + run (C.holds class.now) (drop at s.now) }
    ensures within { (at ≤ result) × (result ≤ length s.now) }
{
    let n = s.len();
    let mut i = at;
    while N <= n - i {
        if !is_all(class, &s[i..i + N]) {
            return run_end(class, s, i);
        }
        i += N;
    }
    // fewer than N are left: the last N, some of them anew
    if N <= n && is_all(class, &s[n - N..]) {
        return n;
    }
    run_end(class, s, i)
}

// Whether all of s is a run. As long_run_end(s, 0) == s.len() is_escaped took 187 instructions for 48 where the fourteenth byte is of another
// class: the place, which nothing asks for here, is looked for byte by byte.
pub fn is_run<C: Class, const N: usize>(class: &C, s: &[u8]) -> bool
    requires { 0 < N }
    ensures { result ≡ all (C.holds class.now) s.now }
{
    if s.len() < N {
        return s.iter().all(|b| class.has(*b));
    }
    let (blocks, _) = s.as_chunks::<N>();
    for block in blocks {
        if !is_all(class, block) {
            return false;
        }
    }
    // fewer than N are left: the last N, some of them anew
    is_all(class, &s[s.len() - N..])
}
