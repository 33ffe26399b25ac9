// Room of a program: an array that lives as long as its caller. Its bytes are zeros, of which the clause says nothing.
ghost use Rattle.std.specs.Prelude.{◌≡◌, length};

// That an array is as long as its type says is proved once, here: the callers need not count it. A clause that says what the bytes are would
// have their checks count it all the same.
pub fn room<const N: usize>() -> [u8; N]
    ensures { N ≡ length result }
{
    [0; N]
}
