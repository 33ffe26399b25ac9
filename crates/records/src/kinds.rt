// The kinds of a template's gaps, found in its static strings as they stand in the buffer: 1 inside an opening tag, 2 elsewhere.
ghost use Rattle.std.specs.Prelude.{◌≡◌, ◌+◌, ◌≤◌, T, length, drop};
ghost use Rattle.field.specs.Put.{put};
ghost use Rattle.spec.specs.Words.{free};
ghost use Rattle.records.specs.Kinds.{sign_of, sign_after, kind_at, kinds_at};

use field::reader::Fields;

// Where the text so far leaves us.
#[derive(Clone, Copy)]
enum Sign {
    // in no opening tag
    Outside,
    // right behind the `<` of one
    Opened,
    // further in
    Inside,
}

// From the back, since the last sign decides and is mostly near.
fn sign_after(q: Sign, s: &[u8]) -> Sign
    ensures { sign_of result ≡ sign_after (sign_of q) s.now }
{
    match s.iter().rposition(|b| matches!(b, b'<' | b'>')) {
        Some(last) if s[last] == b'<' => behind_sign(Sign::Opened, &s[last + 1..]),
        Some(_) => Sign::Outside,
        None => behind_sign(q, s),
    }
}

// The same of a text in which no sign stands: only what follows a `<` matters.
fn behind_sign(q: Sign, s: &[u8]) -> Sign
    requires { T (free s.now) }
    ensures { sign_of result ≡ sign_after (sign_of q) s.now }
{
    match q {
        Sign::Opened => match s {
            [] => Sign::Opened,
            [b'/', ..] => Sign::Outside,
            [_, ..] => Sign::Inside,
        },
        Sign::Outside | Sign::Inside => q,
    }
}

// The byte that A6 (02) has for it.
fn kind_at(q: Sign) -> u8
    ensures { result ≡ kind_at (sign_of q) }
{
    match q {
        Sign::Outside => 2,
        Sign::Opened | Sign::Inside => 1,
    }
}

// For each gap the kind that the strings leave, which stand one behind the other. Where they run out, the sign stays.
fn fill_kinds(kinds: &mut [u8], strings: &[u8])
    ensures { kinds.new ≡ kinds_at (length kinds.old) 0 strings.now }
{
    let mut rest = Fields(strings);
    let mut q = Sign::Outside;
    for kind in kinds.iter_mut() {
        if let Some(string) = rest.next() {
            q = sign_after(q, string.body);
        }
        *kind = kind_at(q);
    }
}

// The kinds from at on; the strings stand from there on, where the kinds do not reach.
pub fn put_kinds(out: &mut [u8], at: usize, from: usize, gaps: usize)
    requires { (at + gaps ≤ from) × (from ≤ length out.old) }
    ensures { out.new ≡ put out.old at (kinds_at gaps 0 (drop from out.old)) }
{
    let (front, strings) = out.split_at_mut(from);
    fill_kinds(&mut front[at..at + gaps], strings);
}
