// Whether no name stands twice in a catalogue. A batch of names is sorted on the stack and each name behind it is looked up there; then comes the next
// batch. A catalogue of 16 MB has at most 1,198,372 pages, which take 19 batches.
ghost use Rattle.std.specs.Prelude.{◌≡◌, ◌<◌, ◌≤◌, length};
ghost use Rattle.std.specs.List.Sorted.{IsNonDecreasing};
ghost use Rattle.catalogue_calls.specs.Standing.{all_differ, names_in};
ghost use Rattle.catalogue_calls.specs.Differ.{none_among, Taken};

use crate::standing::{Pages, page_at};

// The names from the front on, as far as there are some and the batch has room: how many, and the bytes behind.
fn take_names<'a>(s: &'a [u8], batch: &mut [u32]) -> (usize, &'a [u8])
    ensures { Taken s.now (length batch.old) batch.new result.0 result.1.now }
{
    // by page_at and a count, since both are answered: how many names, and the bytes behind
    let mut rest = s;
    let mut count = 0;
    while count < batch.len() {
        let Some(p) = page_at(rest) else {
            break;
        };
        batch[count] = p.name;
        count += 1;
        rest = p.behind;
    }
    (count, rest)
}

// Among sorted names two that are the same stand side by side.
fn neighbours_differ(names: &[u32]) -> bool
    requires { IsNonDecreasing names.now }
    ensures { result ≡ all_differ names.now }
{
    names.windows(2).all(|w| w[0] < w[1])
}

fn none_stands_in(s: &[u8], batch: &[u32]) -> bool
    requires { IsNonDecreasing batch.now }
    ensures { result ≡ none_among (names_in s.now) batch.now }
{
    for p in Pages(s) {
        if batch.binary_search(&p.name).is_ok() {
            return false;
        }
    }
    true
}

// Not inline, so that each size of batch has a stack frame of its own.
#[inline(never)]
fn in_batches<const N: usize>(s: &[u8]) -> bool
    requires { (0 < N) × (N ≤ 65536) }
    ensures { result ≡ all_differ (names_in s.now) }
{
    let mut batch = [0u32; N];
    let mut rest = s;
    loop {
        let (count, behind) = take_names(rest, &mut batch);
        if count == 0 {
            return true;
        }
        let names = &mut batch[..count];
        names.sort_unstable();
        if !neighbours_differ(names) || !none_stands_in(behind, names) {
            return false;
        }
        rest = behind;
    }
}

// The batch goes by the size of the catalogue: it is cleared before it is used.
pub fn names_differ(s: &[u8]) -> bool
    ensures { result ≡ all_differ (names_in s.now) }
{
    match s.len() {
        0..=0xFFF => in_batches::<64>(s),
        0x1000..=0xF_FFFF => in_batches::<4096>(s),
        _ => in_batches::<65536>(s),
    }
}
