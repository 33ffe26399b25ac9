// Names in a constant table, sorted by length, each with a mark behind it. A table is borrowed and never copied: so it stays in read-only memory, and
// nothing of it is laid on the stack.
ghost use Rattle.std.specs.Prelude.{◌≡◌, ◌<◌, ◌≤◌, length};
ghost use Rattle.std.specs.Int.{w64, from_le_bytes};
ghost use Rattle.field.specs.Bytes.{same};
ghost use Rattle.names.specs.Table.{read_as, fits_in, row_of, HasRow, has_name, mark_in};

use crate::compare::letter;
use field::writer::copy_bytes;

// Whether the table has a name of this length and first letter.
#[tactic(auto, using(crate::proofs::FitsLaws::fits_none, crate::proofs::FitsLaws::fits_long, crate::proofs::FitsLaws::fits_bit))]
pub fn fits(firsts: &[u32], name: &[u8]) -> bool
    ensures { result ≡ fits_in firsts.now name.now }
{
    match (name, firsts.get(name.len())) {
        ([first, ..], Some(bits)) => (bits >> u32::from(first % 32)) % 2 == 1,
        _ => false,
    }
}

// The names of n letters.
#[tactic(auto, unfolding(crate::specs::Table::row_of))]
pub fn row_of<'a>(names: &'a [u8], starts: &[u16], n: usize) -> &'a [u8]
    requires { HasRow (length names.now) starts.now n }
    ensures { result.now ≡ row_of names.now starts.now n }
{
    let a = usize::from(starts[n]);
    let e = usize::from(starts[n + 1]);
    &names[a..e]
}

// Whether the table has the name, as it stands or in small letters.
#[tactic(auto, unfolding(crate::specs::Table::has_name))]
pub fn has_name(names: &[u8], starts: &[u16], name: &[u8], small: bool) -> bool
    requires { HasRow (length names.now) starts.now (length name.now) × (0 < length name.now) }
    ensures { result ≡ has_name names.now starts.now small name.now }
{
    find_in(row_of(names, starts, name.len()), name, small).is_some()
}

// The mark behind the name in the row of its length, if it is there. The loops go over names and letters, and a label ends both: a form
// that is asked for.
pub fn find_in(row: &[u8], name: &[u8], small: bool) -> Option<u8>
    requires { 0 < length name.now }
    ensures { result ≡ mark_in row.now (read_as small name.now) }
{
    let n = name.len();
    let end = row.len();
    let mut mark = None;
    let mut p: usize = 0;
    'names: while p + n < end {
        let mut i: usize = 0;
        while row[p + i] == letter(name[i], small) {
            i += 1;
            if i == n {
                mark = Some(row[p + n]);
                break 'names;
            }
        }
        p += n + 1;
    }
    mark
}

// Eight bytes as a number.
fn word(s: &[u8]) -> u64
    requires { length s.now ≡ 8 }
    ensures { result ≡ from_le_bytes w64 s.now }
{
    let mut bytes = [0u8; 8];
    copy_bytes(&mut bytes, s);
    u64::from_le_bytes(bytes)
}

#[tactic(auto, using(crate::proofs::WordLaws::words_same))]
fn same_word(a: &[u8], b: &[u8]) -> bool
    requires { (length a.now ≡ 8) × (length b.now ≡ 8) }
    ensures { result ≡ same a.now b.now }
{
    word(a) == word(b)
}

// The same of eight letters or more, as they stand. The inner loop takes eight letters a turn, from the end on: names that begin alike are told apart
// by the first turn, and the last turn takes some letters again.
pub fn find_long(row: &[u8], name: &[u8]) -> Option<u8>
    requires { 8 ≤ length name.now }
    ensures { result ≡ mark_in row.now name.now }
{
    let n = name.len();
    let end = row.len();
    let mut mark = None;
    let mut p: usize = 0;
    'names: while p + n < end {
        let mut i: usize = n - 8;
        while same_word(&row[p + i..p + i + 8], &name[i..i + 8]) {
            if i == 0 {
                mark = Some(row[p + n]);
                break 'names;
            }
            i = if i < 8 { 0 } else { i - 8 };
        }
        p += n + 1;
    }
    mark
}
