// What each house has used of a catalogue, and what the houses are sure of (document 02, A14). Sums are taken in 64 bits: guarantees together may go
// beyond 32.
ghost use Rattle.std.specs.Prelude.{◌≡◌, ◌-◌, length, get_or};
ghost use Rattle.catalogue.specs.Shares as C;
ghost use Rattle.catalogue.specs.Shares.{total, but};
ghost use Rattle.catalogue_calls.specs.Answer.{shares_of};
ghost use Rattle.catalogue_calls.specs.Houses.{UsedIn, unused_by};

use crate::standing::{PARTS, Pages};

const HOUSES: usize = 16;

// At the number of each house the bytes of its pages; at 0 none.
pub fn used_in(s: &[u8]) -> [usize; 17]
    ensures { UsedIn s.now result }
{
    let mut used = [0; 17];
    for p in Pages(s) {
        used[p.house as usize] += PARTS + p.templates.len() + p.page.len();
    }
    used
}

// No house is sure of more than it may have, and there is room for what they are all sure of.
pub fn shares_right(shares: &[u32], length: usize) -> bool
    ensures { result ≡ C.shares_right length (shares_of shares.now) }
{
    if shares.len() != 2 * HOUSES {
        return false;
    }
    let mut sum = 0u64;
    for h in 1..=HOUSES {
        let guarantee = shares[2 * h - 2];
        let most = shares[2 * h - 1];
        if guarantee > most {
            return false;
        }
        sum += guarantee as u64;
    }
    sum <= length as u64
}

// What the houses but one are sure of and have not used.
pub fn unused_of_others(shares: &[u32], used: &[usize; 17], house: usize) -> u64
    requires { length shares.now ≡ 32 }
    ensures { result ≡ total (but house (unused_by shares.now used.now)) 16 }
{
    let mut unused = 0u64;
    for h in 1..=HOUSES {
        if h != house {
            let guarantee = shares[2 * h - 2] as u64;
            unused += guarantee.saturating_sub(used[h] as u64);
        }
    }
    unused
}
