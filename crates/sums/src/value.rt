// What a sum comes to, and the three steps on it: a number by sign and size, or nothing where it stays. What is right says specs/Value.antt.
ghost use Rattle.std.specs.Prelude.{◌≡◌};
ghost use Rattle.sums.specs.Value.{difference, added, taken, multiplied};
ghost use Rattle.sums.specs.Small.{size, bounded, opposite, mixed_product};

use page::number::MAX_WHOLE;

// The largest size of a number or of a step: a sum becomes a whole number of the page.
pub const MOST: u64 = MAX_WHOLE;

// A number from zero up, or one below zero by its size. It is no i64: specs/Value.antt says with this type, by sign and size, what a sum comes to,
// and the fields 71 and 75 hold a size.
#[derive(Clone, Copy)]
pub enum Sum {
    Plus(u64),
    Minus(u64),
}

#[tactic(auto, unfolding(crate::specs::Small::size))]
pub fn size(n: Sum) -> u64
    ensures { result ≡ size n }
{
    match n {
        Sum::Plus(size) | Sum::Minus(size) => size,
    }
}

// A number whose size is within the bound.
pub fn bounded(n: Sum) -> Option<Sum>
    ensures { result ≡ bounded n }
{
    (size(n) <= MOST).then_some(n)
}

fn difference(a: u64, b: u64) -> Option<Sum>
    ensures { result ≡ difference a b }
{
    bounded(if b <= a {
        Sum::Plus(a - b)
    } else {
        Sum::Minus(b - a)
    })
}

#[tactic(auto, unfolding(crate::specs::Small::opposite))]
fn opposite(n: Sum) -> Sum
    ensures { result ≡ opposite n }
{
    match n {
        Sum::Plus(size) => Sum::Minus(size),
        Sum::Minus(size) => Sum::Plus(size),
    }
}

// A sum or a product that passes 64 bits passes the bound at 64 bits too.
pub fn add(a: Option<Sum>, b: Option<Sum>) -> Option<Sum>
    ensures { result ≡ added a b }
{
    match (a?, b?) {
        (Sum::Plus(x), Sum::Plus(y)) => bounded(Sum::Plus(x.saturating_add(y))),
        (Sum::Minus(x), Sum::Minus(y)) => bounded(Sum::Minus(x.saturating_add(y))),
        (Sum::Plus(x), Sum::Minus(y)) | (Sum::Minus(y), Sum::Plus(x)) => difference(x, y),
    }
}

pub fn subtract(a: Option<Sum>, b: Option<Sum>) -> Option<Sum>
    ensures { result ≡ taken a b }
{
    add(a, b.map(opposite))
}

// The product of x, from zero up, and one below zero of size y.
fn down_product(x: u64, y: u64) -> Option<Sum>
    ensures { result ≡ mixed_product x y }
{
    if x == 0 {
        None
    } else {
        bounded(Sum::Minus(x.saturating_mul(y)))
    }
}

pub fn multiply(a: Option<Sum>, b: Option<Sum>) -> Option<Sum>
    ensures { result ≡ multiplied a b }
{
    match (a?, b?) {
        (Sum::Plus(x), Sum::Plus(y)) | (Sum::Minus(x), Sum::Minus(y)) => bounded(Sum::Plus(
            x.saturating_mul(y),
        )),
        (Sum::Plus(x), Sum::Minus(y)) | (Sum::Minus(y), Sum::Plus(x)) => down_product(x, y),
    }
}
