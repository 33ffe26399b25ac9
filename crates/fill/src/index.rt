// The index of what an order asks for. Each record of the templates is looked up once among the numbers, and not each number among the records.
ghost use Rattle.std.specs.Prelude.{◌≡◌, ◌≤◌, true, length, take, Some};
ghost use Rattle.std.specs.List.Sorted.{IsNonDecreasing};
ghost use Rattle.field.specs.Row.{read};
ghost use Rattle.refusal.specs.Refusal.{Fine};
ghost use Rattle.outs.specs.Templates.{check_templates};
ghost use Rattle.outs.specs.declared.Kind.TheVariants.{New};
ghost use Rattle.fill.specs.Order.{read_order, check_order};
ghost use Rattle.fill.specs.Indexed.{HasRoom, FirstIndex, Located, Served, IndexedIf, Looked};

use crate::front::front;
use crate::order::check_order;
use field::reader::{Fields, body};
use find::ABSENT;
use refusal::Refusal;

// The numbers that an order asks for, sorted, and where the record with each begins; of a number that is asked for several times, at its first
// index. A place is ABSENT until the record is met: an Option would take twice the room.
#[derive(Drop)]
pub struct Index<const N: usize> {
    numbers: [u32; N],
    places: [usize; N],
    count: usize,
}

// The same with its templates, whatever room it has: the writing goes by it, and so stands once in the library. The checker proves no generic function that calls
// itself in a loop.
#[derive(Clone, Copy)]
pub struct Entries<'i> {
    numbers: &'i [u32],
    places: &'i [usize],
    templates: &'i [u8],
}

// Where a number stands that may stand there several times.
fn first_index(numbers: &[u32], number: u32) -> Option<usize>
    requires { IsNonDecreasing numbers.now }
    ensures { FirstIndex numbers.now number result }
{
    let i = numbers.partition_point(|n| *n < number);
    if *numbers.get(i)? == number {
        Some(i)
    } else {
        None
    }
}

// Whether a number stands at an index, and not before it.
#[inline(always)]
fn is_first(numbers: &[u32], number: u32, i: usize) -> bool
    requires { IsNonDecreasing numbers.now }
    ensures { result ≡ true → FirstIndex numbers.now number (Some i) }
{
    match numbers.get(i) {
        Some(n) if *n == number => i == 0 || numbers[i - 1] < number,
        _ => false,
    }
}

// The same as first_index. It looks first where the last number was found, behind and before, as an order mostly asks for the same template again or
// for a neighbour: by a search alone 9,361 orders took 28 to 39 % more instructions (a probe by rustc).
#[inline(always)]
fn first_near(numbers: &[u32], number: u32, near: usize) -> Option<usize>
    requires { IsNonDecreasing numbers.now }
    ensures { FirstIndex numbers.now number result }
{
    if is_first(numbers, number, near) {
        return Some(near);
    }
    let next = near.wrapping_add(1);
    if is_first(numbers, number, next) {
        return Some(next);
    }
    let before = near.wrapping_sub(1);
    if is_first(numbers, number, before) {
        return Some(before);
    }
    first_index(numbers, number)
}

// The place of each number's record; None, where a number that is asked for stands in two records.
fn locate(numbers: &[u32], places: &mut [usize], templates: &[u8]) -> Option<()>
    requires { (check_templates New templates.now ≡ Fine) × IsNonDecreasing numbers.now × (length numbers.now ≤ length places.old) }
    ensures { Located templates.now numbers.now places.new result }
{
    places.fill(ABSENT);
    let mut fields = Fields(templates);
    let mut near = 0;
    loop {
        let at = templates.len() - fields.0.len();
        let Some(record) = fields.next() else {
            return Some(());
        };
        let b = record.body;
        let number = u32::from_be_bytes([b[0], b[1], b[2], b[3]]);
        if let Some(i) = first_near(numbers, number, near) {
            near = i;
            if places[i] != ABSENT {
                return None;
            }
            places[i] = at;
        }
    }
}

impl<const N: usize> Index<N> {
    // Inline, so that no array is copied.
    #[inline(always)]
    pub fn new() -> Index<N> {
        Index {
            numbers: [0; N],
            places: [0; N],
            count: 0,
        }
    }

    // The check of an order, and its index. None, where some number that is asked for stands in two records, so that the order has no HTML.
    pub fn index(&mut self, templates: &[u8], order: &[u8]) -> Result<Option<()>, Refusal>
        requires { (check_templates New templates.now ≡ Fine) × HasRoom order.now N }
        ensures { IndexedIf (check_order (read_order order.now)) templates.now order.now self.new result }
    {
        self.count = 0;
        check_order(order, &mut self.numbers, &mut self.count)?;
        let numbers = &mut self.numbers[..self.count];
        numbers.sort_unstable();
        Ok(locate(numbers, &mut self.places[..self.count], templates))
    }

    pub fn entries<'i>(&'i self, templates: &'i [u8]) -> Entries<'i>
        requires { self.now.count ≤ length self.now.numbers }
        ensures { (result.numbers.now ≡ take self.now.count self.now.numbers) × (result.places.now ≡ self.now.places) × (result.templates.now ≡ templates.now) }
    {
        Entries {
            numbers: &self.numbers[..self.count],
            places: &self.places,
            templates,
        }
    }
}

impl<'i> Entries<'i> {
    // The body of the record with a number that the order asks for; None, where there is none.
    #[inline(always)]
    pub fn record_of(&self, number: u32, near: &mut usize) -> Option<&'i [u8]>
        requires { Served self.now.templates.now self.now.numbers.now self.now.places.now number }
        ensures { Looked (read self.now.templates.now) number result }
    {
        let i = first_near(self.numbers, number, *near)?;
        *near = i;
        let place = self.places[i];
        if place == ABSENT {
            None
        } else {
            Some(body(&self.templates[place..]))
        }
    }
}
