//! Counts by number, and of each block of them together, so that one is found without a look at
//! each.
ghost use Rattle.std.specs.Prelude.{◌≡◌, ◌<◌, ◌≤◌, ◌+◌, ◌^◌, ◌++◌, ◌∷◌, ℕ, List, [], None, false, length, nat_eq, sum, take, true, IfOk, IfSome, OnErr, OnOk};
ghost use Rattle.bp_roll.specs.Counting.{AreSums, block_with, count_at, of_block};

use bp_log::Memory;
use std::alloc::Global;
use std::marker::Model;

/// This many counts are a block.
const BLOCK: usize = 64;

/// Counts by number, 0 where none was set; 64 numbers are a block, from 0 on. Contracts see the list
/// of them.
#[derive(Drop)]
pub struct Counts {
    /// 0 where nobody is.
    items: Vec<usize>,
    /// Those of each block together.
    sums: Vec<usize>,
}

impl Model for Counts {
    ghost use Rattle.std.specs.Prelude.{ℕ, List};
    ghost use Rattle.bp_roll.specs.Counting.{AreSums};

    ghost Value = { List ℕ };

    ghost view = { λ c. c.items.items };

    ghost invariant = { λ c. AreSums c.sums.items c.items.items };
}

/// There is a block for one count more.
fn make_block(sums: &mut Vec<usize>, items: &[usize]) -> Result<(), Memory>
    requires { AreSums sums.old.items items.now }
    ensures sums { AreSums sums.new.items items.now }
    ensures room { OnOk result (AreSums sums.new.items (items.now ++ 0 ∷ [])) }
{
    if items.len() / BLOCK >= sums.len() {
        sums.push(0)?;
    }
    Ok(())
}

/// A number, and a place within its count.
#[derive(Clone, Copy)]
pub struct Spot {
    /// The number.
    pub number: usize,
    /// The place, from 0 and below the count.
    pub place: usize,
}

/// The spot of this place, counted from the start of the counts from this number on; nothing where
/// it is past the last.
fn spot_from(items: &[usize], from: usize, place: usize) -> Option<Spot>
    ensures spot { IfSome result (λ s.
        (sum (take s.number items.now) + s.place ≡ sum (take from items.now) + place)
        × (s.place < count_at items.now s.number)) }
    ensures none { result ≡ None → sum items.now ≤ sum (take from items.now) + place }
{
    let mut rest = place;
    for number in from..items.len() {
        let count = items[number];
        if rest < count {
            return Some(Spot {
                number,
                place: rest,
            });
        }
        rest -= count;
    }
    None
}

impl Counts {
    /// No counts.
    pub fn new(alloc: Global) -> Counts
        ensures { result ≡ [] }
    {
        Counts {
            items: Vec::new(alloc),
            sums: Vec::new(alloc),
        }
    }

    /// One count more, which is 0.
    fn push(&mut self) -> Result<(), Memory>
        ensures pushed { OnOk result (self.new ≡ self.old ++ 0 ∷ []) }
        ensures same { (n : ℕ) → count_at self.new n ≡ count_at self.old n }
        ensures blocks { (b : ℕ) → of_block self.new b ≡ of_block self.old b }
    {
        make_block(&mut self.sums, self.items.as_slice())?;
        self.items.push(0)?;
        Ok(())
    }

    /// There is room for the count of this number.
    fn make_room(&mut self, number: u32) -> Result<(), Memory>
        ensures room { OnOk result (number < length self.new) }
        ensures same { (n : ℕ) → count_at self.new n ≡ count_at self.old n }
        ensures blocks { (b : ℕ) → of_block self.new b ≡ of_block self.old b }
    {
        for _place in self.items.len()..number as usize + 1 {
            self.push()?;
        }
        Ok(())
    }

    /// This is the count of this number, for which there is room, and tells whether it can be.
    fn put(&mut self, number: u32, count: usize) -> bool
        requires { number < length self.old }
        ensures own { result ≡ true → count_at self.new number ≡ count }
        ensures full { result ≡ false →
            2 ^ 64 ≤ block_with self.old number count }
        ensures kept { result ≡ false → self.new ≡ self.old }
        ensures others { (n : ℕ) → nat_eq n number ≡ false →
            count_at self.new n ≡ count_at self.old n }
    {
        let at = number as usize;
        let others = self.sums[at / BLOCK] - self.items[at];
        let Some(sum) = others.checked_add(count) else {
            return false;
        };
        self.items[at] = count;
        self.sums[at / BLOCK] = sum;
        true
    }

    /// This is the count of this number from now on, and tells whether it can be: it can't only where
    /// those of its block together would be past `usize`, and then no count has changed. Its only
    /// error is out of memory, and then none has either.
    pub fn set(&mut self, number: u32, count: usize) -> Result<bool, Memory>
        ensures own { IfOk result (λ b. b ≡ true → count_at self.new number ≡ count) }
        ensures full { IfOk result (λ b. b ≡ false →
            2 ^ 64 ≤ block_with self.old number count) }
        ensures kept { IfOk result (λ b. b ≡ false →
            count_at self.new number ≡ count_at self.old number) }
        ensures others { (n : ℕ) → nat_eq n number ≡ false →
            count_at self.new n ≡ count_at self.old n }
        ensures err { OnErr result (count_at self.new number ≡ count_at self.old number) }
    {
        self.make_room(number)?;
        Ok(self.put(number, count))
    }

    /// All counts together; nothing only where that is past `usize`.
    pub fn total(&self) -> Option<usize>
        ensures total { IfSome result (λ n. n ≡ sum self.now) }
        ensures none { result ≡ None → 2 ^ 64 ≤ sum self.now }
    {
        let mut total: usize = 0;
        for together in self.sums.as_slice() {
            total = total.checked_add(*together)?;
        }
        Some(total)
    }

    /// The spot of this place, counted from 0 through all counts in the order of their numbers;
    /// nothing only where it is past the last.
    pub fn spot_at(&self, place: usize) -> Option<Spot>
        ensures spot { IfSome result (λ s. (sum (take s.number self.now) + s.place ≡ place)
            × (s.place < count_at self.now s.number)) }
        ensures none { result ≡ None → sum self.now ≤ place }
    {
        let mut rest = place;
        for (block, together) in self.sums.as_slice().iter().enumerate() {
            if rest < *together {
                return spot_from(self.items.as_slice(), block * BLOCK, rest);
            }
            rest -= *together;
        }
        None
    }
}
