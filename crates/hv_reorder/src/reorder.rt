//! The list that puts items into the order of their numbers.
ghost use Rattle.std.specs.Prelude.{◌≡◌, ◌+◌, ◌<◌, ◌≤◌, None, Some, IfOk, MatchOption, length, slice_set, slice_index_or};

use hv_types::NoMemory;
use std::alloc::Global;
use std::marker::Model;

/// Items numbered from 0, below the capacity. They come in any order, and are given out in the
/// order of their numbers, each once. Contracts see the next number to be given out, and a place
/// for each number, which is None where the item hasn't come or has been given out.
#[derive(Drop)]
pub struct Reorder<T> {
    places: Vec<Option<T>>,
    next: u32,
}

impl<T> Model for Reorder<T> {
    ghost use Rattle.std.specs.Prelude.{◌<◌, ◌^◌, length};
    ghost use Rattle.hv_reorder.specs.Reorder.{Arrivals, IsInOrder};

    ghost Value = { Arrivals T };

    ghost view = { λ r. record { next = r.next; places = r.places.items } };

    ghost invariant = { λ r. IsInOrder record { next = r.next; places = r.places.items } };
}

impl<T: Drop> Reorder<T> {
    ghost use Rattle.hv_reorder.specs.Reorder.{opening, item_at, with_item, given_out};

    /// Room for the items with the numbers below `capacity`, none of which has come. The only error
    /// is want of memory.
    pub fn new(alloc: Global, capacity: u32) -> Result<Self, NoMemory>
        ensures { IfOk result (λ r. r ≡ opening capacity) }
    {
        let mut places = Vec::with_capacity(alloc, capacity as usize)?;
        for _ in 0..capacity {
            places.push_reserved(None);
        }
        Ok(Reorder { places, next: 0 })
    }

    /// Takes in the item with this number, in constant time and without taking memory.
    pub fn put(&mut self, number: u32, item: T)
        requires below { number < length self.old.places }
        requires waited_for { self.old.next ≤ number }
        requires absent { item_at self.old number ≡ None }
        ensures { self.new ≡ with_item self.old number item }
    {
        self.places[number as usize] = Some(item);
    }

    /// Gives out the item with the next number. None comes exactly where it is absent: where it
    /// hasn't come, or all items have been given out. Then all is as before. It is in constant time
    /// and takes no memory.
    pub fn next(&mut self) -> Option<T>
        ensures item { result ≡ item_at self.old self.old.next }
        ensures after { MatchOption result (self.new ≡ self.old)
            (λ _. self.new ≡ given_out self.old) }
    {
        let place = self.places.get_mut(self.next as usize)?;
        let item = place.take()?;
        self.next += 1;
        Some(item)
    }
}
