//! The pictures of a group as they are begun, filtered and written.
ghost use Rattle.std.specs.Prelude.{◌≡◌, ◌+◌, ◌<◌, ◌≤◌, ◌↔◌, IfOk, IsTrue, MatchOption, false, length};
ghost use Rattle.std.specs.Option.{ForSome};
ghost use Rattle.hv_manager.specs.Progress.{filtered_or_none};

use crate::live::{all_live, take_off_named};
use hv_decision::Structure;
use hv_types::NoMemory;
use std::alloc::Global;
use std::marker::Model;

/// How far the pictures of a group are. They are begun and written in coding order, and filtered in
/// between in any order. A picture's number is its place in output order, from 0. Contracts see how
/// many pictures are begun and written, and which ones are filtered.
#[derive(Drop)]
pub struct Refs {
    structure: Structure,
    begun: u8,
    written: u8,
    filtered: Vec<bool>,
    live: Vec<u8>,
}

impl Model for Refs {
    ghost use Rattle.hv_manager.specs.Progress.{Progress, IsKept, as_seen};

    ghost Value = { Progress };

    ghost view = { λ r. as_seen r.structure r.begun r.written r.filtered.items };

    ghost invariant = { λ r.
        IsKept (as_seen r.structure r.begun r.written r.filtered.items) r.live.items };
}

impl Refs {
    ghost use Rattle.hv_manager.specs.Progress.{IsBegun, IsNextBegun, IsNextWritten, IsReady, begun_more, is_filtered, live_of, opening, with_filtered, written_more};

    /// The pictures of a group of this structure, of which none is begun. The only error is want of
    /// memory.
    pub fn new(alloc: Global, structure: &Structure) -> Result<Self, NoMemory>
        ensures { IfOk result (λ r. r ≡ opening structure.now.count structure.now.levels) }
    {
        let structure = Structure::of(alloc, structure.count(), structure.levels())?;
        let filtered = vec![in alloc; false; usize::from(structure.count())]?;
        let live = all_live(alloc, &structure)?;
        Ok(Refs {
            structure,
            begun: 0,
            written: 0,
            filtered,
            live,
        })
    }

    /// The next picture in coding order that isn't begun. None comes exactly where all are begun.
    /// It is in constant time.
    pub fn next(&self) -> Option<u8>
        ensures { MatchOption result
            (self.now.begun ≡ self.now.count)
            (IsNextBegun self.now) }
    {
        if self.begun < self.structure.count() {
            Some(self.structure.order(self.begun))
        } else {
            None
        }
    }

    /// The next picture is begun. It is in constant time and takes no memory.
    pub fn begin(&mut self, k: u8)
        requires { IsNextBegun self.old k }
        ensures { self.new ≡ begun_more self.old }
    {
        self.begun += 1;
    }

    /// A picture that is begun is filtered. It is in constant time and takes no memory.
    pub fn filtered(&mut self, k: u8)
        requires picture { k < self.old.count }
        requires begun { IsBegun self.old k }
        requires unfiltered { is_filtered self.old k ≡ false }
        ensures { self.new ≡ with_filtered self.old k }
    {
        self.filtered[usize::from(k)] = true;
    }

    /// Whether all pictures to which `k` refers (8.3.4) are filtered. It is in constant time.
    pub fn ready(&self, k: u8) -> bool
        requires { k < self.now.count }
        ensures { IsTrue result ↔ IsReady self.now k }
    {
        let first = is_filtered_or_none(&self.filtered, self.structure.first(k));
        let second = is_filtered_or_none(&self.filtered, self.structure.second(k));
        first && second
    }

    /// A picture that is filtered is written, the next one in coding order. It is in constant time
    /// and takes no memory.
    pub fn finished(&mut self, k: u8)
        requires next { IsNextWritten self.old k }
        requires filtered { IsTrue (is_filtered self.old k) }
        ensures { self.new ≡ written_more self.old }
    {
        take_off_named(&mut self.live, &self.structure, k);
        self.written += 1;
    }

    /// How many pictures that aren't written are `k` or refer to it (8.3.4): those that refer to
    /// it, and one more until `k` is written. It is in constant time.
    pub fn live(&self, k: u8) -> u32
        requires { k < self.now.count }
        ensures value { result ≡ live_of self.now k }
        ensures most { result ≤ self.now.count }
    {
        u32::from(self.live[usize::from(k)])
    }
}

/// Whether a picture is filtered, where there is one.
fn is_filtered_or_none(filtered: &[bool], picture: Option<u8>) -> bool
    requires { ForSome picture (λ k. k < length filtered.now) }
    ensures { result ≡ filtered_or_none filtered.now picture }
{
    match picture {
        Some(k) => filtered[usize::from(k)],
        None => true,
    }
}
