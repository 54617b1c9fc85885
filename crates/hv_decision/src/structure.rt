//! The structure of a group of pictures.

ghost use Rattle.std.specs.Prelude.{◌≡◌, ◌+◌, ◌<◌, ◌≤◌, map, length, IfOk, slice_get, slice_index_or, Some};
ghost use Rattle.hv_types.specs.Configuration.{most_levels};

use crate::coding::{coding_order, pictures_of};
use crate::row::{Row, SetEntry};
use crate::sets::rows;
use hv_types::NoMemory;
use std::alloc::Global;
use std::marker::Model;

/// The structure of a group: in which order its pictures are coded, and for each one its depth, the
/// pictures to which it refers (8.3.4) and those that it keeps (8.3.2). A picture's number is its
/// place in output order, from 0. Contracts see how many pictures and levels there are, which
/// determine the rest.
#[derive(Drop)]
pub struct Structure {
    count: u8,
    levels: u8,
    order: Vec<u8>,
    rows: Vec<Row>,
}

impl Model for Structure {
    ghost use Rattle.hv_decision.specs.Structure.{Structure, IsTable};

    ghost Value = { Structure };

    ghost view = { λ s. record { count = s.count; levels = s.levels } };

    ghost invariant = { λ s.
        IsTable record { count = s.count; levels = s.levels } s.order.items s.rows.items };
}

impl Structure {
    ghost use Rattle.hv_group_model.specs.Structure.{picture_at, coded_of, qp_at, reference_set, set_size};
    ghost use Rattle.hv_decision.specs.Sets.{set_entries, of_picture, row_as};

    /// The structure of a group of `count` pictures, 1 to 64, with `levels` temporal levels above
    /// the lowest, 0 to 3. The only error is want of memory.
    pub fn of(alloc: Global, count: u8, levels: u8) -> Result<Self, NoMemory>
        requires some { 1 ≤ count }
        requires most { count ≤ 64 }
        requires levels_most { levels ≤ most_levels }
        ensures { IfOk result (λ s. (s.count ≡ count) × (s.levels ≡ levels)) }
    {
        let coding = coding_order(alloc, count, levels)?;
        let rows = rows(alloc, &coding)?;
        let order = pictures_of(alloc, &coding)?;
        Ok(Structure {
            count,
            levels,
            order,
            rows,
        })
    }

    /// How many pictures the group has.
    pub fn count(&self) -> u8
        ensures value { result ≡ self.now.count }
        ensures some { 1 ≤ result }
        ensures most { result ≤ 64 }
    {
        self.count
    }

    /// How many temporal levels lie above the lowest.
    pub fn levels(&self) -> u8
        ensures value { result ≡ self.now.levels }
        ensures most { result ≤ most_levels }
    {
        self.levels
    }

    /// The picture at place `i` in coding order.
    pub fn order(&self, i: u8) -> u8
        requires { i < self.now.count }
        ensures value { result ≡ picture_at self.now.count self.now.levels i }
        ensures below { result < self.now.count }
    {
        self.order[usize::from(i)]
    }

    /// Entry 0 of list 0 of picture `k` (8.3.4). None comes exactly where it refers to no picture.
    pub fn first(&self, k: u8) -> Option<u8>
        requires { k < self.now.count }
        ensures { result ≡ slice_get (coded_of self.now.count self.now.levels k).references 0 }
    {
        self.row(k).coded.references.first()
    }

    /// Entry 1 of list 0 of picture `k` (8.3.4), which has at most two. None comes exactly where
    /// the list has no entry 1.
    pub fn second(&self, k: u8) -> Option<u8>
        requires { k < self.now.count }
        ensures { result ≡ slice_get (coded_of self.now.count self.now.levels k).references 1 }
    {
        self.row(k).coded.references.second()
    }

    /// The depth of picture `k`: 0 for the first one, 1 for an anchor.
    pub fn depth(&self, k: u8) -> u8
        requires { k < self.now.count }
        ensures value { result ≡ (coded_of self.now.count self.now.levels k).depth }
        ensures most { result ≤ self.now.levels + 1 }
        ensures depth_most { result ≤ most_levels + 1 }
    {
        self.row(k).coded.depth
    }

    /// The quantiser of picture `k`, 0 to 51, where that of the video is `base`.
    pub fn qp(&self, k: u8, base: u8) -> u8
        requires picture { k < self.now.count }
        requires base { base ≤ 51 }
        ensures value { result ≡ qp_at base (coded_of self.now.count self.now.levels k).depth }
        ensures most { result ≤ 51 }
    {
        (base + self.depth(k)).min(51)
    }

    /// How many pictures the reference set of picture `k` has.
    pub fn set_len(&self, k: u8) -> u8
        requires { k < self.now.count }
        ensures value { result ≡ set_size (reference_set self.now.count self.now.levels k) }
        ensures most { result ≤ self.now.levels + 1 }
    {
        self.row(k).entries.len() as u8
    }

    /// How many pictures of the reference set of picture `k` come before it in output order
    /// (num_negative_pics). They are the first entries of the set.
    pub fn before_len(&self, k: u8) -> u8
        requires { k < self.now.count }
        ensures value { result ≡ length (reference_set self.now.count self.now.levels k).before }
        ensures most { result ≤ set_size (reference_set self.now.count self.now.levels k) }
    {
        self.row(k).before
    }

    /// Entry `i` of the reference set of picture `k`: those before it in output order, the nearest
    /// first, and then those after it, the nearest first.
    pub fn set_entry(&self, k: u8, i: u8) -> SetEntry
        requires picture { k < self.now.count }
        requires entry { i < set_size (reference_set self.now.count self.now.levels k) }
        ensures { slice_get (set_entries (reference_set self.now.count self.now.levels k)) i ≡
            Some result }
    {
        self.row(k).entries[usize::from(i)]
    }

    /// What is kept of picture `k`.
    fn row(&self, k: u8) -> &Row
        requires { k < self.now.count }
        ensures value { row_as result.now ≡ of_picture self.now.count self.now.levels k }
        ensures depth { result.now.coded.depth ≤ self.now.levels + 1 }
        ensures entries { length result.now.entries.items ≤ self.now.levels + 1 }
        ensures levels { self.now.levels ≤ most_levels }
    {
        &self.rows[usize::from(k)]
    }
}
