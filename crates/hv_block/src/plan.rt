//! What is decided for a coding tree block: the units of its squares, and its levels.

ghost use Rattle.std.specs.Prelude.{◌≡◌, ◌+◌, ◌-◌, ◌*◌, ◌^◌, ◌≤◌, length, IfOk, All};
ghost use Rattle.std.specs.Borrow.{sem};
ghost use Rattle.hv_block.specs.Plans.{HasDepth, with_units, with_part, with_zeros};

use hv_plan::{Pred, Unit};
use hv_types::NoMemory;
use std::alloc::Global;
use std::marker::Model;

/// What is decided for a coding tree block of 64x64 luma samples.
///
/// A square of 8x8 luma samples has an address below 64, which is its place in z-scan order
/// (6.5.2). A node of the coding quadtree (7.3.8.4) is named by its first address and its size, 0
/// for 8x8 to 3 for 64x64: its squares are the 4^size from there on.
///
/// Levels (7.3.8.11, `TransCoeffLevel`) stand transform block behind transform block in decoding
/// order, and those of each by rows. So those of a node begin at 64 times its address in luma, and
/// at 16 times its address in Cb and Cr.
///
/// Contracts see the plan as its lists, which have these lengths; no unit lies deeper than 3.
#[derive(Drop)]
pub struct CtbPlan {
    units: Vec<Unit>,
    luma: Vec<i16>,
    cb: Vec<i16>,
    cr: Vec<i16>,
}

impl Model for CtbPlan {
    ghost use Rattle.hv_block.specs.Plans.{CtbPlan, IsWholePlan, plan_of_lists};

    ghost Value = { CtbPlan };

    ghost view = { λ p. plan_of_lists p.units.items p.luma.items p.cb.items p.cr.items };

    ghost invariant = { λ p. IsWholePlan
        (plan_of_lists p.units.items p.luma.items p.cb.items p.cr.items) };
}

impl CtbPlan {
    ghost use Rattle.hv_block.specs.Plans.{IsWholePlan, opening_plan, with_leaf, with_node, without_levels};
    ghost use Rattle.hv_block.specs.Lending.{LendsLuma, LendsCb, LendsCr};

    /// A plan of one intra unit of 64x64 with DC prediction (`IntraPredModeY` 1), and levels of 0.
    /// The only error is want of memory.
    pub fn new(alloc: Global) -> Result<Self, NoMemory>
        ensures { IfOk result (λ plan. plan ≡ opening_plan) }
    {
        let unit = Unit {
            depth: 0,
            pred: Pred::Intra { mode: 1 },
        };
        let units = vec![in alloc; unit; 64]?;
        let luma = vec![in alloc; 0i16; 4096]?;
        let cb = vec![in alloc; 0i16; 1024]?;
        let cr = vec![in alloc; 0i16; 1024]?;
        Ok(CtbPlan {
            units,
            luma,
            cb,
            cr,
        })
    }

    /// The units of the 64 squares, by their addresses.
    pub fn units(&self) -> &[Unit]
        ensures value { result.now ≡ self.now.units }
        ensures count { length result.now ≡ 64 }
        ensures depths { All HasDepth result.now }
    {
        &self.units
    }

    /// The 4,096 levels of luma.
    pub fn luma(&self) -> &[i16]
        ensures value { result.now ≡ self.now.luma }
        ensures count { length result.now ≡ 4096 }
    {
        &self.luma
    }

    /// The 1,024 levels of Cb.
    pub fn cb(&self) -> &[i16]
        ensures value { result.now ≡ self.now.cb }
        ensures count { length result.now ≡ 1024 }
    {
        &self.cb
    }

    /// The 1,024 levels of Cr.
    pub fn cr(&self) -> &[i16]
        ensures value { result.now ≡ self.now.cr }
        ensures count { length result.now ≡ 1024 }
    {
        &self.cr
    }

    /// Makes the node of this `size` at `address` one coding unit that is predicted so: each of its
    /// squares gets the depth 3 - `size` (`CtDepth`) and `pred`. The node lies in the block. All
    /// else stays.
    pub fn set_leaf(&mut self, address: u8, size: u8, pred: Pred)
        requires size { size ≤ 3 }
        requires fits { address + 4 ^ size ≤ 64 }
        ensures { self.new ≡ with_leaf self.old size address pred }
    {
        let first = usize::from(address);
        let unit = Unit {
            depth: 3 - size,
            pred,
        };
        fill_units(&mut self.units, first, squares(size), unit);
    }

    /// Copies the node of this `size` at `address` from another plan: the units of its squares, and
    /// its levels. The node lies in the block. All else stays.
    pub fn copy_node(&mut self, other: &CtbPlan, address: u8, size: u8)
        requires size { size ≤ 3 }
        requires fits { address + 4 ^ size ≤ 64 }
        ensures value { self.new ≡ with_node self.old other.now size address }
        ensures whole { IsWholePlan self.old }
        ensures others { IsWholePlan other.now }
    {
        let (first, count) = (usize::from(address), squares(size));
        copy_units(&mut self.units, &other.units, first, count);
        copy_levels(&mut self.luma, &other.luma, 64 * first, 64 * count);
        copy_levels(&mut self.cb, &other.cb, 16 * first, 16 * count);
        copy_levels(&mut self.cr, &other.cr, 16 * first, 16 * count);
    }

    /// Makes all levels of the node of this `size` at `address` 0. The node lies in the block. All
    /// else stays.
    pub fn clear_levels(&mut self, address: u8, size: u8)
        requires size { size ≤ 3 }
        requires fits { address + 4 ^ size ≤ 64 }
        ensures value { self.new ≡ without_levels self.old size address }
        ensures whole { IsWholePlan self.old }
    {
        let (first, count) = (usize::from(address), squares(size));
        zero_levels(&mut self.luma, 64 * first, 64 * count);
        zero_levels(&mut self.cb, 16 * first, 16 * count);
        zero_levels(&mut self.cr, 16 * first, 16 * count);
    }

    /// The 4,096 levels of luma, lent for writing.
    pub fn luma_mut(&mut self) -> &mut [i16]
        ensures* written { sem 𝓛 (LendsLuma self.entry result) }
        ensures value { result.now ≡ self.old.luma }
        ensures count { length result.now ≡ 4096 }
    {
        &mut self.luma
    }

    /// The 1,024 levels of Cb, lent for writing.
    pub fn cb_mut(&mut self) -> &mut [i16]
        ensures* written { sem 𝓛 (LendsCb self.entry result) }
        ensures value { result.now ≡ self.old.cb }
        ensures count { length result.now ≡ 1024 }
    {
        &mut self.cb
    }

    /// The 1,024 levels of Cr, lent for writing.
    pub fn cr_mut(&mut self) -> &mut [i16]
        ensures* written { sem 𝓛 (LendsCr self.entry result) }
        ensures value { result.now ≡ self.old.cr }
        ensures count { length result.now ≡ 1024 }
    {
        &mut self.cr
    }
}

/// How many squares of 8x8 a node of this size has.
fn squares(size: u8) -> usize
    requires { size ≤ 3 }
    ensures value { result ≡ 4 ^ size }
    ensures most { result ≤ 64 }
{
    match size {
        0 => 1,
        1 => 4,
        2 => 16,
        _ => 64,
    }
}

/// Puts `unit` in `count` places from `first` on. None lies deeper than 3.
fn fill_units(units: &mut [Unit], first: usize, count: usize, unit: Unit)
    requires fits { first + count ≤ length units.old }
    requires depth { HasDepth unit }
    requires depths { All HasDepth units.old }
    ensures value { units.new ≡ with_units units.old first count unit }
    ensures depths { All HasDepth units.new }
{
    units[first..first + count].fill(unit);
}

/// Copies `count` units from `first` on from another list. None lies deeper than 3.
fn copy_units(units: &mut [Unit], other: &[Unit], first: usize, count: usize)
    requires fits { first + count ≤ length units.old }
    requires there { first + count ≤ length other.now }
    requires depths { All HasDepth units.old }
    requires others { All HasDepth other.now }
    ensures value { units.new ≡ with_part units.old other.now first count }
    ensures depths { All HasDepth units.new }
{
    units[first..first + count].copy_from_slice(&other[first..first + count]);
}

/// Copies `count` levels from `first` on from another list.
fn copy_levels(levels: &mut [i16], other: &[i16], first: usize, count: usize)
    requires fits { first + count ≤ length levels.old }
    requires there { first + count ≤ length other.now }
    ensures { levels.new ≡ with_part levels.old other.now first count }
{
    levels[first..first + count].copy_from_slice(&other[first..first + count]);
}

/// Puts 0 in `count` places from `first` on.
fn zero_levels(levels: &mut [i16], first: usize, count: usize)
    requires { first + count ≤ length levels.old }
    ensures { levels.new ≡ with_zeros levels.old first count }
{
    levels[first..first + count].fill(0);
}
