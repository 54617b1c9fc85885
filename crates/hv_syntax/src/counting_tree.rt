//! How many bins a node of the coding quadtree has (7.3.8.4).

ghost use Rattle.std.specs.Prelude.{◌≡◌, ◌≤◌, ◌<◌, ◌+◌, ◌*◌, List, Bool, length};
ghost use Rattle.hv_tree_model.specs.Sites.{squares};
ghost use Rattle.hv_tree_model.specs.EarlierUnits.{Square, Surroundings};
ghost use Rattle.hv_tree_model.specs.Plans.{prediction_of, leaf_of};
ghost use Rattle.hv_unit_model.specs.Bins.{pred_mode_bins, split_bins, predicted_bins, bins_of_node};
ghost use Rattle.hv_syntax.specs.Levels.{units_of, size_of};
ghost use Rattle.hv_syntax.specs.Blocks.{plan_of, place_of, node_of, Sees, Reached};
ghost use Rattle.hv_near.specs.Squares.{Shows, NamesNode};

use crate::block::Block;
use crate::counting::{count_inter, count_intra};
use crate::leaves::unit_levels;
use crate::levels::UnitLevels;
use crate::quadtree::is_leaf;
use crate::seen::{candidates, own_unit};
use hv_near::{crosses, is_outside, squares};
use hv_plan::Pred;
use hv_tables::SliceKind;

/// How many `cu_skip_flag` and `pred_mode_flag` a coding unit has.
#[inline(always)]
fn count_pred_mode(kind: SliceKind, pred: Pred) -> u64
    ensures value { result ≡ length (pred_mode_bins kind (prediction_of pred)) }
    ensures most { result ≤ 2 }
{
    match kind {
        SliceKind::I => 0,
        SliceKind::P => 2,
    }
}

/// How many `split_cu_flag` a node has.
fn count_split(block: &Block, size: u8, address: u8) -> u64
    requires size { size ≤ 3 }
    requires address { address < 64 }
    ensures value { (s : Surroundings) (earlier : List Square) (flag : Bool) →
        Sees block.now s → result ≡ length (split_bins s size address earlier flag) }
    ensures most { result ≤ 1 }
{
    if size == 0 || crosses(&block.site, size, address) {
        return 0;
    }
    1
}

/// How many bins follow `pred_mode_flag` of a coding unit.
fn count_predicted(block: &Block, size: u8, address: u8, pred: Pred, levels: &UnitLevels) -> u64
    requires address { address < 64 }
    requires size { size ≡ size_of levels.now }
    ensures value { (s : Surroundings) (earlier : List Square) →
        Reached block.now s address earlier → result ≡ length
        (predicted_bins s size address earlier (prediction_of pred) (units_of levels.now)) }
    ensures most { result ≤ 51539607661 }
{
    match pred {
        Pred::Intra { mode } => count_intra(size, candidates(block, address), mode, levels),
        Pred::Inter {
            reference,
            mv: _,
            flag,
            mvd,
        } => { count_inter(block.references, reference, flag, mvd, levels) }
    }
}

/// How many bins a coding unit has, with `split_cu_flag` in front of it.
fn count_leaf(block: &Block, size: u8, address: u8, pred: Pred) -> u64
    requires size { size ≤ 3 }
    requires inside { address + squares size ≤ 64 }
    requires address { address < 64 }
    ensures value { (s : Surroundings) (earlier : List Square) →
        Reached block.now s address earlier → result ≡ length
        (bins_of_node s size address earlier (leaf_of (plan_of block.now) size address pred)) }
    ensures most { result ≤ 51539607664 }
{
    let levels = unit_levels(block, size, address);
    let split = count_split(block, size, address);
    split
        + (count_pred_mode(block.kind, pred) + count_predicted(block, size, address, pred, &levels))
}

/// How many bins a node of the coding quadtree has: none where it begins outside the picture.
pub fn count_node_of(block: &Block, size: u8, address: u8) -> u64
    requires size { size ≤ 3 }
    requires inside { address + squares size ≤ 64 }
    requires address { address < 64 }
    requires names { NamesNode (place_of block.now) (plan_of block.now) size address }
    ensures value { (s : Surroundings) (earlier : List Square) → Sees block.now s →
        Shows (place_of block.now) (plan_of block.now) address earlier → result ≡
        length (bins_of_node s size address earlier (node_of block.now size address)) }
    ensures most { result + 1 ≤ 1099511627776 * squares size }
{
    if is_outside(&block.site, address) {
        return 0;
    }
    let unit = own_unit(block, address);
    if is_leaf(size, unit.depth) {
        return count_leaf(block, size, address, unit.pred);
    }
    let below = size - 1;
    let step = squares(below);
    let split = count_split(block, size, address);
    let first = count_node_of(block, below, address);
    let second = count_node_of(block, below, address + step);
    let third = count_node_of(block, below, address + 2 * step);
    let fourth = count_node_of(block, below, address + 3 * step);
    split + (first + (second + (third + fourth)))
}
