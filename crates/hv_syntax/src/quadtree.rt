//! The coding quadtree of a block (7.3.8.4).

ghost use Rattle.std.specs.Prelude.{◌≡◌, ◌≤◌, ◌<◌, ◌+◌, List};
ghost use Rattle.hv_residual_model.specs.UnitBins.{PutsUnit};
ghost use Rattle.hv_tree_model.specs.Sites.{squares};
ghost use Rattle.hv_tree_model.specs.EarlierUnits.{Square, Surroundings};
ghost use Rattle.hv_tree_model.specs.Plans.{prediction_of, leaf_of};
ghost use Rattle.hv_unit_model.specs.Bins.{split_bins, predicted_bins, bins_of_node};
ghost use Rattle.hv_syntax.specs.Levels.{units_of, size_of};
ghost use Rattle.hv_syntax.specs.Blocks.{plan_of, place_of, node_of, Sees, Reached, ends};
ghost use Rattle.hv_near.specs.Squares.{Shows, NamesNode};

use crate::block::Block;
use crate::coding_unit::{put_inter, put_intra, put_pred_mode};
use crate::elements::put_bin;
use crate::leaves::unit_levels;
use crate::levels::UnitLevels;
use crate::seen::{candidates, own_unit, split_context};
use hv_near::{crosses, is_outside, squares};
use hv_plan::Pred;
use hv_tables::{BinSink, CtxTable};

/// Puts `split_cu_flag`, which neither the least nodes have nor those that cross the picture's
/// edge.
fn put_split<B: BinSink>(sink: &mut B, block: &Block, size: u8, address: u8, value: bool)
    requires size { size ≤ 3 }
    requires address { address < 64 }
    ensures { (s : Surroundings) (earlier : List Square) → Reached block.now s address earlier →
        PutsUnit B.stands_for sink.old sink.new (split_bins s size address earlier value) }
{
    if size == 0 || crosses(&block.site, size, address) {
        return;
    }
    put_bin(
        sink,
        CtxTable::Split,
        split_context(block, size, address),
        value,
    );
}

/// Puts what follows `pred_mode_flag` of a coding unit.
fn put_predicted<B: BinSink>(
    sink: &mut B,
    block: &Block,
    size: u8,
    address: u8,
    pred: Pred,
    levels: &UnitLevels,
)
    requires address { address < 64 }
    requires size { size ≡ size_of levels.now }
    ensures { (s : Surroundings) (earlier : List Square) → Reached block.now s address earlier →
        PutsUnit B.stands_for sink.old sink.new
        (predicted_bins s size address earlier (prediction_of pred) (units_of levels.now)) }
{
    match pred {
        Pred::Intra { mode } => put_intra(sink, size, candidates(block, address), mode, levels),
        Pred::Inter {
            reference,
            mv: _,
            flag,
            mvd,
        } => {
            put_inter(sink, block.references, reference, flag, mvd, levels);
        }
    }
}

/// Puts a coding unit (`coding_unit`, 7.3.8.5), and `split_cu_flag` 0 in front of it.
fn put_leaf<B: BinSink>(sink: &mut B, block: &Block, size: u8, address: u8, pred: Pred)
    requires size { size ≤ 3 }
    requires inside { address + squares size ≤ 64 }
    requires address { address < 64 }
    ensures { (s : Surroundings) (earlier : List Square) → Reached block.now s address earlier →
        PutsUnit B.stands_for sink.old sink.new
        (bins_of_node s size address earlier (leaf_of (plan_of block.now) size address pred)) }
{
    let levels = unit_levels(block, size, address);
    put_split(sink, block, size, address, false);
    put_pred_mode(sink, block.kind, pred);
    put_predicted(sink, block, size, address, pred, &levels);
}

/// Whether a node is a coding unit, by the depth of its upper left unit.
#[inline(always)]
pub fn is_leaf(size: u8, depth: u8) -> bool
    requires { size ≤ 3 }
    ensures { result ≡ ends size depth }
{
    size == 0 || depth <= 3 - size
}

/// Puts a node of the coding quadtree (`coding_quadtree`, 7.3.8.4): nothing where it begins outside
/// the picture.
pub fn put_node<B: BinSink>(sink: &mut B, block: &Block, size: u8, address: u8)
    requires size { size ≤ 3 }
    requires inside { address + squares size ≤ 64 }
    requires address { address < 64 }
    requires names { NamesNode (place_of block.now) (plan_of block.now) size address }
    ensures { (s : Surroundings) (earlier : List Square) → Sees block.now s →
        Shows (place_of block.now) (plan_of block.now) address earlier →
        PutsUnit B.stands_for sink.old sink.new
        (bins_of_node s size address earlier (node_of block.now size address)) }
{
    if is_outside(&block.site, address) {
        return;
    }
    let unit = own_unit(block, address);
    if is_leaf(size, unit.depth) {
        return put_leaf(sink, block, size, address, unit.pred);
    }
    let below = size - 1;
    let step = squares(below);
    put_split(sink, block, size, address, true);
    put_node(sink, block, below, address);
    put_node(sink, block, below, address + step);
    put_node(sink, block, below, address + 2 * step);
    put_node(sink, block, below, address + 3 * step);
}
