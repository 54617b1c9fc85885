//! Coding tree units (7.3.8.2).

ghost use Rattle.std.specs.Prelude.{◌≡◌, ◌<◌, ◌≤◌, ◌+◌, ◌-◌, ◌^◌, List, length};
ghost use Rattle.hv_tables.specs.Bins.{Puts};
ghost use Rattle.hv_tree_model.specs.Plans.{NamesItsUnits, tree_at, tree_of, in_block};
ghost use Rattle.hv_unit_model.specs.Bins.{bins, bins_of_node};
ghost use Rattle.hv_tree_model.specs.Sites.{address_of, squares};
ghost use Rattle.hv_tree_model.specs.EarlierUnits.{Square};
ghost use Rattle.hv_near.specs.Neighbours.{lists_of_plan, around_of};
ghost use Rattle.hv_near.specs.Squares.{Shows, NamesNode};

use crate::block::Block;
use crate::counting_tree::count_node_of;
use crate::near::{beside, view};
use crate::offsets::put_offsets;
use crate::quadtree::put_node;
use hv_block::{CtbPlan, Neighbours};
use hv_near::{Site, address_of};
use hv_plan::{Node, Place, SaoParam};
use hv_tables::{BinSink, SliceKind};

/// Puts a coding tree unit (`coding_tree_unit`, 7.3.8.2) and `end_of_slice_segment_flag`, which is
/// `last`: the bins of these sample adaptive offsets and of the coding quadtree that the plan
/// stands for at this place, in a slice of this kind and number of references. A node of the
/// quadtree is a coding unit where the depth of its upper left unit is at most its own; every unit
/// of it that is inside the picture must have that unit's prediction, and its depth must be the
/// node's. The picture has a column of luma samples at least. It takes no memory.
pub fn put_ctb<B: BinSink>(
    sink: &mut B,
    kind: SliceKind,
    references: u8,
    place: Place,
    near: &Neighbours,
    plan: &CtbPlan,
    sao: &SaoParam,
    last: bool,
)
    requires width { 0 < place.width }
    requires names { NamesItsUnits place (lists_of_plan plan.now) }
    ensures { Puts B.stands_for sink.old sink.new
        (bins (in_block kind references place (around_of near.now)) record {
          sao = sao.now;
          tree = tree_of place (lists_of_plan plan.now);
          end_of_slice_segment_flag = last;
        }) }
{
    let site = Site::of(place);
    let block = Block {
        kind,
        references,
        site,
        beside: beside(near),
        plan: view(plan),
    };
    put_offsets(sink, &site, sao);
    put_node(sink, &block, 3, 0);
    sink.terminate(last);
}

/// How many bins a node of the coding quadtree has (`coding_quadtree`, 7.3.8.4), at this place, in
/// a slice of this kind and number of references: the length of its defined bins, behind any
/// squares coded earlier that are those of the plan's units at the addresses below the node's, so
/// far as they are inside the picture. The node lies in the block; the units of it that are inside
/// the picture name the squares of its tree, as for `put_ctb`. It takes no memory, and visits no
/// bin.
pub fn count_node(
    kind: SliceKind,
    references: u8,
    place: Place,
    near: &Neighbours,
    plan: &CtbPlan,
    node: Node,
) -> u64
    requires width { 0 < place.width }
    requires depth { node.depth ≤ 3 }
    requires column { node.x < 8 }
    requires row { node.y < 8 }
    requires inside { address_of node.x node.y + squares (3 - node.depth) ≤ 64 }
    requires names { NamesNode place (lists_of_plan plan.now) (3 - node.depth)
        (address_of node.x node.y) }
    ensures value { (earlier : List Square) →
        Shows place (lists_of_plan plan.now) (address_of node.x node.y) earlier →
        result ≡ length (bins_of_node (in_block kind references place (around_of near.now))
        (3 - node.depth) (address_of node.x node.y) earlier
        (tree_at place (lists_of_plan plan.now) (3 - node.depth) (address_of node.x node.y))) }
    ensures most { result < 2 ^ 46 }
{
    let block = Block {
        kind,
        references,
        site: Site::of(place),
        beside: beside(near),
        plan: view(plan),
    };
    count_node_of(&block, 3 - node.depth, address_of(node.x, node.y))
}
