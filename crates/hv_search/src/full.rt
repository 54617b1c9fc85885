//! The full stage: whole samples around a vector, for all nodes of a block at once.
ghost use Rattle.std.specs.Prelude.{◌≡◌, ◌≤◌};
ghost use Rattle.std.specs.Int.RustNames.{unsigned_abs};
ghost use Rattle.hv_search.specs.Windows.{plane_of_grid};
ghost use Rattle.hv_search.specs.Numbers.{ShowFull};

use crate::grid::Grid;
use crate::nodes::{NODES, fresh_keys, key_list, search_nodes};
use crate::window::{copy_window, corner};
use hv_plan::Mv;

/// The keys of the nodes of a block of 64x64, which begins in column `x` of row `y`: each shows
/// which of the vectors around `centre`, in whole samples, has the least sum of absolute
/// differences. Those of nodes that cross an edge show nothing.
#[inline(never)]
pub(crate) fn full_keys(input: Grid, reference: Grid, x: u32, y: u32, centre: Mv) -> [u32; NODES]
    ensures { ShowFull (plane_of_grid input.entry) (plane_of_grid reference.entry) x y centre
        result }
{
    let mut source = [0; 6400];
    copy_window(input, corner(x, 0, 0), corner(y, 0, 0), 80, &mut source);
    let left = corner(x, centre.x, 8);
    let top = corner(y, centre.y, 8);
    let mut window = [0; 6400];
    copy_window(reference, left, top, 80, &mut window);
    let mut woven = [0; 12800];
    let mut packed = [0; 4096];
    let mut sums = [0; 1088];
    let mut keys = fresh_keys();
    search_nodes(
        &source,
        &window,
        80,
        &mut woven,
        &mut packed,
        &mut sums,
        &mut keys,
    );
    key_list(&keys)
}
