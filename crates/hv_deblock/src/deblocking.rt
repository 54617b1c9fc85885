//! A picture behind the filter.

ghost use Rattle.std.specs.Prelude.{◌≡◌, ◌*◌, ◌≤◌};
ghost use Rattle.hv_types.specs.Samples.{IsWhole};
ghost use Rattle.hv_types.specs.Video.{IsPicture};
ghost use Rattle.hv_deblock_model.specs.Deblocking.{deblocked_plane, deblocked_picture};
ghost use Rattle.hv_deblock.specs.Passes.{filter_of, scale};

use crate::component::Component;
use crate::direction::{HorizontalEdges, VerticalEdges};
use crate::passes::pass;
use crate::squares::CodedSquares;
use hv_types::{Picture, Plane};

/// Filters a plane of a component in place: all vertical edges, and then all horizontal ones.
fn deblock_plane<S: CodedSquares>(plane: &mut Plane, component: Component, qp: u8, squares: &S)
    requires whole { IsWhole plane.old }
    requires qp { qp ≤ 51 }
    requires wide { plane.old.width ≡ scale component * S.columns squares.now }
    requires high { plane.old.height ≡ scale component * S.rows squares.now }
    ensures { plane.new ≡
        deblocked_plane (filter_of component qp) (S.coding squares.now) plane.old }
{
    pass::<VerticalEdges, S>(plane, component, qp, squares);
    pass::<HorizontalEdges, S>(plane, component, qp, squares);
}

/// The deblocking filter (8.7.2), in place: `picture` becomes the deblocked one. `squares` says how
/// each square of 8x8 luma samples is coded, and `qp` is the quantiser of luma, 0 to 51, one for
/// the whole picture. The picture is whole, in 4:2:0, and made of such squares.
pub fn deblock<S: CodedSquares>(picture: &mut Picture, squares: &S, qp: u8)
    requires picture { IsPicture (8 * S.columns squares.now) (8 * S.rows squares.now)
        picture.old }
    requires qp { qp ≤ 51 }
    ensures { picture.new ≡ deblocked_picture qp (S.coding squares.now) picture.old }
{
    deblock_plane(&mut picture.luma, Component::Luma, qp, squares);
    deblock_plane(&mut picture.cb, Component::Chroma, qp, squares);
    deblock_plane(&mut picture.cr, Component::Chroma, qp, squares);
}
