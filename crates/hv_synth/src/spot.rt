//! Where a byte stands in a picture.

ghost use Rattle.std.specs.Prelude.{◌≡◌, ◌+◌, ◌*◌, ◌/◌, ◌%◌, ◌-◌, ◌<◌, ◌≤◌};
ghost use Rattle.hv_types.specs.Configuration.{IsValid, picture_bytes};
ghost use Rattle.hv_synth.specs.Runs.{IsPlace, side_of};

use crate::component::Component;
use hv_types::Settings;

/// A place in a picture: its component, its column and row in that plane, and how many samples are
/// from there to the end of the row.
#[derive(Clone, Copy)]
pub(crate) struct Spot {
    pub(crate) component: Component,
    pub(crate) column: u32,
    pub(crate) row: u32,
    pub(crate) rest: u32,
    ghost some: { 0 < rest },
    ghost left: { column + rest ≤ 4096 },
    ghost high: { row < 2176 },
}

/// The spot of a place in the plane of a component, which has this width.
#[inline(always)]
fn spot_in_plane(component: Component, place: u32, width: u32) -> Spot
    requires some { 0 < width }
    requires left { width ≤ 4096 }
    requires high { place < width * 2176 }
    ensures component { result.component ≡ component }
    ensures column { result.column ≡ place % width }
    ensures row { result.row ≡ place / width }
    ensures rest { result.column + result.rest ≡ width }
{
    let column = place % width;
    Spot {
        component,
        column,
        row: place / width,
        rest: width - column,
    }
}

/// The spot of a place among the bytes of a picture.
pub(crate) fn spot_at(settings: &Settings, place: u32) -> Spot
    requires valid { IsValid settings.now }
    requires inside { place < picture_bytes settings.now }
    ensures place { IsPlace settings.now place result.component result.column result.row }
    ensures rest { result.column + result.rest ≡ side_of result.component settings.now.width }
{
    let luma = settings.width * settings.height;
    let chroma = settings.width / 2 * (settings.height / 2);
    if place < luma {
        spot_in_plane(Component::Luma, place, settings.width)
    } else if place < luma + chroma {
        spot_in_plane(Component::Cb, place - luma, settings.width / 2)
    } else {
        spot_in_plane(Component::Cr, place - luma - chroma, settings.width / 2)
    }
}
