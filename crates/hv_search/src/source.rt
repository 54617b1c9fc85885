//! A picture that is searched, or searched in.
ghost use Rattle.std.specs.Prelude.{◌≡◌, ◌*◌, ◌/◌, ◌%◌, ◌^◌, ◌<◌, length};
ghost use Rattle.hv_types.specs.Samples.{plane_by_rows};
ghost use Rattle.hv_search_model.specs.MotionSearch.{quarter_size};

use hv_types::Plane;

/// The luma of a padded picture, and the samples of its picture of quarter size, by rows.
#[derive(Clone, Copy)]
pub(crate) struct Source<'a> {
    pub(crate) luma: &'a Plane,
    pub(crate) samples: &'a [u8],
    ghost is: { plane_by_rows (luma.now.width / 4) (luma.now.height / 4) samples.now ≡
        quarter_size luma.now },
    ghost count: { length samples.now ≡ luma.now.width / 4 * (luma.now.height / 4) },
    ghost across: { luma.now.width % 8 ≡ 0 },
    ghost down: { luma.now.height % 8 ≡ 0 },
    ghost width_most: { luma.now.width < 2 ^ 16 },
    ghost height_most: { luma.now.height < 2 ^ 16 },
}
