//! What is shown of a picture.

use hv_types::{Picture, Plane};
use std::alloc::AllocError;

/// Appends the samples of a picture that are shown: luma by rows, in so many columns and rows, then
/// Cb and Cr in half as many.
pub(crate) fn append_picture(
    raw: &mut Vec<u8>,
    picture: &Picture,
    width: u32,
    height: u32,
) -> Result<(), AllocError> {
    append_plane(raw, &picture.luma, width, height)?;
    append_plane(raw, &picture.cb, width / 2, height / 2)?;
    append_plane(raw, &picture.cr, width / 2, height / 2)
}

/// Appends so many columns and rows of a plane.
fn append_plane(
    raw: &mut Vec<u8>,
    plane: &Plane,
    width: u32,
    height: u32,
) -> Result<(), AllocError> {
    let columns = width.min(plane.width()) as usize;
    for y in 0..height.min(plane.height()) {
        let row = plane.row(y);
        raw.extend_from_slice(&row[..columns.min(row.len())])?;
    }
    Ok(())
}
