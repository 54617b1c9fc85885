//! A picture.

use crate::plane::Plane;

/// A picture in 4:2:0: luma, and the two chroma components Cb and Cr.
#[derive(Drop)]
pub struct Picture {
    pub luma: Plane,
    pub cb: Plane,
    pub cr: Plane,
}
