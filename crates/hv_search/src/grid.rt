//! Planes as searches see them.
ghost use Rattle.std.specs.Prelude.{◌≡◌, ◌*◌, ◌<◌, length};

/// The samples of a plane, by rows.
#[derive(Clone, Copy)]
pub(crate) struct Grid<'a> {
    pub(crate) samples: &'a [u8],
    pub(crate) width: u32,
    pub(crate) height: u32,
    ghost count: { length samples.now ≡ width * height },
    ghost wide: { 0 < width },
    ghost high: { 0 < height },
}
