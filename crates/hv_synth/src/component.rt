//! The components of a picture.

/// A component, in the order of their planes among the bytes of a picture.
#[derive(Clone, Copy)]
pub(crate) enum Component {
    Luma,
    Cb,
    Cr,
}
