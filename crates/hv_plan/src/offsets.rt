//! Sample adaptive offset of a coding tree block (7.4.9.3).

/// How samples are put into categories (`SaoTypeIdx`).
#[derive(Clone, Copy, Debug, PartialEq, Eq, Hash)]
pub enum SaoKind {
    /// No sample changes: `SaoTypeIdx` 0.
    Off,
    /// By bands of 8 values: `SaoTypeIdx` 1. The first of the four bands is `position`, 0 to 31
    /// (`sao_band_position`).
    Band { position: u8 },
    /// By two neighbours: `SaoTypeIdx` 2. The `class`, 0 to 3 (`SaoEoClass`), says which:
    /// left and right, above and below, or those along one of the two diagonals.
    Edge { class: u8 },
}

/// The offsets of one colour component.
#[derive(Clone, Copy, Debug, PartialEq, Eq, Hash)]
pub struct SaoComponent {
    pub kind: SaoKind,
    /// What is added to a sample of each of the four categories, -7 to 7 (`SaoOffsetVal` but for
    /// its first entry, which is 0).
    pub offsets: [i8; 4],
}

/// The offsets of the three components of a coding tree block.
#[derive(Clone, Copy, Debug, PartialEq, Eq, Hash)]
pub struct SaoParam {
    pub luma: SaoComponent,
    pub cb: SaoComponent,
    pub cr: SaoComponent,
}
