//! Two blocks that are compared.
ghost use Rattle.std.specs.Prelude.{◌≡◌, ◌≤◌};

use hv_types::Window;

/// Two blocks of the same sides, each inside a plane of its own or of the same one. They have at
/// most 64 rows.
#[derive(Clone, Copy, Debug)]
pub struct Pair<'a> {
    pub first: Window<'a>,
    pub second: Window<'a>,
    ghost columns: { second.columns ≡ first.columns },
    ghost rows: { second.rows ≡ first.rows },
    ghost most: { first.rows ≤ 64 },
}
