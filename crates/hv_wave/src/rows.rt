//! The rows of a wave, and which of them goes on.
ghost use Rattle.std.specs.Prelude.{◌≡◌, ◌<◌, ◌^◌, ◌↔◌, All, IsTrue, MatchOption, length};

/// A row of segments: how many are done, which are the first ones from the left, and whether the
/// one behind these is taken.
#[derive(Clone, Copy)]
pub(crate) struct Row {
    pub(crate) done: u32,
    pub(crate) taken: bool,
}

impl Row {
    ghost use Rattle.std.specs.Prelude.{◌&&◌, nat_eq};
    ghost use Rattle.hv_wave.specs.Rows.{goes_on};

    /// Whether the next segment of the row is ready: it is there and isn't taken, and in the row
    /// above, of which `above` segments are done, the one above right of it is done, or all are.
    pub(crate) fn goes_on(self, per_row: u32, above: u32) -> bool
        ensures { result ≡ goes_on per_row above self }
    {
        !self.taken && self.done < per_row && (above == per_row || self.done + 1 < above)
    }

    /// Whether the segment at this place of the row is taken.
    pub(crate) fn has_taken(self, place: u32) -> bool
        ensures { result ≡ (self.taken && nat_eq place self.done) }
    {
        self.taken && place == self.done
    }
}

ghost use Rattle.hv_wave.specs.Rows.{IsFirstToGoOn, NoneGoesOnBefore};

/// The first row, from the top, whose next segment is ready, of rows of `per_row` segments each.
/// None comes exactly where there is no such row. It walks down the rows.
pub(crate) fn first_to_go_on(rows: &[Row], per_row: u32) -> Option<u32>
    requires { length rows.now < 2 ^ 32 }
    ensures { MatchOption result
        (NoneGoesOnBefore per_row rows.now (length rows.now))
        (IsFirstToGoOn per_row rows.now) }
{
    let mut above = per_row;
    for (index, row) in rows.iter().enumerate() {
        if row.goes_on(per_row, above) {
            return Some(index as u32);
        }
        above = row.done;
    }
    None
}

/// Whether all segments of these rows, of `per_row` segments each, are done. It walks down the
/// rows.
pub(crate) fn all_done(rows: &[Row], per_row: u32) -> bool
    ensures { IsTrue result ↔ All (λ row. row.done ≡ per_row) rows.now }
{
    rows.iter().all(|row| row.done == per_row)
}
