//! What is seen of decoded samples from a coding tree block, in one colour component.

ghost use Rattle.std.specs.Prelude.{◌≡◌, ℕ, ◌+◌, ◌-◌, ◌*◌, ◌^◌, ◌%◌, ◌<◌, ◌≤◌, nat_lt, cond, None, length, take};
ghost use Rattle.hv_tree_model.specs.Sites.{address_of};
ghost use Rattle.hv_recon_model.specs.SeenSamples.{on_right, on_bottom, comes_before, sample_inside, look_around, seen_line};
ghost use Rattle.hv_recon.specs.Runs.{seen_in};
ghost use Rattle.hv_recon.specs.Views.{edges_of, around_of, spot_of};

use crate::around::{SampleEdges, View};
use crate::run::Run;
use crate::sizes::side_of;

/// A sample of the last column.
fn on_right(edges: Option<SampleEdges<'_>>, i: usize) -> Option<u8>
    ensures { result ≡ on_right (edges_of edges.entry) i }
{
    match edges {
        None => None,
        Some(edges) => edges.right.get(i).copied(),
    }
}

/// A sample of the last row.
fn on_bottom(edges: Option<SampleEdges<'_>>, i: usize) -> Option<u8>
    ensures { result ≡ on_bottom (edges_of edges.entry) i }
{
    match edges {
        None => None,
        Some(edges) => edges.bottom.get(i).copied(),
    }
}

/// The address in z-scan order (6.5.2) of the square in this column and row.
#[tactic(auto, unfolding(hv_tree_model::specs::Sites::address_of))]
fn address_of(column: usize, row: usize) -> usize
    ensures { result ≡ address_of column row }
{
    column % 2
        + 2 * (row % 2)
        + 4 * (column / 2 % 2)
        + 8 * (row / 2 % 2)
        + 16 * (column / 4 % 2)
        + 32 * (row / 4 % 2)
}

/// Whether the square in this column and row comes before `address` in decoding order.
fn comes_before(column: usize, row: usize, address: usize) -> bool
    ensures { result ≡ nat_lt (address_of column row) address }
{
    address_of(column, row) < address
}

/// A sample of the block itself: it is there where it comes before `address` in decoding order.
fn sample_inside(side: usize, own: &[u8], address: usize, x: usize, y: usize) -> Option<u8>
    requires least { 8 ≤ side }
    requires most { side ≤ 64 }
    ensures { result ≡ sample_inside side own.now address x y }
{
    if x < side && y < side && comes_before(x / (side / 8), y / (side / 8), address) {
        own.get(y * side + x).copied()
    } else {
        None
    }
}

/// So many samples of the last column from one on.
fn run_on_right(edges: Option<SampleEdges<'_>>, first: usize, count: usize) -> Run<'_>
    requires { first ≤ 8192 }
    ensures { (i : ℕ) → seen_in result i ≡
        cond (nat_lt i count) (on_right (edges_of edges.entry) (first + i)) None }
{
    match edges {
        None => Run::none(),
        Some(edges) => Run {
            samples: edges.right,
            first,
            step: 1,
            count,
        },
    }
}

/// So many samples of the last row from one on.
fn run_on_bottom(edges: Option<SampleEdges<'_>>, first: usize, count: usize) -> Run<'_>
    requires { first ≤ 8192 }
    ensures { (i : ℕ) → seen_in result i ≡
        cond (nat_lt i count) (on_bottom (edges_of edges.entry) (first + i)) None }
{
    match edges {
        None => Run::none(),
        Some(edges) => Run {
            samples: edges.bottom,
            first,
            step: 1,
            count,
        },
    }
}

impl View<'_> {
    ghost use Rattle.hv_recon.specs.Views.{around_of, spot_of};

    /// The sample in this column and row, which are counted from `side` at the block's first
    /// ones, when the squares before `address` are decoded (6.4.1).
    #[tactic(auto, unfolding(hv_recon_model::specs::SeenSamples::look_around))]
    fn look(&self, own: &[u8], address: usize, x: usize, y: usize) -> Option<u8>
        requires across { x < 3 * self.now.side }
        requires down { y < 3 * self.now.side }
        ensures { result ≡ look_around (spot_of self.now) (around_of self.now.around) own.now
            address x y }
    {
        let side = self.side;
        let (left, top) = (self.left + x, self.top + y);
        if left < side || top < side {
            return None;
        }
        if left - side >= self.width || top - side >= self.height {
            return None;
        }
        if x < side {
            if y < side {
                return on_bottom(self.around.above_left, side - 1);
            }
            return on_right(self.around.left, y - side);
        }
        if y < side {
            if x < 2 * side {
                return on_bottom(self.around.above, x - side);
            }
            return on_bottom(self.around.above_right, x - 2 * side);
        }
        sample_inside(side, own, address, x - side, y - side)
    }

    /// The samples along a row from a square on, as far as the square's side goes. The square is in
    /// this column of squares, counted from the block's first one, and the row is counted from
    /// `side` at the block's first one.
    #[inline(always)]
    fn along_row<'b, const SQUARE: usize>(
        &'b self,
        own: &'b [u8],
        address: usize,
        column: usize,
        y: usize,
    ) -> Run<'b>
        requires square { self.now.side ≡ 8 * SQUARE }
        requires across { column < 16 }
        requires down { y < 2 * self.now.side }
        ensures { (i : ℕ) → i < SQUARE →
            look_around (spot_of self.now) (around_of self.now.around) own.now address
            (self.now.side + (column * SQUARE + i)) y ≡ seen_in result i }
    {
        let side = self.side;
        let (left, top) = (self.left + column * SQUARE, self.top + y);
        if top < side || top - side >= self.height {
            return Run::none();
        }
        let count = self.width.saturating_sub(left);
        if y < side {
            if column < 8 {
                return run_on_bottom(self.around.above, column * SQUARE, count);
            }
            return run_on_bottom(self.around.above_right, (column - 8) * SQUARE, count);
        }
        if column >= 8 {
            return Run::none();
        }
        if !comes_before(column, (y - side) / SQUARE, address) {
            return Run::none();
        }
        Run {
            samples: own,
            first: (y - side) * side + column * SQUARE,
            step: 1,
            count,
        }
    }

    /// The samples down a column from a square on, as far as the square's side goes. The square is
    /// in this row of squares, counted from the block's first one, and the column is counted from
    /// `side` at the block's first one.
    #[inline(always)]
    fn down_column<'b, const SQUARE: usize>(
        &'b self,
        own: &'b [u8],
        address: usize,
        x: usize,
        row: usize,
    ) -> Run<'b>
        requires square { self.now.side ≡ 8 * SQUARE }
        requires across { x < 2 * self.now.side }
        requires down { row < 16 }
        ensures { (i : ℕ) → i < SQUARE →
            look_around (spot_of self.now) (around_of self.now.around) own.now address
            x (self.now.side + (row * SQUARE + i)) ≡ seen_in result i }
    {
        let side = self.side;
        let (left, top) = (self.left + x, self.top + row * SQUARE);
        if left < side || left - side >= self.width {
            return Run::none();
        }
        let count = self.height.saturating_sub(top);
        if x < side {
            return run_on_right(self.around.left, row * SQUARE, count);
        }
        if row >= 8 {
            return Run::none();
        }
        if !comes_before((x - side) / SQUARE, row, address) {
            return Run::none();
        }
        Run {
            samples: own,
            first: row * SQUARE * side + (x - side),
            step: side,
            count,
        }
    }

    /// The neighbours of a transform block, one by one.
    fn line_by_samples(
        &self,
        own: &[u8],
        address: usize,
        x: usize,
        y: usize,
        log2: u8,
    ) -> [Option<u8>; 129]
        requires least { 2 ≤ log2 }
        requires most { log2 ≤ 5 }
        requires across { x + 2 ^ log2 ≤ self.now.side }
        requires down { y + 2 ^ log2 ≤ self.now.side }
        ensures { take (4 * 2 ^ log2 + 1) result ≡
            seen_line (spot_of self.now) (around_of self.now.around) own.now address x y log2 }
    {
        let n = 2 * side_of(log2);
        let (column, row) = (self.side + x, self.side + y);
        let mut line = [None; 129];
        for i in 0..n + 1 {
            line[i] = self.look(own, address, column - 1, row + (n - i) - 1);
        }
        for k in 0..n {
            line[n + 1 + k] = self.look(own, address, column + k, row - 1);
        }
        line
    }

    /// The neighbours of a transform block whose sides are multiples of those of squares.
    #[inline(always)]
    fn line_by_squares<'b, const SQUARE: usize>(
        &'b self,
        own: &'b [u8],
        address: usize,
        x: usize,
        y: usize,
        log2: u8,
    ) -> [Option<u8>; 129]
        requires least { 2 ≤ log2 }
        requires most { log2 ≤ 5 }
        requires square { self.now.side ≡ 8 * SQUARE }
        requires column { x % SQUARE ≡ 0 }
        requires row { y % SQUARE ≡ 0 }
        requires squares { 2 ^ log2 % SQUARE ≡ 0 }
        requires across { x + 2 ^ log2 ≤ self.now.side }
        requires down { y + 2 ^ log2 ≤ self.now.side }
        ensures { take (4 * 2 ^ log2 + 1) result ≡
            seen_line (spot_of self.now) (around_of self.now.around) own.now address x y log2 }
    {
        let n = 2 * side_of(log2);
        let (column, row, count) = (x / SQUARE, y / SQUARE, n / SQUARE);
        let mut line = [None; 129];
        for p in 0..count {
            let below = row + (count - p) - 1;
            let run = self.down_column::<SQUARE>(own, address, self.side + x - 1, below);
            for i in 0..SQUARE {
                line[p * SQUARE + i] = run.at(SQUARE - 1 - i);
            }
        }
        line[n] = self.look(own, address, self.side + x - 1, self.side + y - 1);
        for q in 0..count {
            let run = self.along_row::<SQUARE>(own, address, column + q, self.side + y - 1);
            for k in 0..SQUARE {
                line[n + 1 + q * SQUARE + k] = run.at(k);
            }
        }
        line
    }

    /// The neighbours of a transform block of 2^log2 columns and rows in this column and row, in
    /// the first 4 * 2^log2 + 1 places (8.4.4.2.2). Those along a side of a square are looked for at
    /// once, where the block consists of squares.
    pub fn line(
        &self,
        own: &[u8],
        address: usize,
        x: usize,
        y: usize,
        log2: u8,
    ) -> [Option<u8>; 129]
        requires least { 2 ≤ log2 }
        requires most { log2 ≤ 5 }
        requires across { x + 2 ^ log2 ≤ self.now.side }
        requires down { y + 2 ^ log2 ≤ self.now.side }
        ensures { take (4 * 2 ^ log2 + 1) result ≡
            seen_line (spot_of self.now) (around_of self.now.around) own.now address x y log2 }
    {
        let n = side_of(log2);
        if self.side == 64 && x % 8 == 0 && y % 8 == 0 && n % 8 == 0 {
            self.line_by_squares::<8>(own, address, x, y, log2)
        } else if self.side == 32 && x % 4 == 0 && y % 4 == 0 && n % 4 == 0 {
            self.line_by_squares::<4>(own, address, x, y, log2)
        } else {
            self.line_by_samples(own, address, x, y, log2)
        }
    }
}
