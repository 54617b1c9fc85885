//! The 8x8 squares of a coding tree block in z-scan order (6.5.2), and the nodes of its quadtree.

ghost use Rattle.std.specs.Prelude.{◌≡◌, ◌<◌, ◌≤◌, ◌*◌, ◌^◌};
ghost use Rattle.hv_tree_model.specs.Sites.{address_of, column_of, row_of, squares, x0, y0, is_outside, crosses};

use crate::site::Site;

/// The column of an address.
#[inline(always)]
#[tactic(auto, unfolding(hv_tree_model::specs::Sites::column_of))]
pub fn column_of(address: u8) -> u8
    requires { address < 64 }
    ensures value { result ≡ column_of address }
    ensures most { result < 8 }
{
    address % 2 + 2 * (address / 4 % 2) + 4 * (address / 16 % 2)
}

/// The row of an address.
#[inline(always)]
#[tactic(auto, unfolding(hv_tree_model::specs::Sites::row_of))]
pub fn row_of(address: u8) -> u8
    requires { address < 64 }
    ensures value { result ≡ row_of address }
    ensures most { result < 8 }
{
    address / 2 % 2 + 2 * (address / 8 % 2) + 4 * (address / 32 % 2)
}

/// The address of a column and a row.
#[inline(always)]
#[tactic(auto, unfolding(hv_tree_model::specs::Sites::address_of))]
pub fn address_of(column: u8, row: u8) -> u8
    requires column { column < 8 }
    requires row { row < 8 }
    ensures value { result ≡ address_of column row }
    ensures most { result < 64 }
{
    column % 2
        + 2 * (row % 2)
        + 4 * (column / 2 % 2)
        + 8 * (row / 2 % 2)
        + 16 * (column / 4 % 2)
        + 32 * (row / 4 % 2)
}

/// How many squares a node of this size has.
#[inline(always)]
pub fn squares(size: u8) -> u8
    requires { size ≤ 2 }
    ensures value { result ≡ squares size }
    ensures most { result ≤ 16 }
{
    if size == 0 {
        return 1;
    }
    if size == 1 {
        return 4;
    }
    16
}

/// The side of a node in luma samples.
#[inline(always)]
fn side(size: u8) -> u64
    requires { size ≤ 3 }
    ensures value { result ≡ 8 * 2 ^ size }
    ensures most { result ≤ 64 }
{
    8 << size
}

/// How many luma samples stand at the left of a node in the picture.
#[inline(always)]
fn left_edge(site: &Site, address: u8) -> u64
    requires { address < 64 }
    ensures value { result ≡ x0 site.now.place address }
    ensures most { result < 549755813888 }
{
    64 * u64::from(site.column) + 8 * u64::from(column_of(address))
}

/// How many luma samples stand above a node in the picture.
#[inline(always)]
fn top_edge(site: &Site, address: u8) -> u64
    requires { address < 64 }
    ensures value { result ≡ y0 site.now.place address }
    ensures most { result < 549755813888 }
{
    64 * u64::from(site.row) + 8 * u64::from(row_of(address))
}

/// Whether a node begins outside the picture.
#[inline(always)]
#[tactic(auto, unfolding(hv_tree_model::specs::Sites::is_outside))]
pub fn is_outside(site: &Site, address: u8) -> bool
    requires { address < 64 }
    ensures { result ≡ is_outside site.now.place address }
{
    left_edge(site, address) >= u64::from(site.place.width)
        || top_edge(site, address) >= u64::from(site.place.height)
}

/// Whether a node crosses the picture's right or bottom edge.
#[inline(always)]
#[tactic(auto, unfolding(hv_tree_model::specs::Sites::crosses))]
pub fn crosses(site: &Site, size: u8, address: u8) -> bool
    requires size { size ≤ 3 }
    requires address { address < 64 }
    ensures { result ≡ crosses site.now.place size address }
{
    left_edge(site, address) + side(size) > u64::from(site.place.width)
        || top_edge(site, address) + side(size) > u64::from(site.place.height)
}
