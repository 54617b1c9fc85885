//! Where the 8x8 squares of a coding tree block lie, and what is near them: addresses in z-scan
//! order (6.5.2), a block's place in its picture (6.5.1), and in the definitions the squares that a
//! plan has and the blocks around. Nothing here takes memory, and each call always answers.
#![tactic(auto)]

mod addresses;
mod site;

pub use addresses::{address_of, column_of, crosses, is_outside, row_of, squares};
pub use site::Site;
