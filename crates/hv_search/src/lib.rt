//! Motion search over padded input pictures: for each node of a picture, and each picture to which
//! it refers, the vector of the definition.
#![tactic(auto)]

mod best;
mod block;
mod coarse;
mod field;
mod fraction;
mod full;
mod grid;
mod lanes;
mod motion;
mod nodes;
mod number;
mod part;
mod picture;
#[cfg(test)]
mod plain;
mod quarter;
mod scored;
mod source;
#[cfg(test)]
mod square;
#[cfg(test)]
mod tests;
mod vectors;
mod window;

pub use motion::Motion;
pub use picture::search_picture;
