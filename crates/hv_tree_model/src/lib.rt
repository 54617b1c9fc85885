//! Coding tree units as values: their trees, where their blocks and nodes lie, the units that come
//! earlier, plans of them, most probable modes, and which may be coded. All stands in `specs/`.
#![tactic(auto)]
