// All answers of a routing, read once into arrays, and asked in its place.
#![tactic(auto)]

mod answers;
mod reading;
mod row;
mod table;

pub use table::Table;
