// A layout: the rings of its polygons, and the front door, which admits an input or refuses it with a number and a place.
#![tactic(auto)]

pub mod bounds;
pub mod coordinates;
pub mod counts;
pub mod door;
pub mod job;
pub mod records;
pub mod refusal;
pub mod rings;
