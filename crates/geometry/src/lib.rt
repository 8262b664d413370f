// Numbers, points, boxes, cells and areas: what geometry.rs gives the connectivity part.
// A ring is a flat list of coordinates in metres, x then y of each point; a last number without its partner counts for nothing.
#![tactic(auto)]

pub mod area;
pub mod boxes;
pub mod number;
pub mod ring;

pub use area::{polygon_area, polygon_signed_area};
pub use boxes::{Bbox, Cells, cell};
pub use number::{floor, maximum, minimum, size};
pub use ring::{Point, point_at};
