// Crossings, bands and rectangles: rings in the plane by the intervals that they have on horizontal lines.
// A ring is a flat list of coordinates in metres, x then y of each point. Work lists are lent by the caller. What writes the front of one hands
// back how many numbers it wrote, and not that part alone, since what stands behind is promised too.
#![tactic(auto)]

pub mod edge;
pub mod heights;
pub mod intersection;
pub mod intervals;
pub mod minus;
pub mod pieces;
pub mod polygons;
pub mod rects;
pub mod sort;

pub use edge::crossing;
pub use heights::{bands, line_between, ring_bands, sorted_heights};
pub use intervals::x_intervals_at;
pub use pieces::{Operation, pieces_between};
pub use polygons::{Work, pieces_sorted, polygon_intersection_rects, polygon_minus_polygon};
pub use rects::{NoRoom, Rect, rect_at, rects_area};
