// Boxes around rings, and the square cells of the plane that they reach.
ghost use Rattle.std.specs.Prelude.{◌≡◌};
ghost use Rattle.geometry.specs.Boxes.{empty_box, extended, box_of, is_empty};
ghost use Rattle.geometry.specs.Cells.{cell_of, cells_of};

use crate::number::{floor, maximum, minimum};
use crate::ring::{Point, point_at};

// The least box around some points.
#[derive(Clone, Copy, Debug, PartialEq)]
pub struct Bbox {
    pub min_x: f64,
    pub min_y: f64,
    pub max_x: f64,
    pub max_y: f64,
}

impl Bbox {
    // Boxes and intervals that are less than this apart touch, in metres.
    pub const GAP: f64 = 1e-12;

    // The box around no point: it takes on the first one that it is extended by.
    pub const EMPTY: Self = Self {
        min_x: f64::INFINITY,
        min_y: f64::INFINITY,
        max_x: f64::NEG_INFINITY,
        max_y: f64::NEG_INFINITY,
    };

    // The same, and what it is.
    pub fn empty() -> Self
        ensures { result ≡ empty_box }
    {
        Self::EMPTY
    }

    // Whether there is no point that the box could hold.
    #[tactic(auto, unfolding(crate::specs::Boxes::is_empty))]
    pub fn is_empty(self) -> bool
        ensures { result ≡ is_empty self }
    {
        self.min_x > self.max_x || self.min_y > self.max_y
    }

    // The box with one more point in it.
    #[tactic(auto, unfolding(crate::specs::Boxes::extended))]
    pub fn extend_point(self, p: Point) -> Self
        ensures { result ≡ extended self p }
    {
        Self {
            min_x: minimum(self.min_x, p.x),
            min_y: minimum(self.min_y, p.y),
            max_x: maximum(self.max_x, p.x),
            max_y: maximum(self.max_y, p.y),
        }
    }

    // The box around the points of a ring.
    #[tactic(auto, unfolding(crate::specs::Boxes::box_of_first, crate::specs::Boxes::box_of))]
    pub fn from_points(ring: &[f64]) -> Self
        ensures { result ≡ box_of ring.now }
    {
        let n = ring.len() / 2;
        let mut bounds = Bbox::empty();
        for i in 0..n {
            bounds = bounds.extend_point(point_at(ring, i));
        }
        bounds
    }
}

// The cell of a coordinate.
#[tactic(auto, unfolding(crate::specs::Cells::cell_of))]
pub fn cell(x: f64) -> i64
    ensures { result ≡ cell_of x }
{
    floor(x / Cells::SIDE)
}

// The cells that a box reaches: from x0 to x1 and from y0 to y1, the ends included.
#[derive(Clone, Copy, Debug, PartialEq, Eq)]
pub struct Cells {
    pub x0: i64,
    pub y0: i64,
    pub x1: i64,
    pub y1: i64,
}

impl Cells {
    // The side of a cell, in metres.
    pub const SIDE: f64 = 4e-6;

    // The cells of a box, from its corners.
    #[tactic(auto, unfolding(crate::specs::Cells::cells_of))]
    pub fn of_box(bounds: Bbox) -> Self
        ensures { result ≡ cells_of bounds }
    {
        Self {
            x0: cell(bounds.min_x),
            y0: cell(bounds.min_y),
            x1: cell(bounds.max_x),
            y1: cell(bounds.max_y),
        }
    }
}
