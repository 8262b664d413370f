// One edge of a ring, at one height.
ghost use Rattle.std.specs.Prelude.{◌≡◌};
ghost use Rattle.geomops.specs.Edge.{crossing_at, side_of, counted_sides};

use geometry::Point;

// Where the line through a and b is at height y.
#[tactic(auto, unfolding(crate::specs::Edge::crossing_at))]
pub fn crossing(a: Point, b: Point, y: f64) -> f64
    ensures { result ≡ crossing_at a b y }
{
    a.x + (y - a.y) / (b.y - a.y) * (b.x - a.x)
}

// On which side of a line a point is: at or below it, or strictly above. A NaN is on neither. Two flags, since `counted` takes every pair of them.
#[derive(Clone, Copy, Debug, PartialEq, Eq)]
pub struct Side {
    pub low: bool,
    pub high: bool,
}

// On which side of the line at height y a point of height h is. What is at or below is not above, so most points take one test.
#[tactic(auto, using(floats::proofs::Laws::Order::le_not_lt), unfolding(crate::specs::Edge::side_of))]
pub fn side_at(h: f64, y: f64) -> Side
    ensures { result ≡ side_of h y }
{
    if h <= y {
        return Side {
            low: true,
            high: false,
        };
    }
    Side {
        low: false,
        high: y < h,
    }
}

// Whether an edge counts: one end at or below the line, the other strictly above.
#[tactic(auto, unfolding(crate::specs::Edge::counted_sides))]
pub fn counted(a: Side, b: Side) -> bool
    ensures { result ≡ counted_sides a b }
{
    a.low && b.high || b.low && a.high
}
