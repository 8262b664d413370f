// The points of a ring.
ghost use Rattle.std.specs.Prelude.{◌≡◌, ◌<◌};
ghost use Rattle.geometry.specs.Ring.{points_in, point_at};

#[derive(Clone, Copy, Debug, PartialEq)]
pub struct Point {
    pub x: f64,
    pub y: f64,
}

impl Point {
    // Heights less than this apart are one, and a width that is not above it counts for nothing, in metres.
    pub const RESOLUTION: f64 = 1e-15;
}

// Point i of a ring.
#[tactic(auto, unfolding(crate::specs::Ring::point_at))]
pub fn point_at(ring: &[f64], i: usize) -> Point
    requires { i < points_in ring.now }
    ensures { result ≡ point_at ring.now i }
{
    Point {
        x: ring[2 * i],
        y: ring[2 * i + 1],
    }
}
