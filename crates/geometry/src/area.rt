// The area of a ring, by the sum over its edges.
ghost use Rattle.std.specs.Prelude.{◌≡◌};
ghost use Rattle.geometry.specs.Area.{cross_of, signed_area_of, area_of};

use crate::number::size;
use crate::ring::{Point, point_at};

// a.x * b.y - b.x * a.y, for an edge from a to b.
#[tactic(auto, unfolding(crate::specs::Area::cross_of))]
fn cross(a: Point, b: Point) -> f64
    ensures { result ≡ cross_of a b }
{
    a.x * b.y - b.x * a.y
}

// The area of a ring, negative where it winds clockwise; 0 under 3 points.
pub fn polygon_signed_area(ring: &[f64]) -> f64
    ensures { result ≡ signed_area_of ring.now }
{
    let n = ring.len() / 2;
    if n < 3 {
        return 0.0;
    }
    let first = point_at(ring, 0);
    let mut here = first;
    let mut sum = 0.0;
    for i in 1..n {
        let next = point_at(ring, i);
        sum += cross(here, next);
        here = next;
    }
    (sum + cross(here, first)) / 2.0
}

// The area of a ring: the sign dropped.
#[tactic(auto, unfolding(crate::specs::Area::area_of))]
pub fn polygon_area(ring: &[f64]) -> f64
    ensures { result ≡ area_of ring.now }
{
    size(polygon_signed_area(ring))
}
