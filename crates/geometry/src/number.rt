// Small functions on numbers, as f64's own are on numbers that are no NaN.
ghost use Rattle.std.specs.Prelude.{◌≡◌};
ghost use Rattle.geometry.specs.Number.{lesser, greater, size_of, floor_of};

use std::num::saturating_f64_to_i64;

// The lesser of two numbers; the first where neither is. f64's `min` leaves open which of two zeros comes back, and passes over a NaN.
#[tactic(auto, unfolding(crate::specs::Number::lesser))]
pub fn minimum(a: f64, b: f64) -> f64
    ensures { result ≡ lesser a b }
{
    if b < a { b } else { a }
}

// The greater of two numbers; the first where neither is. The same of f64's `max`.
#[tactic(auto, unfolding(crate::specs::Number::greater))]
pub fn maximum(a: f64, b: f64) -> f64
    ensures { result ≡ greater a b }
{
    if a < b { b } else { a }
}

// x with its sign dropped, negative zero's too.
#[tactic(auto, using(crate::proofs::Laws::Size::size_is))]
pub fn size(x: f64) -> f64
    ensures { result ≡ size_of x }
{
    x.abs()
}

// The greatest whole number that is not above x; 0 for a NaN, and the nearest end of the range where it is out of it.
#[tactic(auto, using(crate::proofs::Laws::Floor::floored))]
pub fn floor(x: f64) -> i64
    ensures { result ≡ floor_of x }
{
    saturating_f64_to_i64(x.floor())
}
