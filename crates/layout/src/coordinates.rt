// Which coordinates are allowed.

ghost use Rattle.std.specs.Prelude.{◌≡◌};
ghost use Rattle.floats.specs.Kinds.{negative_zero};
ghost use Rattle.geometry.specs.Coordinates.{coordinate};
ghost use Rattle.layout.specs.Coordinates.{bad_coordinate};

// Whether x is a zero with the minus sign: 1 divided by a zero has its sign. By the sign bit a search through a list takes longer.
#[tactic(auto, using(crate::proofs::Laws::Coordinates::sign_of_zero, crate::proofs::Laws::Coordinates::no_zero))]
fn is_negative_zero(x: f64) -> bool
    ensures { result ≡ negative_zero x }
{
    x == 0.0 && 1.0 / x < 0.0
}

// Whether x is finite, from -0.125 to 0.125, and not negative zero.
#[tactic(auto, unfolding(geometry::specs::Coordinates::coordinate))]
pub fn is_coordinate(x: f64) -> bool
    ensures { result ≡ coordinate x }
{
    -0.125 <= x && x <= 0.125 && !is_negative_zero(x)
}

// The first coordinate of a list that is out of bounds.
pub fn bad_coordinate(list: &[f64]) -> Option<usize>
    ensures { result ≡ bad_coordinate list.now }
{
    list.iter().position(|x| !is_coordinate(*x))
}
