// Why a call is refused, and where.

ghost use Rattle.std.specs.Prelude.{◌≡◌, ◌++◌, Some, codes};
ghost use Rattle.std.specs.Fmt.{decimal};
ghost use Rattle.layout.specs.Answers.{number_of, place_of, answer_number, answer_place};

use std::error::Error;
use std::fmt;

// What is wrong with an input, with the place of it in each case.
#[derive(Clone, Copy, Debug, PartialEq, Eq)]
pub enum Refusal {
    ShortList(usize),
    OverCount(usize),
    Uneven,
    Coordinate(usize),
    Name(usize),
    OverResult(usize),
}

impl Refusal {
    // The number of this answer in the table of answers, which is what is printed.
    pub fn number(self) -> usize
        ensures { result ≡ number_of self }
    {
        match self {
            Refusal::ShortList(_) => 1,
            Refusal::OverCount(_) => 2,
            Refusal::Uneven => 3,
            Refusal::Coordinate(_) => 4,
            Refusal::Name(_) => 5,
            Refusal::OverResult(_) => 6,
        }
    }

    // Its place.
    pub fn place(self) -> usize
        ensures { result ≡ place_of self }
    {
        match self {
            Refusal::Uneven => 0,
            Refusal::ShortList(k)
            | Refusal::OverCount(k)
            | Refusal::Coordinate(k)
            | Refusal::Name(k)
            | Refusal::OverResult(k) => k,
        }
    }
}

impl fmt::Display for Refusal {
    ghost output = { λ r. Some (codes "refused: " ++ (decimal (number_of r) ++ (codes " at " ++ decimal (place_of r)))) };

    fn fmt<W: fmt::Write>(&self, f: &mut fmt::Formatter<W>) -> fmt::Result {
        let number = self.number();
        let place = self.place();
        write!(f, "refused: {number} at {place}")
    }
}

impl Error for Refusal {}

// The number of an answer in the table, 0 for an accepted call.
pub fn answer_number(answer: Result<(), Refusal>) -> usize
    ensures { result ≡ answer_number answer }
{
    answer.map_or_else(Refusal::number, |_| 0)
}

// Its place, 0 for an accepted call.
pub fn answer_place(answer: Result<(), Refusal>) -> usize
    ensures { result ≡ answer_place answer }
{
    answer.map_or_else(Refusal::place, |_| 0)
}
