// The items of a list, written one behind the other.
ghost use Rattle.std.specs.Iterator.{IsFinite};

use itoa::Integer;
use jobs::writing::Answer;
use std::fmt;
use std::fmt::{Display, Write};

// A space in front of each.
pub fn put_list<T: Display + Drop, I: Iterator<Item = T>>(
    items: I,
    out: &mut Answer<'_>,
) -> fmt::Result
    requires { I.can_next items × IsFinite (I.remaining items) }
{
    for x in items {
        write!(out, " {x}")?;
    }
    Ok(())
}

// The same of whole numbers.
pub fn put_numbers<N: Integer, I: Iterator<Item = N>>(items: I, out: &mut Answer<'_>)
    requires { I.can_next items × IsFinite (I.remaining items) }
{
    for n in items {
        out.put_byte(b' ');
        out.put_number(n);
    }
}
