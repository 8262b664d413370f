// The words of a line, parted by single spaces: names of kinds, whole numbers, floats and rings. Behind a line's end there are spaces.
ghost use Rattle.std.specs.Prelude.{◌≡◌, ◌+◌, ◌*◌, ◌==◌, ◌<◌, not, min, length, drop, take_while, slice_index_or};
ghost use Rattle.std.specs.List.{prefix_len};
ghost use Rattle.std.specs.Slice.Iter.{iter_rest};
ghost use Rattle.jobs.specs.Number.{number_of, behind_number};

use std::marker::Model;
use std::num::f64_from_bits_with_nan;
use std::slice::Iter;

// How many hexadecimal digits a float has.
const DIGITS: usize = 16;

// What is left to be read of a line.
#[derive(Clone, Drop)]
pub struct Words<'a> {
    bytes: Iter<'a, u8>,
}

impl<'a> Model for Words<'a> {
    ghost use Rattle.std.specs.Prelude.{ℕ, List};
    ghost use Rattle.std.specs.Slice.Iter.{iter_rest};

    ghost Value = { List ℕ };

    ghost view = { λ w. iter_rest w.bytes };
}

impl<'a> Words<'a> {
    pub fn new(line: &'a [u8]) -> Self
        ensures { result ≡ line.now }
    {
        Words { bytes: line.iter() }
    }

    // The bytes that are left.
    pub fn rest(&self) -> &'a [u8]
        ensures { result.now ≡ self.now }
    {
        self.bytes.as_slice()
    }

    // The next byte.
    pub fn byte(&mut self) -> u8
        ensures value { result ≡ slice_index_or self.old 0 32 }
        ensures rest { self.new ≡ drop 1 self.old }
    {
        self.bytes.next().copied().unwrap_or(b' ')
    }

    // The bytes up to the next space, which is passed over.
    pub fn word(&mut self) -> &'a [u8]
        ensures value { result.now ≡ take_while (λ b. not (b == 32)) self.old }
        ensures rest { self.new ≡ drop (length result.now + 1) self.old }
    {
        let rest = self.rest();
        let (word, rest) = rest.split_at(word_length(rest));
        self.bytes = rest.iter();
        self.byte();
        word
    }

    // The whole number up to the next byte that is no digit, which is passed over; its last nine digits count.
    pub fn number(&mut self) -> usize
        ensures low { result < 1000000000 }
        ensures value { result ≡ number_of self.old }
        ensures rest { self.new ≡ behind_number self.old }
    {
        let mut value = 0;
        while let Some(d) = char::from(self.byte()).to_digit(10) {
            value = value % 100000000 * 10 + d as usize;
        }
        value
    }

    // The float of the next 16 hexadecimal digits; the byte behind them is passed over.
    pub fn real(&mut self) -> f64
        ensures { self.new ≡ drop 17 self.old }
    {
        let mut bits = 0u64;
        for _ in 0..DIGITS {
            bits = bits << 4 | hex_digit(self.byte());
        }
        self.byte();
        f64_from_bits_with_nan(bits)
    }

    // Reads a float into each place of a list.
    pub fn reals(&mut self, list: &mut [f64])
        ensures { self.new ≡ drop (17 * length list.old) self.old }
    {
        for x in list.iter_mut() {
            *x = self.real();
        }
    }

    // Reads a ring, its number of points and then x and y of each, into the front of a list, as far as that has room.
    pub fn ring<'b>(&mut self, list: &'b mut [f64]) -> &'b [f64]
        ensures size { length result.now ≡ min (length list.old) (2 * number_of self.old) }
        ensures rest { self.new ≡ drop (17 * length result.now) (behind_number self.old) }
    {
        let size = list.len().min(2 * self.number());
        self.reals(&mut list[..size]);
        &list[..size]
    }
}

// How many bytes stand before the first space.
fn word_length(line: &[u8]) -> usize
    ensures { result ≡ prefix_len (λ b. not (b == 32)) line.now }
{
    line.iter().take_while(|b| **b != b' ').count()
}

// A hexadecimal digit's value; 0 for every other byte, where `to_digit` would also read A to F.
fn hex_digit(b: u8) -> u64
    ensures { result < 16 }
{
    match b {
        b'0'..=b'9' => u64::from(b - b'0'),
        b'a'..=b'f' => u64::from(b - b'a') + 10,
        _ => 0,
    }
}
