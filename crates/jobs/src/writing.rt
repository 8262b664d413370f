// The answer to a job, written into memory that is lent.
ghost use Rattle.std.specs.Prelude.{◌≡◌, [], ◌∷◌, length, IsOk, Some};
ghost use Rattle.jobs.specs.Text.{Text, put, sixteen_digits};
ghost use lib.Ieee.{binary64, to_bits};

use itoa::{Buffer, Integer};
use std::fmt;
use std::marker::Model;
use std::num::f64_to_bits_with_nan;

// An answer that is being written: the first `len` bytes of `out`. What has no room is left out.
#[derive(Drop)]
pub struct Answer<'a> {
    out: &'a mut [u8],
    len: usize,
}

impl<'a> Model for Answer<'a> {
    ghost use Rattle.std.specs.Prelude.{◌≤◌, length, take};
    ghost use Rattle.jobs.specs.Text.{Text};

    ghost Value = { Text };

    ghost view = { λ a. record { bytes = take a.len a.out.now; room = length a.out.now } };

    ghost invariant = { λ a. a.len ≤ length a.out.now };
}

impl<'a> Answer<'a> {
    pub fn new(out: &'a mut [u8]) -> Self
        ensures { result ≡ record { bytes = []; room = length out.old } }
    {
        Answer { out, len: 0 }
    }

    pub fn written(&self) -> &[u8]
        ensures { result.now ≡ self.now.bytes }
    {
        &self.out[..self.len]
    }

    // Puts a byte behind those already there.
    pub fn put_byte(&mut self, b: u8)
        ensures { self.new ≡ put self.old (b ∷ []) }
    {
        if self.len < self.out.len() {
            self.out[self.len] = b;
            self.len += 1;
        }
    }

    // The same of some bytes, which need be no text.
    pub fn put_bytes(&mut self, bytes: &[u8])
        ensures { self.new ≡ put self.old bytes.now }
    {
        let n = (self.out.len() - self.len).min(bytes.len());
        self.out[self.len..self.len + n].copy_from_slice(&bytes[..n]);
        self.len += n;
    }

    // The same of a whole number, in decimal; sooner than by `write!`.
    pub fn put_number<N: Integer>(&mut self, n: N)
        ensures { self.new ≡ put self.old (N.text n) }
    {
        let mut buffer = Buffer::new();
        self.put_bytes(buffer.format(n).as_bytes());
    }
}

impl fmt::Write for Answer<'_> {
    ghost write_str_gives = { λ a text b. b ≡ put a text };

    fn write_str(&mut self, text: &str) -> fmt::Result
        ensures ok { IsOk result → self.new ≡ put self.old text.now }
        ensures never_fails { IsOk result }
    {
        self.put_bytes(text.as_bytes());
        Ok(())
    }
}

// A float, written as the 16 hexadecimal digits of its bits; of a NaN the usual ones.
#[derive(Clone, Copy, Debug, PartialEq)]
pub struct Bits(pub f64);

impl fmt::Display for Bits {
    ghost output = { λ b. Some (sixteen_digits (to_bits binary64 b.0)) };

    fn fmt<W: fmt::Write>(&self, f: &mut fmt::Formatter<W>) -> fmt::Result {
        let bits = f64_to_bits_with_nan(self.0);
        write!(f, "{bits:016x}")
    }
}
