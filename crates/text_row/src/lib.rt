//! A buffer for one row of text, which is written again and again.
//!
//! Whoever prints rows keeps one `TextRow` and lends it for each. Clearing it sets its length
//! alone, and writing takes no memory.
#![tactic(auto)]

ghost use Rattle.std.specs.Prelude.{◌≡◌, ◌+◌, ◌<◌, ◌≤◌, [], ◌∷◌, ◌++◌, length, decimal};

use std::marker::Model;

/// The most bytes of a row.
pub const MAX_ROW: usize = 320;

/// The most digits of a u32.
const MAX_DIGITS: usize = 10;

/// A row of text: at most 320 bytes, the line feed among them. Contracts see the list of its bytes.
#[derive(Drop)]
pub struct TextRow {
    // The row is the first `len` bytes; what lies behind them is left of longer rows.
    bytes: [u8; MAX_ROW],
    len: usize,
}

impl Model for TextRow {
    ghost use Rattle.std.specs.Prelude.{ℕ, List, ◌≤◌, take};

    ghost Value = { List ℕ };

    ghost view = { λ r. take r.len r.bytes };

    ghost invariant = { λ r. r.len ≤ 320 };
}

impl TextRow {
    /// An empty row.
    pub fn new() -> TextRow
        ensures { result ≡ [] }
    {
        TextRow {
            bytes: [0; MAX_ROW],
            len: 0,
        }
    }

    /// The bytes of the row.
    pub fn bytes(&self) -> &[u8]
        ensures bytes { result.now ≡ self.now }
        ensures fits { length self.now ≤ 320 }
    {
        &self.bytes[..self.len]
    }

    /// Empties the row.
    pub fn clear(&mut self)
        ensures { self.new ≡ [] }
    {
        self.len = 0;
    }

    /// Adds the byte.
    pub fn push(&mut self, byte: u8)
        requires { length self.old < 320 }
        ensures { self.new ≡ self.old ++ byte ∷ [] }
    {
        self.bytes[self.len] = byte;
        self.len += 1;
    }

    /// Adds the bytes as they are.
    pub fn push_bytes(&mut self, bytes: &[u8])
        requires { length self.old + length bytes.now ≤ 320 }
        ensures { self.new ≡ self.old ++ bytes.now }
    {
        let end = self.len + bytes.len();
        self.bytes[self.len..end].copy_from_slice(bytes);
        self.len = end;
    }

    /// Adds the number in decimal digits, at most ten.
    #[tactic(auto, using(std::proofs::lemmas::Fmt::decimal_digit))]
    pub fn push_number(&mut self, number: u32)
        requires { length self.old ≤ 310 }
        ensures text { self.new ≡ self.old ++ decimal number }
        ensures grows { length self.new ≤ length self.old + 10 }
    {
        // most numbers of a log have one digit
        if number < 10 {
            self.push(b'0' + number as u8);
        } else {
            self.push_digits(number);
        }
    }

    fn push_digits(&mut self, number: u32)
        requires { length self.old ≤ 310 }
        ensures text { self.new ≡ self.old ++ decimal number }
        ensures grows { length self.new ≤ length self.old + 10 }
    {
        let mut digits = [0; MAX_DIGITS];
        let start = itoa::write_digits(u64::from(number), &mut digits, MAX_DIGITS);
        self.push_bytes(&digits[start..]);
    }
}
