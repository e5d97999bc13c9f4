//! The kept rows.
ghost use Rattle.std.specs.Prelude.{◌≡◌, ◌<◌, ◌≤◌, [], true, IfSome, length, slice_get};
ghost use Rattle.irq_base.specs.Packed.{unpack};
ghost use Rattle.log_text.specs.EntryWords.{IsPrintable};
ghost use Rattle.log_text.specs.Rows.{entry_text};
ghost use Rattle.log_text.specs.Kept.{IsKept};

use crate::entry_row;
use crate::places::{PLACES, place_of};
use irq_base::{DevNo, Entry, History, LineNo, Packed, ThreadEntry};
use std::marker::Model;
use text_row::TextRow;

/// The most bytes of a row that is kept.
const LONGEST_KEPT: usize = 48;

/// A row, with its line and the word of its entry. It takes 64 bytes.
#[derive(Clone, Copy)]
struct KeptRow {
    word: Packed,
    line: LineNo,
    // The row is the first `len` bytes; what lies behind them is left of longer rows.
    len: u32,
    bytes: [u8; LONGEST_KEPT],
}

/// The rows of a log that were made last: each of its places keeps one. It takes no memory.
///
/// A row is kept by the word that its entry is packed into. An entry that no word holds, since a
/// number of it is too large, has its row made each time, and so has one whose row has more than
/// 48 bytes.
#[derive(Drop)]
pub struct KeptRows {
    rows: [KeptRow; PLACES],
    // Where a row is made.
    row: TextRow,
}

impl Model for KeptRows {
    ghost use Rattle.std.specs.Prelude.{All, List};
    ghost use Rattle.log_text.specs.declared.kept.KeptRow.{KeptRow};
    ghost use Rattle.log_text.specs.Kept.{IsKept};

    ghost Value = { List KeptRow };

    ghost view = { λ k. k.rows };

    ghost invariant = { λ k. All IsKept k.rows };
}

impl KeptRows {
    /// One row in every place.
    pub fn new() -> KeptRows {
        let mut row = TextRow::new();
        let kept = KeptRow::first(&mut row);
        KeptRows {
            rows: [kept; PLACES],
            row,
        }
    }

    /// The row of an entry of the line, kept or made anew.
    #[inline(always)]
    pub fn row_of(&mut self, line: LineNo, entry: &Entry) -> &[u8]
        requires { IsPrintable entry.now }
        ensures { result.now ≡ entry_text line entry.now }
    {
        match Packed::pack(*entry) {
            Some(word) => self.kept(line, word),
            None => self.made(line, entry),
        }
    }

    /// The row of the entry at index `place`, counted from 0, of the line's history, kept or made
    /// anew. It is found by the word that the history has of the entry, so that no entry is made of
    /// a word, and no word of an entry.
    pub fn row_at(&mut self, line: LineNo, history: &History, place: usize) -> &[u8]
        requires within { place < length history.now.entries }
        requires printable { IfSome (slice_get history.now.entries place) IsPrintable }
        ensures { IfSome (slice_get history.now.entries place)
            (λ e. result.now ≡ entry_text line e) }
    {
        match history.word(place) {
            Some(word) => self.kept(line, word),
            None => self.made_at(line, history, place),
        }
    }

    // The row of the word's entry: the kept one, or made anew and kept.
    fn kept(&mut self, line: LineNo, word: Packed) -> &[u8]
        requires { IsPrintable (unpack [] word) }
        ensures { result.now ≡ entry_text line (unpack [] word) }
    {
        let place = place_of(line, word);
        if !self.rows[place].is_of(line, word) {
            return self.made_for(place, line, word);
        }
        let kept = &*self;
        kept.rows[place].bytes()
    }

    // The row of the word's entry, made anew, and kept at `place` unless it is too long. It stands
    // apart, so that a row that is found costs no place on the stack for one that is made.
    #[inline(never)]
    fn made_for(&mut self, place: usize, line: LineNo, word: Packed) -> &[u8]
        requires within { place < 512 }
        requires printable { IsPrintable (unpack [] word) }
        ensures { result.now ≡ entry_text line (unpack [] word) }
    {
        let entry = word.unpack(&[]);
        entry_row(&mut self.row, line, &entry);
        let row = self.row.bytes();
        if row.len() <= LONGEST_KEPT {
            self.rows[place].keep(line, word, row);
        }
        row
    }

    // The row of an entry of the line that no word holds. It isn't kept.
    #[inline(never)]
    fn made(&mut self, line: LineNo, entry: &Entry) -> &[u8]
        requires { IsPrintable entry.now }
        ensures { result.now ≡ entry_text line entry.now }
    {
        entry_row(&mut self.row, line, entry);
        self.row.bytes()
    }

    // The row of an entry of the line's history, made of the entry.
    #[inline(never)]
    fn made_at(&mut self, line: LineNo, history: &History, place: usize) -> &[u8]
        requires within { place < length history.now.entries }
        requires printable { IfSome (slice_get history.now.entries place) IsPrintable }
        ensures { IfSome (slice_get history.now.entries place)
            (λ e. result.now ≡ entry_text line e) }
    {
        let Some(entry) = history.get(place) else {
            unreachable!();
        };
        self.made(line, &entry)
    }
}

impl KeptRow {
    // The row that each place begins with.
    fn first(row: &mut TextRow) -> KeptRow
        ensures { IsKept result }
    {
        let entry = Entry::Thread(DevNo(0), ThreadEntry::Done);
        let Some(word) = Packed::pack(entry) else {
            unreachable!();
        };
        let mut kept = KeptRow {
            word,
            line: LineNo(0),
            len: 0,
            bytes: [0; LONGEST_KEPT],
        };
        entry_row(row, LineNo(0), &entry);
        kept.keep(LineNo(0), word, row.bytes());
        kept
    }

    // Makes it this row, that of the word's entry of the line.
    fn keep(&mut self, line: LineNo, word: Packed, row: &[u8])
        requires short { length row.now ≤ 48 }
        requires row { row.now ≡ entry_text line (unpack [] word) }
        ensures { IsKept self.new }
    {
        self.bytes[..row.len()].copy_from_slice(row);
        self.len = row.len() as u32;
        self.line = line;
        self.word = word;
    }

    // Whether it is the row of the word's entry of the line.
    fn is_of(&self, line: LineNo, word: Packed) -> bool
        ensures { result ≡ true → (self.now.line ≡ line) × (self.now.word ≡ word) }
    {
        self.word == word && self.line == line
    }

    // The bytes of the row.
    fn bytes(&self) -> &[u8]
        requires { IsKept self.now }
        ensures { result.now ≡ entry_text self.now.line (unpack [] self.now.word) }
    {
        &self.bytes[..self.len as usize]
    }
}
