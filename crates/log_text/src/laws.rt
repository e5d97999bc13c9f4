//! What rows and texts of a log tell.
ghost use Rattle.std.specs.Prelude.{◌≡◌, ℕ, List, All};
ghost use Rattle.irq_base.specs.declared.entries.Entry.{Entry};
ghost use Rattle.irq_base.specs.declared.numbers.LineNo.{LineNo};
ghost use Rattle.log_text.specs.Formed.{IsRowOf, IsSmall, IsWritable};
ghost use Rattle.log_text.specs.Rows.{history_text};

/// A row tells its line and its entry: if two entries that can be written differ, or their lines
/// do, then their rows differ.

pub fn rows_tell_entries()
    ensures law { (row : List ℕ) (line other : LineNo) (e f : Entry) → IsRowOf row line e
        → IsRowOf row other f → (line ≡ other) × (e ≡ f) }
{}

/// The text of a line's history tells the history: if two histories of entries that can be written
/// differ, then their texts differ.
#[tactic(auto, using(crate::proofs::RowLaws::all_texts_tell))]
pub fn texts_tell_histories()
    ensures law { (line : LineNo) (es fs : List Entry) → IsSmall line.0 → All IsWritable es
        → All IsWritable fs
        → history_text line es ≡ history_text line fs → es ≡ fs }
{}
