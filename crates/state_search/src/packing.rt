//! The numbers of a state as bytes: most are small, and take one byte each.
ghost use Rattle.std.specs.Prelude.{◌≡◌, ◌+◌, ◌*◌, ◌<◌, ◌≤◌, [], ◌∷◌, ◌++◌, length, drop, IfOk};
ghost use Rattle.std.specs.Prelude.{OnOk};
ghost use Rattle.state_search.specs.Packed.{IsPacked, packed_word, unpacked};

use irq_base::NoMemory;

/// The byte before a number that takes four bytes. A number below it takes one.
const WIDE: u8 = 255;

/// Puts the numbers into `bytes`, which is empty. The only error is `NoMemory`.
pub(crate) fn pack(bytes: &mut Vec<u8>, words: &[u32]) -> Result<(), NoMemory>
    requires { bytes.old.items ≡ [] }
    ensures packed { OnOk result (IsPacked bytes.new.items) }
    ensures words { OnOk result (unpacked bytes.new.items ≡ words.now) }
{
    for i in 0..words.len() {
        push_word(bytes, words[i])?;
    }
    Ok(())
}

/// Adds a number at the end.
fn push_word(bytes: &mut Vec<u8>, word: u32) -> Result<(), NoMemory>
    ensures { OnOk result (bytes.new.items ≡ bytes.old.items ++ packed_word word) }
{
    if word < 255 {
        bytes.push(word as u8)?;
        return Ok(());
    }
    bytes.push(WIDE)?;
    bytes.push((word % 256) as u8)?;
    bytes.push((word / 256 % 256) as u8)?;
    bytes.push((word / 65_536 % 256) as u8)?;
    bytes.push((word / 16_777_216 % 256) as u8)?;
    Ok(())
}

/// Puts the numbers that the bytes have into `words`, which is empty. The only error is `NoMemory`.
pub(crate) fn unpack(words: &mut Vec<u32>, bytes: &[u8]) -> Result<(), NoMemory>
    requires { words.old.items ≡ [] }
    ensures { OnOk result (words.new.items ≡ unpacked bytes.now) }
{
    let mut at = 0;
    while at < bytes.len() {
        at = unpack_word(words, bytes, at)?;
    }
    Ok(())
}

/// Adds the number that begins at the byte at index `at`, and answers where the next one does.
fn unpack_word(words: &mut Vec<u32>, bytes: &[u8], at: usize) -> Result<usize, NoMemory>
    requires { at < length bytes.now }
    ensures on { IfOk result (λ next. (at < next) × (next ≤ length bytes.now)) }
    ensures words { IfOk result (λ next. words.new.items ++ unpacked (drop next bytes.now)
        ≡ words.old.items ++ unpacked (drop at bytes.now)) }
{
    let byte = bytes[at];
    if byte < WIDE {
        words.push(u32::from(byte))?;
        return Ok(at + 1);
    }
    if bytes.len() - at < 5 {
        return Ok(bytes.len());
    }
    words.push(wide(bytes[at + 1], bytes[at + 2], bytes[at + 3], bytes[at + 4]))?;
    Ok(at + 5)
}

/// The number of these four bytes, the lowest first.
fn wide(a: u8, b: u8, c: u8, d: u8) -> u32
    ensures { result ≡ a + 256 * (b + 256 * (c + 256 * d)) }
{
    u32::from(a) + 256 * (u32::from(b) + 256 * (u32::from(c) + 256 * u32::from(d)))
}
