//! Single numbers.
ghost use Rattle.std.specs.Prelude.{◌≡◌, ◌<◌, ◌+◌, ◌^◌, ◌==◌, drop};
ghost use Rattle.irq_model.specs.Lines.{serves};
ghost use Rattle.device_table.specs.Sums.{one_if};
ghost use Rattle.line_marks.specs.Aim.{number_of};
ghost use Rattle.line_words.specs.Reading.{word_at, bit_at, cpu_at, dev_at, mask_at};
ghost use Rattle.line_words.specs.Words.{dev_number, mask_number};

use irq_base::{CpuNo, DevNo, FlowKind, LineDef, Trigger};

/// How many numbers have a fixed place.
pub(crate) const FIXED: usize = 28;

/// The number at the place, 0 behind the last.
pub(crate) fn word(words: &[u32], place: usize) -> u32
    ensures { result ≡ word_at words.now place }
{
    match words.get(place) {
        Some(word) => *word,
        None => 0,
    }
}

/// Whether 1 stands at the place.
pub(crate) fn bit(words: &[u32], place: usize) -> bool
    ensures { result ≡ bit_at words.now place }
{
    word(words, place) == 1
}

/// What is left behind the first `count` numbers.
pub(crate) fn behind(words: &[u32], count: usize) -> &[u32]
    ensures { result.now ≡ drop count words.now }
{
    if count < words.len() {
        &words[count..]
    } else {
        &words[words.len()..]
    }
}

/// A processor, if there is one: 1 and its number, else 0 and 0.
pub(crate) fn cpu(words: &[u32], place: usize) -> Option<CpuNo>
    requires { place < 1000 }
    ensures { result ≡ cpu_at words.now place }
{
    if bit(words, place) {
        Some(CpuNo(word(words, place + 1)))
    } else {
        None
    }
}

/// A device.
pub(crate) fn dev(words: &[u32], place: usize) -> Option<DevNo>
    requires { place < 1000 }
    ensures { result ≡ dev_at words.now place }
{
    if bit(words, place) {
        Some(DevNo(word(words, place + 1)))
    } else {
        None
    }
}

/// A mask.
pub(crate) fn mask(words: &[u32], place: usize) -> Option<u32>
    requires { place < 1000 }
    ensures { result ≡ mask_at words.now place }
{
    if bit(words, place) {
        Some(word(words, place + 1))
    } else {
        None
    }
}

/// 1 for true, 0 for false.
pub(crate) fn flag(is_so: bool) -> u32
    ensures { result ≡ one_if is_so }
{
    u32::from(is_so)
}

/// The number of a processor; 0 if there is none.
pub(crate) fn number_of(cpu: Option<CpuNo>) -> u32
    ensures { result ≡ number_of cpu }
{
    match cpu {
        Some(cpu) => cpu.0,
        None => 0,
    }
}

/// The number of a device; 0 if there is none.
pub(crate) fn dev_number(dev: Option<DevNo>) -> u32
    ensures { result ≡ dev_number dev }
{
    match dev {
        Some(dev) => dev.0,
        None => 0,
    }
}

/// The mask; 0 if there is none.
pub(crate) fn mask_number(mask: Option<u32>) -> u32
    ensures { result ≡ mask_number mask }
{
    match mask {
        Some(mask) => mask,
        None => 0,
    }
}

/// Whether the definition's cell keeps an interrupt in service.
pub(crate) fn serves(def: &LineDef) -> bool
    ensures { result ≡ serves def.now }
{
    def.trigger == Trigger::Level && def.flow == FlowKind::Eoi
}
