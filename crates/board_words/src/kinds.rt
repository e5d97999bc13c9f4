//! The words for kinds of levels and devices.
ghost use Rattle.std.specs.Prelude.{◌≡◌, true, false, MatchOption};
ghost use Rattle.std.specs.List.{list_any};
ghost use Rattle.board_words.specs.Forms.{is, old_level_kinds, all_level_kinds, level_kinds};
ghost use Rattle.board_words.specs.Forms.{old_device_kinds, all_device_kinds, device_kinds};
ghost use Rattle.board_words.specs.Forms.{request_flags, device_flags};
ghost use Rattle.board_words.specs.Places.{option_texts};
ghost use Rattle.board_words.specs.Statements as said;

use crate::versions::has_runs;
use crate::words::is;
use irq_base::{ControllerKind, Kind};

/// The kind of level that the word names in a text of this version.
pub(crate) fn controller_kind(word: &[u8], version: u32) -> Option<ControllerKind>
    ensures { MatchOption result (list_any (is word.now) (level_kinds version) ≡ false)
        (λ kind. (list_any (is word.now) (level_kinds version) ≡ true)
        × (kind ≡ said.controller_kind word.now)) }
{
    if has_runs(version) {
        any_controller_kind(word)
    } else {
        old_controller_kind(word)
    }
}

/// The kind of level that the word names in a text of version 3.
fn any_controller_kind(word: &[u8]) -> Option<ControllerKind>
    ensures { MatchOption result (list_any (is word.now) all_level_kinds ≡ false)
        (λ kind. (list_any (is word.now) all_level_kinds ≡ true)
        × (kind ≡ said.controller_kind word.now)) }
{
    if is(word, b"pin") {
        return Some(ControllerKind::Pin);
    }
    old_controller_kind(word)
}

/// The kind of level that the word names in a text of version 1 or 2.
fn old_controller_kind(word: &[u8]) -> Option<ControllerKind>
    ensures { MatchOption result (list_any (is word.now) old_level_kinds ≡ false)
        (λ kind. (list_any (is word.now) old_level_kinds ≡ true)
        × (kind ≡ said.controller_kind word.now)) }
{
    if is(word, b"latch") {
        return Some(ControllerKind::Latch);
    }
    if is(word, b"plain") {
        return Some(ControllerKind::Plain);
    }
    if is(word, b"level") {
        return Some(ControllerKind::Level);
    }
    if is(word, b"eoi") {
        return Some(ControllerKind::Eoi);
    }
    if is(word, b"vector") {
        return Some(ControllerKind::Vector);
    }
    if is(word, b"msi") {
        return Some(ControllerKind::Msi);
    }
    if is(word, b"lpi") {
        return Some(ControllerKind::Lpi);
    }
    if is(word, b"remap") {
        return Some(ControllerKind::Remap);
    }
    None
}

/// The kind of device that the word names in a text of this version.
pub(crate) fn device_kind(word: &[u8], version: u32) -> Option<Kind>
    ensures { MatchOption result (list_any (is word.now) (device_kinds version) ≡ false)
        (λ kind. (list_any (is word.now) (device_kinds version) ≡ true)
        × (kind ≡ said.device_kind word.now)) }
{
    if has_runs(version) {
        any_device_kind(word)
    } else {
        old_device_kind(word)
    }
}

/// The kind of device that the word names in a text of version 3.
fn any_device_kind(word: &[u8]) -> Option<Kind>
    ensures { MatchOption result (list_any (is word.now) all_device_kinds ≡ false)
        (λ kind. (list_any (is word.now) all_device_kinds ≡ true)
        × (kind ≡ said.device_kind word.now)) }
{
    if is(word, b"odd") {
        return Some(Kind::Odd);
    }
    if is(word, b"told") {
        return Some(Kind::Told { threaded: false });
    }
    old_device_kind(word)
}

/// The kind of device that the word names in a text of version 1 or 2.
fn old_device_kind(word: &[u8]) -> Option<Kind>
    ensures { MatchOption result (list_any (is word.now) old_device_kinds ≡ false)
        (λ kind. (list_any (is word.now) old_device_kinds ≡ true)
        × (kind ≡ said.device_kind word.now)) }
{
    if is(word, b"direct") {
        return Some(Kind::Direct);
    }
    if is(word, b"check") {
        return Some(Kind::Check);
    }
    if is(word, b"null") {
        return Some(Kind::Null);
    }
    if is(word, b"stuck") {
        return Some(Kind::Stuck);
    }
    None
}

/// Whether the word is an option of a line.
pub(crate) fn is_option(word: &[u8]) -> bool
    ensures { result ≡ list_any (is word.now) option_texts }
{
    is(word, b"mask") || is(word, b"unlazy") || is(word, b"later")
}

/// Whether the word is a flag of a request.
pub(crate) fn is_flag(word: &[u8]) -> bool
    ensures { result ≡ list_any (is word.now) request_flags }
{
    is(word, b"shared") || is(word, b"oneshot") || is(word, b"noauto")
}

/// Whether the word is an option of a device.
pub(crate) fn is_device_flag(word: &[u8]) -> bool
    ensures { result ≡ list_any (is word.now) device_flags }
{
    is(word, b"held") || is(word, b"forgets")
}
