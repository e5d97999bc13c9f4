//! The places of a statement's form.
ghost use Rattle.std.specs.Prelude.{◌≡◌, ℕ, ◌<◌, false, Some, None, [], ◌∷◌, codes, length, drop};
ghost use Rattle.std.specs.Prelude.{get_or, OnOk, IfOk};
ghost use Rattle.std.specs.List.{flat_map};
ghost use Rattle.std.specs.Option.{option_or};
ghost use Rattle.board_def.specs.declared.names.Name.{Name};
ghost use Rattle.board_words.specs.Faults.{rank, earlier, first_in_order};
ghost use Rattle.board_words.specs.Forms as forms;
ghost use Rattle.board_words.specs.Places.{both, in_all, outcome, Takes, map_kind, after_map};
ghost use Rattle.board_words.specs.Places.{option_texts};
ghost use Rattle.board_words.specs.Seen.{words_left, are_none};
ghost use Rattle.board_words.specs.Spelling.{answer_of};
ghost use Rattle.board_words.specs.Statements as said;

use crate::faults::FaultKind;
use crate::statements::{AnswerList, AnswerWord};
use crate::versions::has_runs;
use crate::words::{Words, is};
use crate::{kinds, spelling};
use board_def::Name;
use irq_base::{ControllerKind, Kind, MapKind, NoMemory, Part};
use std::alloc::Global;

/// The words of a statement that are left, and the first fault, in the order of faults, that was
/// found in the words before them.
///
/// If something is wrong at a place, a stand-in is read there.
#[derive(Clone, Copy)]
pub(crate) struct Places<'a> {
    pub(crate) words: Words<'a>,
    found: Option<FaultKind>,
}

impl<'a> Places<'a> {
    pub(crate) fn new(words: Words<'a>) -> Places<'a>
        ensures words { words_left result.words ≡ words_left words.entry }
        ensures found { result.found ≡ None }
    {
        Places { words, found: None }
    }

    /// The value that was read, or the first fault that was found.
    pub(crate) fn give<T: Drop>(self, value: T) -> Result<T, FaultKind>
        ensures { result ≡ outcome self.entry.found value }
    {
        match self.found {
            None => Ok(value),
            Some(kind) => Err(kind),
        }
    }

    fn note(&mut self, kind: FaultKind)
        ensures words { self.new.words ≡ self.old.words }
        ensures found { self.new.found ≡ both self.old.found (Some kind) }
    {
        self.found = match self.found {
            Some(found) => Some(first(found, kind)),
            None => Some(kind),
        };
    }

    /// A number from `low` to `high`.
    pub(crate) fn number(&mut self, low: u32, high: u32) -> u32
        ensures takes { Takes (forms.number low high) self.old self.new }
        ensures value { self.new.found ≡ None
            → result ≡ said.number_at 0 (words_left self.old.words) }
    {
        let Some(word) = self.words.next() else {
            self.note(FaultKind::WrongCount);
            return 0;
        };
        match spelling::number(word, low, high) {
            Some(value) => value,
            None => {
                self.note(FaultKind::BadNumber);
                0
            }
        }
    }

    /// A name.
    pub(crate) fn name(&mut self) -> Name
        ensures takes { Takes forms.name self.old self.new }
        ensures value { self.new.found ≡ None
            → result ≡ said.name_at 0 (words_left self.old.words) }
    {
        let Some(word) = self.words.next() else {
            self.note(FaultKind::WrongCount);
            return Name::new(b"a");
        };
        match spelling::name(word) {
            Some(name) => name,
            None => {
                self.note(FaultKind::BadName);
                Name::new(b"a")
            }
        }
    }

    /// A kind of level.
    pub(crate) fn controller_kind(&mut self, version: u32) -> ControllerKind
        ensures takes { Takes (forms.one_of (forms.level_kinds version)) self.old self.new }
        ensures value { self.new.found ≡ None
            → result ≡ said.controller_kind (get_or (words_left self.old.words) 0 []) }
    {
        let Some(word) = self.words.next() else {
            self.note(FaultKind::WrongCount);
            return ControllerKind::Remap;
        };
        match kinds::controller_kind(word, version) {
            Some(kind) => kind,
            None => {
                self.note(FaultKind::UnknownWord);
                ControllerKind::Remap
            }
        }
    }

    /// A kind of device.
    pub(crate) fn device_kind(&mut self, version: u32) -> Kind
        ensures takes { Takes (forms.one_of (forms.device_kinds version)) self.old self.new }
        ensures value { self.new.found ≡ None
            → result ≡ said.device_kind (get_or (words_left self.old.words) 0 []) }
    {
        let Some(word) = self.words.next() else {
            self.note(FaultKind::WrongCount);
            return Kind::Stuck;
        };
        match kinds::device_kind(word, version) {
            Some(kind) => kind,
            None => {
                self.note(FaultKind::UnknownWord);
                Kind::Stuck
            }
        }
    }

    /// Takes the next word, which has to be `text`.
    fn keyword(&mut self, text: &[u8])
        ensures { Takes (forms.one_of (text.now ∷ [])) self.old self.new }
    {
        match self.words.next() {
            Some(word) => {
                if !is(word, text) {
                    self.note(FaultKind::UnknownWord);
                }
            }
            None => self.note(FaultKind::WrongCount),
        }
    }

    /// How a domain maps numbers. After a word that is neither way nothing is read.
    pub(crate) fn map(&mut self) -> MapKind
        ensures found { (version : ℕ) → in_all self.old (forms.map_form version)
            ≡ in_all self.new
            (forms.at (forms.one_of (forms.level_kinds version)) forms.parents_form) }
        ensures value { self.new.found ≡ None → result ≡ map_kind (words_left self.old.words) }
        ensures words { self.new.found ≡ None
            → words_left self.new.words ≡ after_map (words_left self.old.words) }
    {
        let Some(word) = self.words.next() else {
            self.note(FaultKind::WrongCount);
            return MapKind::Tree;
        };
        if is(word, b"linear") {
            return MapKind::Linear(self.number(1, 1_024));
        }
        if !is(word, b"tree") {
            self.note(FaultKind::UnknownWord);
            self.words = Words::of_line(b"");
        }
        MapKind::Tree
    }

    /// The parent of a level, if one is named, and whether more stands after it.
    pub(crate) fn parent(&mut self) -> (Option<Name>, bool)
        ensures found { self.new.found ≡ in_all self.old forms.parents_form }
        ensures value { self.new.found ≡ None
            → result ≡ (
              said.parent_name (words_left self.old.words),
              said.has_more_parents
                  (words_left self.old.words),
            ) }
    {
        if self.words.is_empty() {
            return (None, false);
        }
        self.keyword(b"parent");
        let name = self.name();
        let more = !self.words.is_empty();
        self.parents();
        (Some(name), more)
    }

    /// `parent` and a name, to the end.
    fn parents(&mut self)
        ensures { self.new.found ≡ in_all self.old forms.parents_form }
    {
        while !self.words.is_empty() {
            self.keyword(b"parent");
            self.name();
        }
    }

    /// The options of a line, to the end: the number after the first `mask`.
    pub(crate) fn options(&mut self) -> Option<u32>
        ensures found { self.new.found ≡ in_all self.old forms.line_options }
        ensures value { self.new.found ≡ None
            → result ≡ said.mask_after (words_left self.old.words) }
    {
        let mut mask = None;
        while !self.words.is_empty() {
            mask = self.option(mask);
        }
        mask
    }

    /// Reads one option of a line. Answers its mask, or `mask` if it is another option.
    fn option(&mut self, mask: Option<u32>) -> Option<u32>
        requires { are_none (words_left self.old.words) ≡ false }
        ensures found { in_all self.old forms.line_options ≡ in_all self.new forms.line_options }
        ensures value { self.new.found ≡ None
            → (self.old.found ≡ None)
            × (option_or result (said.mask_after (words_left self.new.words))
            ≡ option_or mask (said.mask_after (words_left self.old.words))) }
        ensures fewer { length (words_left self.new.words) < length (words_left self.old.words) }
    {
        if !self.option_word() {
            return mask;
        }
        let number = self.number(0, u32::MAX);
        mask.or(Some(number))
    }

    /// Takes the word of an option. Answers whether it is `mask`.
    fn option_word(&mut self) -> bool
        ensures takes { Takes (forms.one_of option_texts) self.old self.new }
        ensures mask { result ≡ forms.is (get_or (words_left self.old.words) 0 []) (codes "mask") }
    {
        let Some(word) = self.words.next() else {
            self.note(FaultKind::WrongCount);
            return false;
        };
        if !kinds::is_option(word) {
            self.note(FaultKind::UnknownWord);
        }
        is(word, b"mask")
    }

    /// Flags of a request, to the end.
    pub(crate) fn flags(&mut self)
        ensures { self.new.found ≡ in_all self.old (flat_map (forms.one_of forms.request_flags)) }
    {
        while !self.words.is_empty() {
            self.flag();
        }
    }

    fn flag(&mut self)
        ensures { Takes (forms.one_of forms.request_flags) self.old self.new }
    {
        match self.words.next() {
            Some(word) => {
                if !kinds::is_flag(word) {
                    self.note(FaultKind::UnknownWord);
                }
            }
            None => self.note(FaultKind::WrongCount),
        }
    }

    /// Options of a device, to the end; only texts of version 3 have them.
    pub(crate) fn device_options(&mut self, version: u32)
        ensures { self.new.found ≡ in_all self.old (forms.device_options version) }
    {
        if has_runs(version) {
            self.device_flags();
        } else {
            self.full();
        }
    }

    fn device_flags(&mut self)
        ensures { self.new.found ≡ in_all self.old (flat_map (forms.one_of forms.device_flags)) }
    {
        while !self.words.is_empty() {
            self.device_flag();
        }
    }

    fn device_flag(&mut self)
        ensures { Takes (forms.one_of forms.device_flags) self.old self.new }
    {
        match self.words.next() {
            Some(word) => {
                if !kinds::is_device_flag(word) {
                    self.note(FaultKind::UnknownWord);
                }
            }
            None => self.note(FaultKind::WrongCount),
        }
    }

    /// The part whose answers follow: takes `thread`, if it stands.
    pub(crate) fn part(&mut self) -> Part
        ensures found { in_all self.old forms.part_form
            ≡ in_all self.new (forms.answers_form result) }
        ensures value { result ≡ said.part_at (words_left self.old.words) }
        ensures words { words_left self.new.words ≡ said.after_part (words_left self.old.words) }
    {
        let mut rest = self.words;
        let Some(word) = rest.next() else {
            return Part::Primary;
        };
        if is(word, b"thread") {
            self.words = rest;
            return Part::Thread;
        }
        Part::Primary
    }

    /// One or more answers of the part, to the end.
    pub(crate) fn answers(&mut self, alloc: Global, part: Part) -> Result<AnswerList, NoMemory>
        ensures found { OnOk result
            (self.new.found ≡ in_all self.old (forms.answers_form part)) }
        ensures value { IfOk result (λ answers. self.new.found ≡ None
            → answers ≡ said.answers_of part (words_left self.old.words)) }
    {
        let mut answers = AnswerList::new(alloc);
        if self.words.is_empty() {
            self.note(FaultKind::WrongCount);
            return Ok(answers);
        }
        while !self.words.is_empty() {
            if let Some(answer) = self.answer(part) {
                answers.push(answer)?;
            }
        }
        Ok(answers)
    }

    /// An answer of the part.
    fn answer(&mut self, part: Part) -> Option<AnswerWord>
        requires { are_none (words_left self.old.words) ≡ false }
        ensures takes { Takes (forms.answer part) self.old self.new }
        ensures value { result ≡ answer_of part (get_or (words_left self.old.words) 0 []) }
    {
        let Some(word) = self.words.next() else {
            self.note(FaultKind::WrongCount);
            return None;
        };
        let answer = spelling::answer(word, part);
        if answer.is_none() {
            self.note(FaultKind::UnknownWord);
        }
        answer
    }

    /// Nothing more may stand.
    pub(crate) fn full(&mut self)
        ensures { self.new.found ≡ in_all self.old forms.full }
    {
        if !self.words.is_empty() {
            self.note(FaultKind::WrongCount);
        }
    }
}

/// The one of the two faults that comes first in the order.
fn first(found: FaultKind, kind: FaultKind) -> FaultKind
    ensures { Some result ≡ earlier found (Some kind) }
{
    if place_of(kind) < place_of(found) {
        kind
    } else {
        found
    }
}

/// The place of a kind in the order.
fn place_of(kind: FaultKind) -> u8
    ensures { result ≡ rank kind }
{
    kind as u8
}
