//! The sections of a text.
ghost use Rattle.std.specs.Prelude.{◌≡◌, nat_lt};
ghost use Rattle.board_stated.specs.Sections.{section_in};
ghost use Rattle.board_text.specs.Kept.{place_of};

use board_words::Statement;

/// The sections of a text, in the order in which they stand.
#[derive(Clone, Copy, PartialEq, Eq)]
pub enum Section {
    /// `board`.
    Header,
    /// `cpus`, `spurious` and `log`.
    Settings,
    /// `domain`.
    Domains,
    /// `line`.
    Lines,
    /// `device`.
    Devices,
    /// `answers`, `handler` and `thread`, and the calls of runs.
    Runs,
    /// `driver`, and the calls of its script.
    Scripts,
    /// `picks`.
    Picks,
}

impl Section {
    /// The section of a statement behind this one; a call is of the one in which it stands.
    pub fn of(self, statement: &Statement) -> Section
        ensures { place_of result ≡ section_in (place_of self) statement.now }
    {
        match statement {
            Statement::Board(_) => Section::Header,
            Statement::Cpus(_) | Statement::Spurious { .. } | Statement::Log(_) => {
                Section::Settings
            }
            Statement::Domain(_) => Section::Domains,
            Statement::Line(_) => Section::Lines,
            Statement::Device(_) => Section::Devices,
            Statement::Answers { .. } | Statement::Runs { .. } => Section::Runs,
            Statement::Driver(_) => Section::Scripts,
            Statement::Call(_) => self,
            Statement::Picks(_) => Section::Picks,
        }
    }

    /// Whether this section stands before the other.
    pub fn is_before(self, other: Section) -> bool
        ensures { result ≡ nat_lt (place_of self) (place_of other) }
    {
        self.place() < other.place()
    }

    /// Its place, counted from 0.
    fn place(self) -> u8
        ensures { result ≡ place_of self }
    {
        match self {
            Section::Header => 0,
            Section::Settings => 1,
            Section::Domains => 2,
            Section::Lines => 3,
            Section::Devices => 4,
            Section::Runs => 5,
            Section::Scripts => 6,
            Section::Picks => 7,
        }
    }
}
