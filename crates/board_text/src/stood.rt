//! Which statements have stood.
ghost use Rattle.std.specs.Prelude.{◌≡◌, List, [], ◌∷◌};
ghost use Rattle.board_text.specs.Kept.{stood_after, is_setting_again};
ghost use Rattle.board_words.specs.declared.statements.Statement.{Statement};

use board_words::Statement;

/// Which statements have stood so far.
#[derive(Clone, Copy, PartialEq, Eq)]
pub struct Stood {
    /// Any statement.
    pub begun: bool,
    /// `board`.
    pub header: bool,
    /// `cpus`.
    pub cpus: bool,
    /// `spurious`.
    pub spurious: bool,
    /// `log`.
    pub log: bool,
}

impl Stood {
    /// No statement has stood.
    pub fn new() -> Stood
        ensures { result ≡ stood_after [] }
    {
        Stood {
            begun: false,
            header: false,
            cpus: false,
            spurious: false,
            log: false,
        }
    }

    /// What has stood after one more statement.
    pub fn with(mut self, statement: &Statement) -> Stood
        ensures { (past : List Statement) → self ≡ stood_after past
            → result ≡ stood_after (statement.now ∷ past) }
    {
        self.begun = true;
        match statement {
            Statement::Board(_) => self.header = true,
            Statement::Cpus(_) => self.cpus = true,
            Statement::Spurious { .. } => self.spurious = true,
            Statement::Log(_) => self.log = true,
            _ => {}
        }
        self
    }

    /// Whether the statement is a header or a setting that stood before.
    pub fn has_setting(self, statement: &Statement) -> bool
        ensures { (past : List Statement) → self ≡ stood_after past
            → result ≡ is_setting_again past statement.now }
    {
        match statement {
            Statement::Board(_) => self.header,
            Statement::Cpus(_) => self.cpus,
            Statement::Spurious { .. } => self.spurious,
            Statement::Log(_) => self.log,
            _ => false,
        }
    }
}
