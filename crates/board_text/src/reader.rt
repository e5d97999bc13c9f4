//! The reader: the board that the statements so far state, and what the reader keeps of them to
//! judge the next one.
ghost use Rattle.std.specs.Prelude.{◌≡◌, ℕ, true, false, List, [], ◌∷◌, ◌&&◌, not, Ok, OnOk};
ghost use Rattle.std.specs.Prelude.{IfOk};
ghost use Rattle.std.specs.Result.{result_and};
ghost use Rattle.board_stated.specs.FaultsAfter.{is_empty, is_out_of_order, is_out_of_turn};
ghost use Rattle.board_stated.specs.FaultsAfter.{has_turn_again, is_twice};
ghost use Rattle.board_stated.specs.FaultsAfter.{has_flag_twice, fault_after};
ghost use Rattle.board_stated.specs.Stated.{board_of, script_call, run_call};
ghost use Rattle.board_stated.specs.declared.writers.Writer.TheVariants as writers;
ghost use Rattle.board_stated.specs.TextOf.{begins_with_board};
ghost use Rattle.board_words.specs.Seen.{words_left};
ghost use Rattle.board_words.specs.TextLines.{text_lines, words_of, has_bad_byte};
ghost use Rattle.board_def.specs.Rules.{IsBoard};
ghost use Rattle.board_text.specs.Kept.{Agrees, Keeps, IsKept, IsNext, IsTold, log_after};
ghost use Rattle.board_text.specs.Kept.{IsNoCall, with_driver_call, with_run_call};
ghost use Rattle.board_text.specs.Given.{Ends, ReadsLine, Takes, Makes};
ghost use Rattle.board_text.specs.Owned.{tells_owner};
ghost use Rattle.board_words.specs.declared.statements.CallWords.{CallWords};
ghost use Rattle.board_words.specs.declared.statements.Statement.{Statement};
ghost use Rattle.board_words.specs.declared.statements.Statement.TheVariants as statements;

use crate::adding::{add_statement, call_of_words};
use crate::counting::has_no_room_to_call;
use crate::faults::{
    MOST_CALLS, driver_writing, has_bad_mask, has_bad_parent, has_bad_unlazy, has_name,
    is_misplaced, is_not_there, is_one_too_many, line_named,
};
use crate::lines::{after_line, device_asked};
use crate::owners::Owners;
use crate::runs::{has_bad_run, may_not_call};
use crate::sections::Section;
use crate::stood::Stood;
use crate::turns::{turn_after, writer_after};
use board_def::{Board, RunCall, ScriptCall};
use board_stated::Writer;
use board_words::{
    CallWords, FaultKind, Statement, StatementRefused, TextLines, Words, read_statement,
};
use irq_base::{DevNo, NoMemory, Part};
use std::alloc::Global;

/// The least log limit. The board has it until the text has ended, since the rule on the log limit
/// counts the lines of the whole text.
const LEAST_LOG: u32 = 1;

/// The most entries of all histories together.
const MOST_ENTRIES: u64 = 4_000_000;

/// What has been read.
#[derive(Drop)]
pub struct Reader {
    /// The board so far, but for its log limit.
    board: Board,
    /// The log limit so far.
    log: u32,
    /// The section of the last statement.
    section: Section,
    /// Whose script is written.
    writer: Writer,
    /// The turn of the last statement on runs.
    turn: u64,
    /// Which statements have stood.
    stood: Stood,
    /// Who owns the devices.
    owners: Owners,
}

impl Reader {
    /// The reader before the first statement.
    pub fn new(alloc: Global) -> Reader
        ensures { Keeps [] result }
    {
        Reader {
            board: Board::new(alloc, 1, 100_000, 99_900, LEAST_LOG),
            log: 10_000,
            section: Section::Header,
            writer: Writer::Nobody,
            turn: 0,
            stood: Stood::new(),
            owners: Owners::new(alloc),
        }
    }

    /// Reads the first text line of a text, and answers what follows it. After a fault, or if
    /// memory was refused, the reader is of no more use.
    #[inline(always)]
    pub(crate) fn read_line<'a>(
        &mut self,
        alloc: Global,
        text: &'a [u8],
    ) -> Result<&'a [u8], StatementRefused>
        requires { IsKept self.old }
        ensures read { (past : List Statement) (line : List ℕ) (left : List (List ℕ))
            → Keeps past self.old → text_lines text.now ≡ line ∷ left
            → ReadsLine past line self.new (result_and result (Ok tt)) }
        ensures left { (line : List ℕ) (left : List (List ℕ)) → text_lines text.now ≡ line ∷ left
            → IfOk result (λ rest. text_lines rest.now ≡ left) }
    {
        // a long text is mostly asks of a few devices
        if let Some((dev, rest)) = device_asked(text)
            && self.is_in_script()
        {
            return match self.take_driver_call(CallWords::Ask { dev }) {
                Ok(()) => Ok(rest),
                Err(refused) => Err(refused),
            };
        }
        self.read_any_line(alloc, text)
    }

    /// The same, whatever the text line says. It stands apart: most text lines are asks.
    #[inline(never)]
    fn read_any_line<'a>(
        &mut self,
        alloc: Global,
        text: &'a [u8],
    ) -> Result<&'a [u8], StatementRefused>
        requires { IsKept self.old }
        ensures read { (past : List Statement) (line : List ℕ) (left : List (List ℕ))
            → Keeps past self.old → text_lines text.now ≡ line ∷ left
            → ReadsLine past line self.new (result_and result (Ok tt)) }
        ensures left { (line : List ℕ) (left : List (List ℕ)) → text_lines text.now ≡ line ∷ left
            → IfOk result (λ rest. text_lines rest.now ≡ left) }
    {
        let mut lines = TextLines::new(text);
        let Some((line, is_bad)) = lines.next_checked() else {
            return Ok(text);
        };
        if is_bad {
            return Err(StatementRefused::Fault(FaultKind::BadByte));
        }
        self.read_words(alloc, Words::of_line(line))?;
        Ok(after_line(text, line))
    }

    /// Whether a driver's script is written.
    fn is_in_script(&self) -> bool
        ensures { result ≡ true → self.now.writer ≡ writers.Driver }
    {
        matches!(self.writer, Writer::Driver)
    }

    /// Reads the words of a text line in which no byte is bad.
    fn read_words(&mut self, alloc: Global, words: Words<'_>) -> Result<(), StatementRefused>
        requires { IsKept self.old }
        ensures { (past : List Statement) (line : List ℕ) → Keeps past self.old
            → words_left words.entry ≡ words_of line → has_bad_byte line ≡ false
            → ReadsLine past line self.new result }
    {
        if words.is_empty() {
            return Ok(());
        }
        if self.lacks_header(words) {
            return Err(StatementRefused::Fault(FaultKind::NoHeader));
        }
        match read_statement(alloc, words, self.board.version())? {
            // most statements are calls, and a call alone is small
            Statement::Call(call) => self.take_call(call),
            statement => self.take(alloc, &statement),
        }
    }

    /// Takes a statement that is no call, unless it has a fault after the statements so far. It
    /// stands apart: most statements are calls.
    #[inline(never)]
    fn take(&mut self, alloc: Global, statement: &Statement) -> Result<(), StatementRefused>
        requires told { IsTold self.old statement.now }
        requires other { IsNoCall statement.now }
        ensures { (past : List Statement) → Agrees past self.old
            → Takes past statement.now self.new result }
    {
        if let Some(kind) = self.fault_of(statement) {
            return Err(StatementRefused::Fault(kind));
        }
        match self.add(alloc, statement) {
            Ok(()) => Ok(()),
            Err(_) => Err(StatementRefused::NoMemory),
        }
    }

    /// Takes a call, unless it has a fault after the statements so far.
    #[tactic(auto, using(crate::proofs::Made::nobody_fault))]
    #[inline(always)]
    fn take_call(&mut self, words: CallWords) -> Result<(), StatementRefused>
        requires { IsKept self.old }
        ensures { (past : List Statement) → Agrees past self.old
            → Takes past (statements.Call words) self.new result }
    {
        match self.writer {
            Writer::Driver => self.take_driver_call(words),
            Writer::Runs { dev, part } => self.take_run_call(dev, part, words),
            Writer::Nobody => Err(StatementRefused::Fault(FaultKind::OutOfOrder)),
        }
    }

    /// Takes a call of the last driver.
    #[inline(always)]
    fn take_driver_call(&mut self, words: CallWords) -> Result<(), StatementRefused>
        requires kept { IsKept self.old }
        requires writer { self.old.writer ≡ writers.Driver }
        ensures { (past : List Statement) → Agrees past self.old
            → Takes past (statements.Call words) self.new result }
    {
        let call = match self.call_made(words) {
            Ok(call) => call,
            Err(kind) => return Err(StatementRefused::Fault(kind)),
        };
        match self.add_call(call) {
            Ok(()) => Ok(()),
            Err(_) => Err(StatementRefused::NoMemory),
        }
    }

    /// Takes a call of the runs of that part of the device. It stands apart: most calls are
    /// drivers'.
    #[inline(never)]
    fn take_run_call(
        &mut self,
        dev: DevNo,
        part: Part,
        words: CallWords,
    ) -> Result<(), StatementRefused>
        requires kept { IsKept self.old }
        requires writer { self.old.writer ≡ writers.Runs dev part }
        ensures { (past : List Statement) → Agrees past self.old
            → Takes past (statements.Call words) self.new result }
    {
        let call = match self.run_call_made(dev, part, words) {
            Ok(call) => call,
            Err(kind) => return Err(StatementRefused::Fault(kind)),
        };
        match self.add_run_call(call) {
            Ok(()) => Ok(()),
            Err(_) => Err(StatementRefused::NoMemory),
        }
    }

    /// Whether the words are the first statement and not a header.
    #[tactic(auto, using(crate::proofs::ReadLines::header_same))]
    fn lacks_header(&self, words: Words<'_>) -> bool
        ensures { (past : List Statement) → Agrees past self.now
            → result ≡ (is_empty past && not (begins_with_board (words_left words.entry))) }
    {
        !self.stood.begun && !words.is_header()
    }

    /// What is wrong with the statement, which is no call, after the statements so far.
    #[tactic(auto, using(crate::proofs::Made::faults_read))]
    fn fault_of(&self, statement: &Statement) -> Option<FaultKind>
        requires { IsNoCall statement.now }
        ensures { (past : List Statement) → Agrees past self.now
            → result ≡ fault_after past statement.now }
    {
        if self.is_out_of_order(statement) {
            return Some(FaultKind::OutOfOrder);
        }
        if self.is_twice(statement) {
            return Some(FaultKind::Twice);
        }
        if is_not_there(&self.board, statement) {
            return Some(FaultKind::NotThere);
        }
        if has_bad_parent(&self.board, statement) {
            return Some(FaultKind::BadParent);
        }
        if has_bad_unlazy(&self.board, statement) {
            return Some(FaultKind::BadUnlazy);
        }
        if has_bad_mask(&self.board, statement) {
            return Some(FaultKind::BadMask);
        }
        if has_bad_run(&self.board, self.writer, statement) {
            return Some(FaultKind::BadRun);
        }
        if is_one_too_many(&self.board, self.writer, statement) {
            return Some(FaultKind::TooMany);
        }
        None
    }

    /// Whether the statement is of an earlier section, misplaced within its section, or out of
    /// turn.
    fn is_out_of_order(&self, statement: &Statement) -> bool
        requires { IsNoCall statement.now }
        ensures { (past : List Statement) → Agrees past self.now
            → result ≡ is_out_of_order past statement.now }
    {
        self.section.of(statement).is_before(self.section)
            || is_misplaced(&self.board, statement)
            || self.is_out_of_turn(statement)
    }

    /// Whether the statement is one on runs after one of a later turn.
    #[tactic(auto, using(crate::proofs::Made::turn_of))]
    fn is_out_of_turn(&self, statement: &Statement) -> bool
        requires { IsNoCall statement.now }
        ensures { (past : List Statement) → Agrees past self.now
            → result ≡ is_out_of_turn past statement.now }
    {
        turn_after(self.turn, statement) < self.turn
    }

    /// Whether the turn of the statement is that of the last one on runs.
    fn has_turn_again(&self, statement: &Statement) -> bool
        ensures { (past : List Statement) → Agrees past self.now
            → result ≡ has_turn_again past statement.now }
    {
        turn_after(self.turn, statement) == self.turn
    }

    /// Whether a setting, a domain's name or an option stands again.
    fn is_twice(&self, statement: &Statement) -> bool
        ensures { (past : List Statement) → Agrees past self.now
            → result ≡ is_twice past statement.now }
    {
        match statement {
            Statement::Domain(domain) => has_name(&self.board, domain.name) || domain.twice,
            Statement::Line(line) => line.twice,
            Statement::Device(device) => device.twice,
            Statement::Answers { .. } | Statement::Runs { .. } => self.has_turn_again(statement),
            Statement::Call(call) => has_flag_twice(*call),
            _ => self.stood.has_setting(statement),
        }
    }

    /// Adds a statement without a fault that is no call.
    fn add(&mut self, alloc: Global, statement: &Statement) -> Result<(), NoMemory>
        requires next { IsNext self.old statement.now }
        requires other { IsNoCall statement.now }
        ensures { (past : List Statement) → Agrees past self.old
            → OnOk result (Agrees (statement.now ∷ past) self.new) }
    {
        add_statement(alloc, &mut self.board, self.writer, statement)?;
        self.log = log_after(self.log, statement);
        self.section = self.section.of(statement);
        self.writer = writer_after(self.writer, statement);
        self.turn = turn_after(self.turn, statement);
        self.stood = self.stood.with(statement);
        Ok(())
    }

    /// The call that the last driver makes by these words, or what is wrong with it after the
    /// statements so far.
    #[tactic(auto, using(crate::proofs::Made::fault_read))]
    #[inline(always)]
    fn call_made(&self, words: CallWords) -> Result<ScriptCall, FaultKind>
        requires { self.now.writer ≡ writers.Driver }
        ensures { (past : List Statement) → Agrees past self.now
            → Makes past words (script_call (board_of past) words) result }
    {
        if has_flag_twice(words) {
            return Err(FaultKind::Twice);
        }
        let driver = driver_writing(&self.board);
        let Some(line) = line_named(&self.board, words) else {
            return Err(FaultKind::NotThere);
        };
        let call = call_of_words(words);
        if tells_owner(words) && self.owners.forbid(driver, call) {
            return Err(FaultKind::BadOwner);
        }
        if self.board.calls_len() >= MOST_CALLS {
            return Err(FaultKind::TooMany);
        }
        Ok(ScriptCall { driver, line, call })
    }

    /// Adds a driver's call without a fault.
    #[inline(always)]
    fn add_call(&mut self, call: ScriptCall) -> Result<(), NoMemory>
        requires board { IsBoard (with_driver_call call self.old.board) }
        requires writer { self.old.writer ≡ writers.Driver }
        ensures { (past : List Statement) (words : CallWords) → Agrees past self.old
            → call ≡ script_call (board_of past) words
            → OnOk result (Agrees (statements.Call words ∷ past) self.new) }
    {
        self.owners.note(&call)?;
        self.board.add_call(call)?;
        self.stood.begun = true;
        Ok(())
    }

    /// The call that runs of that part of the device make by these words, or what is wrong with it
    /// after the statements so far.
    #[tactic(auto, using(crate::proofs::Made::run_fault_read))]
    fn run_call_made(&self, dev: DevNo, part: Part, words: CallWords) -> Result<RunCall, FaultKind>
        requires { self.now.writer ≡ writers.Runs dev part }
        ensures { (past : List Statement) → Agrees past self.now
            → Makes past words (run_call (board_of past) dev part words) result }
    {
        if has_flag_twice(words) {
            return Err(FaultKind::Twice);
        }
        let Some(line) = line_named(&self.board, words) else {
            return Err(FaultKind::NotThere);
        };
        let call = RunCall {
            line,
            dev,
            part,
            call: call_of_words(words),
        };
        if may_not_call(&self.board, call) {
            return Err(FaultKind::BadRun);
        }
        if has_no_room_to_call(&self.board, self.writer) {
            return Err(FaultKind::TooMany);
        }
        Ok(call)
    }

    /// Adds a call of runs without a fault.
    fn add_run_call(&mut self, call: RunCall) -> Result<(), NoMemory>
        requires board { IsBoard (with_run_call call self.old.board) }
        requires writer { self.old.writer ≡ writers.Runs call.dev call.part }
        ensures { (past : List Statement) (words : CallWords) → Agrees past self.old
            → call ≡ run_call (board_of past) call.dev call.part words
            → OnOk result (Agrees (statements.Call words ∷ past) self.new) }
    {
        self.board.add_run(call)?;
        self.stood.begun = true;
        Ok(())
    }

    /// The board of the whole text, or the fault of its log limit. No statement had a fault.
    pub fn end(self) -> Result<Board, FaultKind>
        requires { IsKept self }
        ensures { (past : List Statement) → Keeps past self → Ends past result }
    {
        let Reader { mut board, log, .. } = self;
        board.is_board();
        if u64::from(log) * board.lines_len() as u64 > MOST_ENTRIES {
            return Err(FaultKind::LogTooLarge);
        }
        board.set_log(log);
        Ok(board)
    }
}

/// Whether an option of the call stands again.
fn has_flag_twice(call: CallWords) -> bool
    ensures { result ≡ has_flag_twice call }
{
    match call {
        CallWords::Request { twice, .. } => twice,
        _ => false,
    }
}

/// Whether the call is a request or a free.
fn tells_owner(call: CallWords) -> bool
    ensures { result ≡ tells_owner call }
{
    matches!(call, CallWords::Request { .. } | CallWords::Free { .. })
}

/// The log limit after the statement.
fn log_after(log: u32, statement: &Statement) -> u32
    ensures { result ≡ log_after log statement.now }
{
    match statement {
        Statement::Log(log) => *log,
        _ => log,
    }
}
