//! What is kept of one thread, and what each step makes of it.
ghost use Rattle.std.specs.Prelude.{◌≡◌};
ghost use Rattle.device_table.specs.Sums.{one_if};
ghost use Rattle.act_thread.specs.Steps.{active_row, is_ready, is_returned, is_idle_row};
ghost use Rattle.act_thread.specs.Steps.{may_begin, may_return, may_end, finished_by, woken_row};
ghost use Rattle.act_thread.specs.Steps.{begun_row, returned_row, finished_row, done_row};

/// How far the thread is with its run.
#[derive(Clone, Copy, PartialEq, Eq)]
pub enum Stage {
    /// It is in no run.
    Idle,
    /// Its handler is at work.
    Begun,
    /// Its handler has returned.
    Returned,
    /// It has finalized its one-shot interrupt.
    Finished,
}

/// The marks of a device's thread.
#[derive(Clone, Copy)]
pub struct ThreadRow {
    /// It is to run (`IRQTF_RUNTHREAD`).
    pub woken: bool,
    /// How far its run is.
    pub stage: Stage,
    /// Its bit stands (`desc->threads_oneshot`).
    pub held: bool,
}

/// What a finish finds (`irq_finalize_oneshot`).
#[derive(Clone, Copy, PartialEq, Eq)]
pub enum Finished {
    /// The thread is to run again, and its bit stays as it was.
    Kept,
    /// The thread's bit is given up.
    Cleared,
    /// No run is at that point.
    NotDue,
}

impl ThreadRow {
    /// The thread is to run from now on; nothing changes if it is already.
    pub(crate) fn woken(self, oneshot: bool) -> ThreadRow
        ensures { result ≡ woken_row oneshot self }
    {
        if self.woken {
            return self;
        }
        ThreadRow {
            woken: true,
            held: self.held || oneshot,
            ..self
        }
    }

    /// The row as a run begins.
    pub(crate) fn begun(self) -> ThreadRow
        ensures { result ≡ begun_row self }
    {
        if !self.may_begin() {
            return self;
        }
        ThreadRow {
            woken: false,
            stage: Stage::Begun,
            ..self
        }
    }

    /// The row as the thread's handler returns.
    pub(crate) fn returned(self) -> ThreadRow
        ensures { result ≡ returned_row self }
    {
        if !self.may_return() {
            return self;
        }
        ThreadRow {
            stage: Stage::Returned,
            ..self
        }
    }

    /// The row as the run is finalized: the bit is given up, unless the thread is to run again.
    pub(crate) fn finished(self) -> ThreadRow
        ensures { result ≡ finished_row self }
    {
        if self.finish() == Finished::NotDue {
            return self;
        }
        ThreadRow {
            stage: Stage::Finished,
            held: self.held && self.woken,
            ..self
        }
    }

    /// The row as the run ends.
    pub(crate) fn done(self, oneshot: bool) -> ThreadRow
        ensures { result ≡ done_row oneshot self }
    {
        if !self.may_end(oneshot) {
            return self;
        }
        ThreadRow {
            stage: Stage::Idle,
            ..self
        }
    }

    /// Whether a run may begin.
    pub(crate) fn may_begin(self) -> bool
        ensures { result ≡ may_begin self }
    {
        self.woken && self.stage == Stage::Idle
    }

    /// Whether the handler may return.
    pub(crate) fn may_return(self) -> bool
        ensures { result ≡ may_return self }
    {
        self.stage == Stage::Begun
    }

    /// What a finish finds.
    pub(crate) fn finish(self) -> Finished
        ensures { result ≡ finished_by self }
    {
        if self.stage != Stage::Returned {
            return Finished::NotDue;
        }
        if self.woken {
            Finished::Kept
        } else {
            Finished::Cleared
        }
    }

    /// Whether the run may end: it is finalized, or the line isn't one-shot and the handler has
    /// returned.
    pub(crate) fn may_end(self, oneshot: bool) -> bool
        ensures { result ≡ may_end oneshot self }
    {
        match self.stage {
            Stage::Returned => !oneshot,
            Stage::Finished => true,
            Stage::Idle | Stage::Begun => false,
        }
    }

    /// Whether the thread is neither to run nor in a run.
    pub(crate) fn is_idle(self) -> bool
        ensures { result ≡ is_idle_row self }
    {
        !self.woken && self.stage == Stage::Idle
    }

    /// Whether the thread could step, whatever the line is.
    pub(crate) fn is_ready(self) -> bool
        ensures { result ≡ is_ready self }
    {
        match self.stage {
            Stage::Idle => self.woken,
            Stage::Begun | Stage::Finished => true,
            Stage::Returned => false,
        }
    }

    /// Whether the thread's handler has returned, so that the run goes on if the line lets it.
    pub(crate) fn is_returned(self) -> bool
        ensures { result ≡ is_returned self }
    {
        self.stage == Stage::Returned
    }

    /// What the row counts of `threads_active`.
    pub(crate) fn active_part(self) -> u32
        ensures { result ≡ active_row self }
    {
        u32::from(self.woken) + u32::from(self.stage != Stage::Idle)
    }

    /// What the row counts of the bits that stand.
    pub(crate) fn held_part(self) -> u32
        ensures { result ≡ one_if self.held }
    {
        u32::from(self.held)
    }
}
