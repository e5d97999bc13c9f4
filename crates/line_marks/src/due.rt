//! What is due of each actor is read off the state and the drivers' places. And an entry that is
//! due meets what the functions of the state expect of it.
ghost use Rattle.std.specs.Prelude.{◌≡◌, ℕ, ◌≤◌, Bool, true, List, Option, length};
ghost use Rattle.irq_base.specs.declared.calls.Call.{Call};
ghost use Rattle.irq_base.specs.declared.calls.Flags.{Flags};
ghost use Rattle.irq_base.specs.declared.entries.Actor.{Actor};
ghost use Rattle.irq_base.specs.declared.entries.Actor.TheVariants as actors;
ghost use Rattle.irq_base.specs.declared.entries.Entry.{Entry};
ghost use Rattle.irq_base.specs.declared.entries.Entry.TheVariants as by;
ghost use Rattle.irq_base.specs.declared.entries.CpuEntry.TheVariants as cpus;
ghost use Rattle.irq_base.specs.declared.entries.DriverEntry.TheVariants as drivers;
ghost use Rattle.irq_base.specs.declared.entries.LinkAnswer.TheVariants as links;
ghost use Rattle.irq_base.specs.declared.entries.Note.{Note};
ghost use Rattle.irq_base.specs.declared.entries.Opened.{Opened};
ghost use Rattle.irq_base.specs.declared.entries.TakeAnswer.{TakeAnswer};
ghost use Rattle.irq_base.specs.declared.entries.Way.{Way};
ghost use Rattle.irq_base.specs.declared.lines.LineDef.{LineDef};
ghost use Rattle.irq_base.specs.declared.numbers.CpuNo.{CpuNo};
ghost use Rattle.irq_base.specs.declared.numbers.DevNo.{DevNo};
ghost use Rattle.irq_base.specs.declared.numbers.DriverNo.{DriverNo};
ghost use Rattle.irq_model.specs.Due.{calls_by, due_call};
ghost use Rattle.irq_model.specs.Legal.{IsDue, IsLegalPast};
ghost use Rattle.irq_model.specs.Next.{next, next_past, next_of_driver};
ghost use Rattle.irq_model.specs.Valid.{IsValid};
ghost use Rattle.act_list.specs.Actions.{is_bare};
ghost use Rattle.line_scripts.specs.Rows.{RowSeen, calls_of, place_of, within_of};
ghost use Rattle.run_scripts.specs.Runs.{RunsSeen};
ghost use Rattle.line_marks.specs.Acts.{arrived, moved, entered, handling_from, noted_at};
ghost use Rattle.line_marks.specs.Acts.{killed_by, killed_if, left_by, left_at, gone_on};
ghost use Rattle.line_marks.specs.Acts.{linked_at, activated_if, opened_to};
ghost use Rattle.line_marks.specs.CpuDue.{cpu_due, is_held, note_by, end_with};
ghost use Rattle.line_marks.specs.DriversDue.{asks_own, driver_due, opened_by};
ghost use Rattle.line_marks.specs.Due.{thread_due};
ghost use Rattle.line_marks.specs.Expected.{IsExpected};
ghost use Rattle.line_marks.specs.Line.{IsLine};
ghost use Rattle.line_marks.specs.Next.{due_call_in, due_by};
ghost use Rattle.line_marks.specs.Scripts.{IsAt};
ghost use Rattle.line_marks.specs.State.{StateSeen, state_of, state_after};

/// What is due of a thread of the line: its run begins, it makes the next call of its script, its
/// handler returns, the run is finalized or is over.
#[tactic(auto, using(crate::proofs::DueIs::thread_is))]
pub fn thread_due_is_told()
    ensures law { (def : LineDef) (past : List Entry) (d : DevNo) → IsValid def
        → IsLegalPast def past
        → next_past def past (actors.Thread d) ≡ thread_due def (state_of def past) d }
{}

/// What is due of a processor: in its flow the next call of the handler at work or its return, the
/// next handler's begin, or the end by the line's flow; else the take of what is presented or
/// resent.
#[tactic(auto, using(crate::proofs::CpuDueIs::cpu_due_is))]
pub fn cpu_due_is_told()
    ensures law { (def : LineDef) (past : List Entry) (c : CpuNo) → IsValid def
        → IsLegalPast def past
        → next_past def past (actors.Cpu c) ≡ cpu_due def (state_of def past) c }
{}

/// What is due of a driver, by its due call and how many entries the call has made: all calls, but
/// for an ask of a device that the line lacks, which is due of nobody.
#[tactic(auto, using(crate::proofs::DriversDueIs::driver_due_is, crate::proofs::DriversDueIs::driver_is))]
pub fn driver_due_is_told()
    ensures calls { (def : LineDef) (past : List Entry) (r : DriverNo) (o : Option (Call × ℕ))
        → IsValid def → IsLegalPast def past → asks_own def o ≡ true
        → next_of_driver def r past o ≡ driver_due def (state_of def past) r o }
    ensures law { (def : LineDef) (past : List Entry) (r : DriverNo) → IsValid def
        → IsLegalPast def past
        → next_past def past (actors.Driver r)
        ≡ driver_due def (state_of def past) r (due_call def r past) }
{}

/// What is due of every actor, by the state and the places of the drivers' scripts.
#[tactic(auto, using(crate::proofs::DueIs::due_is, crate::proofs::DueIs::due_on))]
pub fn due_is_told()
    ensures law { (def : LineDef) (past : List Entry) (scripts : List (DriverNo × RowSeen))
        → ((r : DriverNo) → calls_of scripts r ≡ calls_by r def.calls)
        → ((r : DriverNo) → IsAt def past r (place_of scripts r) (within_of scripts r))
        → (a : Actor) → IsValid def → IsLegalPast def past
        → next_past def past a ≡ due_by def (state_of def past) scripts a }
    ensures line { (def : LineDef) (h : List Entry) (s : StateSeen)
        (scripts : List (DriverNo × RowSeen)) (runs : RunsSeen) (a : Actor)
        → IsLine def h s scripts runs → next def h a ≡ due_by def s scripts a }
{}

/// A driver's due call is the call at its place.
#[tactic(auto, using(crate::proofs::DueIs::call_is))]
pub fn due_call_is_told()
    ensures law { (def : LineDef) (past : List Entry) (scripts : List (DriverNo × RowSeen))
        → ((r : DriverNo) → calls_of scripts r ≡ calls_by r def.calls)
        → ((r : DriverNo) → IsAt def past r (place_of scripts r) (within_of scripts r))
        → (r : DriverNo) → due_call def r past ≡ due_call_in scripts r }
{}

/// An entry that is due is what the functions of the state expect: its answers are the state's, a
/// device that is requested isn't linked, and each count has room for one more.
#[tactic(auto, using(crate::proofs::ExpectedOf::expected))]
pub fn due_is_expected()
    ensures law { (def : LineDef) (past : List Entry) → IsValid def → IsLegalPast def past
        → length past ≤ def.log
        → (e : Entry) → IsDue def e past → IsExpected def e (state_of def past) }
{}

/// What a take makes of the state is what its parts make of it, one after another.
#[tactic(auto, using(crate::proofs::Takes::take_is))]
pub fn take_is_its_parts()
    ensures law { (def : LineDef) (cpu : CpuNo) (way : Way) (answer : TakeAnswer) (s : StateSeen)
        → IsValid def
        → state_after def (by.Cpu cpu (cpus.Take way answer)) s
        ≡ handling_from answer (moved (entered def def.flow answer cpu (arrived way s))) }
{}

/// What an end makes of the state is what its parts make of it, if the end is the one that is due.
#[tactic(auto, using(crate::proofs::Ends::end_is))]
pub fn end_is_its_parts()
    ensures law { (def : LineDef) (c : CpuNo) (again unmask : Bool) (note : Note) (s : StateSeen)
        → by.Cpu c (cpus.End again unmask note)
        ≡ end_with c (note_by s) (left_by def def.flow (is_held s) (killed_if (note_by s) s.desc))
        → state_after def (by.Cpu c (cpus.End again unmask note)) s
        ≡ gone_on def again (left_at def def.flow (is_held s) (killed_by note (noted_at s))) }
{}

/// What a linked request makes of the state is what its parts make of it, if it opens the line as
/// the state says.
#[tactic(auto, using(crate::proofs::Linking::request_is))]
pub fn request_is_its_parts()
    ensures law { (def : LineDef) (r : DriverNo) (d : DevNo) (flags : Flags) (opened : Opened)
        (s : StateSeen) → opened ≡ opened_by def flags s
        → state_after def (by.Driver r (drivers.Request flags links.Linked opened d)) s
        ≡ opened_to (is_bare s.list.actions) opened
        (activated_if (is_bare s.list.actions) (linked_at d flags s)) }
{}
