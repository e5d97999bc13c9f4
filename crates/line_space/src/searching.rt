//! What a search through the states of one line says of the line's histories. There is no code:
//! each law is the clause of a function with an empty body.

ghost use Rattle.std.specs.Prelude.{◌≡◌, ◌≤◌, ℕ, Bool, true, Option, None, Some, List, length};
ghost use Rattle.std.specs.Prelude.{map, take, slice_get, Contains};
ghost use Rattle.irq_base.specs.declared.entries.Entry.{Entry};
ghost use Rattle.irq_base.specs.declared.lines.LineDef.{LineDef};
ghost use Rattle.irq_model.specs.Legal.{IsDue, IsLegalPast};
ghost use Rattle.irq_model.specs.Valid.{IsValid};
ghost use Rattle.irq_model.specs.ValidRuns.{HasValidRuns, NeverWaits};
ghost use Rattle.irq_storms.specs.Lengths.{IsBounded};
ghost use Rattle.line_futures.specs.Futures.{AreAlike};
ghost use Rattle.line_space.specs.Found.{IsShortest, IsNever, IsNotWithin, ComesToEnd};
ghost use Rattle.line_space.specs.Found.{ComesToRest};
ghost use Rattle.line_words.specs.Node.{node};
ghost use Rattle.state_search.specs.Firsts.{IsNoted, AreFirsts};
ghost use Rattle.state_search.specs.Paths.{IsPath, IsBelow, AreSteps, Searches};
ghost use Rattle.state_search.specs.declared.firsts.First.{First};

/// The paths of the search are the legal pasts of the line.
#[tactic(auto, using(crate::proofs::SearchLaws::path_is_legal, crate::proofs::SearchLaws::legal_is_path))]
pub fn paths_are_legal()
    ensures legal { (def : LineDef) (g : List Entry) → IsPath (IsDue def) g → IsLegalPast def g }
    ensures path { (def : LineDef) (g : List Entry) → IsLegalPast def g → IsPath (IsDue def) g }
{}

/// Two legal pasts have the same numbers exactly if they are alike. So the numbers tell all on
/// which the future depends, and nothing else.
#[tactic(auto, using(crate::proofs::Nodes::node_tells, crate::proofs::Nodes::node_same))]
pub fn node_is_told()
    ensures alike { (def : LineDef) → IsValid def → (g h : List Entry) → IsLegalPast def g
        → IsLegalPast def h → node def g ≡ node def h → AreAlike def g h }
    ensures same { (def : LineDef) → IsValid def → (g h : List Entry) → IsLegalPast def g
        → IsLegalPast def h → AreAlike def g h → node def g ≡ node def h }
{}

/// What may come next after one past, and where it leads, is so after every past with the same
/// numbers: it is enough to look after one of them.
pub fn steps_are_alike()
    ensures law { (def : LineDef) → IsValid def → (g h : List Entry)
        (found : List (Entry × List ℕ)) → IsLegalPast def g → IsLegalPast def h
        → node def g ≡ node def h → AreSteps (IsDue def) (node def) g found
        → AreSteps (IsDue def) (node def) h found }
{}

/// What a search through the states of a line says of its histories: it has the state of each legal
/// one, or, if it was cut, of each that is shorter than the cut; and for each state a legal past
/// than which none that leads there is shorter.
#[tactic(auto, using(crate::proofs::SearchLaws::reached, crate::proofs::SearchLaws::shortest))]
pub fn search_tells_of_states()
    ensures reached { (def : LineDef) (paths : List (List Entry)) (looked : ℕ) (cut : Option ℕ)
        → Searches (IsDue def) (node def) paths looked cut → (h : List Entry)
        → IsLegalPast def h → IsBelow cut (length h)
        → Contains (map (node def) (take looked paths)) (node def h) }
    ensures shortest { (def : LineDef) (paths : List (List Entry)) (looked : ℕ) (cut : Option ℕ)
        → Searches (IsDue def) (node def) paths looked cut → (k : ℕ) (p : List Entry)
        → slice_get paths k ≡ Some p → IsLegalPast def p
        × ((h : List Entry) → IsLegalPast def h → node def h ≡ node def p
        → length p ≤ length h) }
{}

/// What a search through the states of a line says of an entry. If it was met, the path to the
/// state in which it came first is a shortest legal past before it. If it wasn't, no legal history
/// has it; or, if the search was cut, none that isn't longer than the cut.
#[tactic(auto, using(crate::proofs::SearchLaws::never, crate::proofs::SearchLaws::not_within))]
pub fn search_tells_of_entries()
    ensures met { (def : LineDef) (eq : Entry → Entry → Bool) (paths : List (List Entry))
        (looked : ℕ) (cut : Option ℕ) (firsts : List (First Entry))
        → Searches (IsDue def) (node def) paths looked cut
        → AreFirsts eq (IsDue def) paths cut firsts
        → (k : ℕ) (f : First Entry) → slice_get firsts k ≡ Some f → eq f.label f.label ≡ true
        → (p : List Entry) × (slice_get paths f.place ≡ Some p) × IsShortest def f.label p }
    ensures never { (def : LineDef) (eq : Entry → Entry → Bool) (paths : List (List Entry))
        (looked : ℕ) (cut : Option ℕ) (firsts : List (First Entry))
        → Searches (IsDue def) (node def) paths looked cut
        → AreFirsts eq (IsDue def) paths cut firsts
        → (e : Entry) → cut ≡ None → (IsNoted eq firsts e → ⊥) → IsNever def e }
    ensures not_within { (def : LineDef) (eq : Entry → Entry → Bool) (paths : List (List Entry))
        (looked : ℕ) (cut : Option ℕ) (firsts : List (First Entry))
        → Searches (IsDue def) (node def) paths looked cut
        → AreFirsts eq (IsDue def) paths cut firsts
        → (e : Entry) (n : ℕ) → cut ≡ Some n → (IsNoted eq firsts e → ⊥) → IsNotWithin def e n }
{}

/// Each legal history of a line that has a bound goes on until nothing more is due, since none is
/// longer. If nobody hangs then, the line is at rest: so it is where no run waits.
#[tactic(auto, using(crate::proofs::Resting::comes_to_end, crate::proofs::Resting::comes_to_rest))]
pub fn histories_come_to_rest()
    ensures law { (def : LineDef) → IsValid def → HasValidRuns def → IsBounded def
        → (past : List Entry) → IsLegalPast def past → ComesToEnd def past }
    ensures rest { (def : LineDef) → IsValid def → HasValidRuns def → NeverWaits def
        → IsBounded def → (past : List Entry) → IsLegalPast def past → ComesToRest def past }
{}
