//! What is promised of every play of lines behind a demultiplexer, over the definitions alone.
ghost use Rattle.std.specs.Prelude.{◌≡◌, true, None, List, reverse};
ghost use Rattle.irq_base.specs.declared.entries.Actor.{Actor};
ghost use Rattle.board_def.specs.Rules.{IsBoard};
ghost use Rattle.board_def.specs.Seen.{BoardSeen};
ghost use Rattle.board_play.specs.Kept.{AreKept};
ghost use Rattle.board_play.specs.Order.{due_move};
ghost use Rattle.board_play.specs.Orders.{IsMade};
ghost use Rattle.irq_chained.specs.Chain.{IsChainLegal, chain_next, chain_order, lines_in};
ghost use Rattle.irq_chained.specs.Fits.{is_for_chain};
ghost use Rattle.irq_chained.specs.Promise.{HasOneFlow, KeepsSignals};
ghost use Rattle.irq_chained.specs.declared.chain.ChainEntry.{ChainEntry};

/// Each step of a play was the next one of the actor that made it.
#[tactic(auto, using(crate::proofs::Chained::plays_are_legal))]
pub fn plays_are_legal()
    ensures law { (b : BoardSeen) (picks : List Actor) (g : List ChainEntry) (left : List Actor)
        → IsMade (chain_order b) picks g left → IsChainLegal b g }
{}

/// No child's signal is lost: at each moment a child with a take due has an open chain or a parent
/// that signals; and a chain is left only when no child of its status is left.
#[tactic(auto, using(crate::proofs::Chained::keeps_signals))]
pub fn keeps_signals()
    ensures law { (b : BoardSeen) (log : List ChainEntry) → IsChainLegal b (reverse log)
        → KeepsSignals b log }
{}

/// Chains don't nest: at most one child has a flow of processor 0.
#[tactic(auto, using(crate::proofs::OneFlow::one_flow))]
pub fn one_flow()
    ensures law { (b : BoardSeen) (g : List ChainEntry) → IsBoard b → IsChainLegal b g
        → HasOneFlow (lines_in b g) }
{}

/// No standstill: an actor that has no step of the chain can't move on its line either. So where
/// nobody has one all is as on any board: settled and delivered, or somebody hangs, as processor 0
/// in a chain that stays open.
#[tactic(auto, using(crate::proofs::Resting::rests))]
pub fn chain_rests()
    ensures law { (b : BoardSeen) → IsBoard b → is_for_chain b ≡ true → (g : List ChainEntry)
        → IsChainLegal b g → AreKept b (lines_in b g) → (a : Actor) → chain_next b g a ≡ None
        → due_move b (lines_in b g) a ≡ None }
{}
