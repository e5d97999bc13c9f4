//! Plays that were worked out by hand, row by row, of boards behind one demultiplexer and of boards
//! that sleep: the definitions come to the same rows. There is no code: each law is the clause of a
//! function with an empty body, proved by computing.

ghost use Rattle.std.specs.Prelude.{◌≡◌, [], ◌∷◌};
ghost use Rattle.irq_chained.specs.Chain.{chain_order};
ghost use Rattle.irq_pm.specs.Phases.{sleep_order};
ghost use Rattle.irq_pm.specs.Phases.Phase.{Picking};
ghost use Rattle.irq_pm.specs.SleptBoard.{slept};
ghost use Rattle.board_tests.specs.Chains.{one_child, one_child_rows, two_children};
ghost use Rattle.board_tests.specs.Chains.{two_children_rows, asks_again, asks_again_rows};
ghost use Rattle.board_tests.specs.Chains.{edge_within, edge_within_rows, level_within};
ghost use Rattle.board_tests.specs.Chains.{level_within_rows, threads_first, threads_first_rows};
ghost use Rattle.board_tests.specs.Chains.{soft_resend, soft_resend_rows, sibling_disabled};
ghost use Rattle.board_tests.specs.Chains.{sibling_disabled_rows};
ghost use Rattle.board_tests.specs.Made.{played_from};
ghost use Rattle.board_tests.specs.Short.{line};
ghost use Rattle.board_tests.specs.Sleeps.{armed, armed_rows, unarmed, unarmed_rows};

/// Behind one demultiplexer each of these boards has exactly these rows.
pub fn chains_are_as_worked_out()
    ensures one_child { played_from (chain_order one_child) one_child.picks ≡ one_child_rows }
    ensures two_children { played_from (chain_order two_children) two_children.picks
        ≡ two_children_rows }
    ensures asks_again { played_from (chain_order asks_again) asks_again.picks ≡ asks_again_rows }
    ensures edge_within { played_from (chain_order edge_within) edge_within.picks
        ≡ edge_within_rows }
    ensures level_within { played_from (chain_order level_within) level_within.picks
        ≡ level_within_rows }
    ensures threads_first { played_from (chain_order threads_first) threads_first.picks
        ≡ threads_first_rows }
    ensures soft_resend { played_from (chain_order soft_resend) soft_resend.picks
        ≡ soft_resend_rows }
    ensures sibling_disabled { played_from (chain_order sibling_disabled) sibling_disabled.picks
        ≡ sibling_disabled_rows }
{}

/// With line 1 armed, or with none, the board sleeps with exactly these rows.
pub fn sleeps_are_as_worked_out()
    ensures armed { played_from (sleep_order (slept armed) (line 1 ∷ [])) (Picking armed.picks)
        ≡ armed_rows }
    ensures unarmed { played_from (sleep_order (slept unarmed) []) (Picking unarmed.picks)
        ≡ unarmed_rows }
{}
