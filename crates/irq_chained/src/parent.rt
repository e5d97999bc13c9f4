//! The parent's input.
ghost use Rattle.std.specs.Prelude.{◌≡◌, false};
ghost use Rattle.irq_base.specs.Cell.{after_ack, after_high, after_mask, after_unmask, fresh_cell};
ghost use Rattle.irq_base.specs.Cell.{is_edge_cell};
ghost use Rattle.irq_base.specs.declared.lines.Trigger.TheVariants as triggers;

use chip_kinds::LevelChip;
use irq_base::Chip;
use std::marker::Model;

/// One level input of the parent, whose interrupt is active from the start. Contracts see its cell.
#[derive(Drop)]
pub struct ParentInput {
    chip: LevelChip,
}

impl Model for ParentInput {
    ghost use Rattle.std.specs.Prelude.{◌≡◌, true};
    ghost use Rattle.irq_base.specs.Cell.{Cell};

    ghost Value = { Cell };

    ghost view = { λ input. ⟦<LevelChip as Chip>⟧.cell input.chip };

    ghost invariant = { λ input. ⟦<LevelChip as Chip>⟧.active input.chip ≡ true };
}

impl ParentInput {
    /// The input of a chained handler, which is activated and opened at once
    /// (`__irq_do_set_handler`, `kernel/irq/chip.c`).
    pub fn new() -> ParentInput
        ensures { result ≡ after_unmask (fresh_cell triggers.Level false false false false) }
    {
        let mut chip = LevelChip::new();
        chip.activate();
        chip.unmask();
        ParentInput { chip }
    }

    /// The level is high or low from now on.
    #[inline(always)]
    pub fn set_high(&mut self, high: bool)
        requires { is_edge_cell self.old ≡ false }
        ensures { self.new ≡ after_high high self.old }
    {
        self.chip.set_high(high);
    }

    /// Masks and acknowledges it (`chained_irq_enter`, `include/linux/irqchip/chained_irq.h`).
    #[inline(always)]
    pub fn enter(&mut self)
        ensures { self.new ≡ after_ack (after_mask self.old) }
    {
        self.chip.mask();
        self.chip.ack();
    }

    /// Unmasks it (`chained_irq_exit`).
    #[inline(always)]
    pub fn exit(&mut self)
        ensures { self.new ≡ after_unmask self.old }
    {
        self.chip.unmask();
    }
}
