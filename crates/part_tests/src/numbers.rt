//! A space of numbers.
ghost use Rattle.std.specs.Prelude.{◌≡◌, ◌∷◌, [], ◌≤◌, ◌<◌, ◌+◌, ◌^◌, ℕ, List};
ghost use Rattle.part_tests.specs.Numbers.{CanStep, number};

use irq_base::NoMemory;
use state_search::{Found, Space};

/// A step.
#[derive(Clone, Copy, Debug, PartialEq, Eq)]
pub enum Step {
    /// Twice the number.
    Double,
    /// The number and one.
    AddOne,
}

/// The numbers from 1 to the limit to which steps lead, and one of them that is wanted.
#[derive(Drop)]
pub struct Numbers {
    /// The greatest number.
    pub limit: u16,
    /// The number that is wanted; 0 if none is.
    pub wanted: u16,
}

impl Space<Step> for Numbers {
    ghost can = { λ s step g. CanStep s.limit step g };

    ghost node = { λ s g. number g ∷ [] };

    ghost wanted = { λ s g. number g ≡ s.wanted };

    fn first(&mut self, words: &mut Vec<u32>) -> Result<(), NoMemory> {
        words.push(1)?;
        Ok(())
    }

    fn steps(&mut self, words: &[u32], found: &mut Found<Step>) -> Result<(), NoMemory> {
        let limit = u32::from(self.limit);
        let Some(number) = words.first().copied() else {
            return Ok(());
        };
        if number <= limit / 2 {
            found.push(Step::Double, &[number + number])?;
        }
        if number < limit {
            found.push(Step::AddOne, &[number + 1])?;
        }
        Ok(())
    }

    fn is_wanted(&mut self, words: &[u32], found: &Found<Step>) -> Result<bool, NoMemory> {
        let _ = found;
        Ok(words.first().copied() == Some(u32::from(self.wanted)))
    }
}
