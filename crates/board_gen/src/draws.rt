//! Draws of numbers.
ghost use Rattle.std.specs.Prelude.{◌≡◌, ◌<◌};
ghost use Rattle.board_gen.specs.Drawing.{drawn, next_x};

/// A linear congruential generator: the first x determines all draws.
#[derive(Drop)]
pub(crate) struct Draws {
    pub(crate) x: u32,
}

impl Draws {
    /// A number below the bound.
    pub(crate) fn draw(&mut self, bound: u32) -> u32
        requires { 0 < bound }
        ensures x { self.new.x ≡ next_x self.old.x }
        ensures drawn { result ≡ drawn bound self.new.x }
        ensures below { result < bound }
    {
        let next = (1_664_525 * u64::from(self.x) + 1_013_904_223) % 4_294_967_296;
        self.x = next as u32;
        self.x / 65_536 % bound
    }
}
