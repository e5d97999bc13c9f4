//! Masks of processors.
ghost use Rattle.std.specs.Prelude.{◌≡◌, ◌≤◌};
ghost use Rattle.board_stated.specs.Stated.{all_processors};

/// The mask of the processors 0 to `cpus` - 1.
pub fn all_processors(cpus: u32) -> u32
    requires { cpus ≤ 32 }
    ensures { result ≡ all_processors cpus }
{
    ((1_u64 << cpus) - 1) as u32
}
