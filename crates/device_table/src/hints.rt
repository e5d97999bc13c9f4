//! Hints at where a device's value stands.
ghost use Rattle.std.specs.Prelude.{◌≡◌, ◌<◌, ◌^◌, ◌%◌, slice_index, slice_set};

use irq_base::DevNo;

/// How many hints there are.
const HINTS: usize = 256;

/// A place in a list for each value of the last eight bits of a device's number. It is a hint:
/// whoever looks there sees whether the device stands there.
#[derive(Drop)]
pub(crate) struct Hints {
    places: [u8; HINTS],
}

impl Hints {
    /// Hints that name the first place for every number.
    pub(crate) fn new() -> Hints {
        Hints { places: [0; HINTS] }
    }

    /// The place to look at first.
    pub(crate) fn place(&self, dev: DevNo) -> usize
        ensures { result ≡ slice_index self.now.places (dev.0 % 256) }
    {
        usize::from(self.places[dev.0 as usize % HINTS])
    }

    /// Notes that the device stands at `place`. A place that doesn't fit 8 bits isn't noted.
    pub(crate) fn note(&mut self, dev: DevNo, place: usize)
        ensures { place < 2 ^ 8 → self.new.places ≡ slice_set self.old.places (dev.0 % 256) place }
    {
        if let Ok(place) = u8::try_from(place) {
            self.places[dev.0 as usize % HINTS] = place;
        }
    }
}
