//! Places by number.
ghost use Rattle.board_core.specs.Numbers.{IsRising, IsPlaceOfNumber};

/// The place of the number in a rising list of numbers; none if it isn't there.
pub(crate) fn place_of(numbers: &[u32], number: u32) -> Option<usize>
    requires { IsRising numbers.now }
    ensures { IsPlaceOfNumber numbers.now number result }
{
    match numbers.binary_search(&number) {
        Ok(place) => Some(place),
        Err(_) => None,
    }
}
