// The ranges of a serial session's fields.
ghost use Rattle.std.specs.Prelude.{◌≡◌};
ghost use Rattle.serial.specs.Step.{serial_outside};

use load::Load;
use place::Place;

#[tactic(auto, using(terms::proofs::Refusals::walk), unfolding(crate::specs::Step::serial_outside))]
pub(crate) fn is_outside(load: Load, place: Place) -> bool
    ensures { result ≡ serial_outside load place }
{
    load.is_outside() || range::is_outside(place, load)
}
