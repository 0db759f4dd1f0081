// One lifting step on one float.
ghost use Rattle.std.specs.Prelude.{◌≡◌};
ghost use Rattle.filter_floats.specs.Steps.{lift};

use base_samples::floats::Real;

// What a lifting step by c makes of x between two neighbours.
#[tactic(auto, unfolding(filter_floats::specs::Steps::lift))]
pub fn lift<F: Real>(left: F, right: F, c: F, x: F) -> F
    ensures { F.float result ≡ lift F.format (F.float c) (F.float left) (F.float right) (F.float x) }
{
    (left + right) * c + x
}
