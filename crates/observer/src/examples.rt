// Examples that were worked by hand, for tests and for commissioning.
ghost use Rattle.std.specs.Prelude.{◌≡◌};
ghost use Rattle.observer.specs.Examples.{worked};

use crate::plain::Bounds;

// What an observer of rate 2 shows after readings of spread 4: 10 at 100, 12 at 105 and 20 at 110; the same and then 30 at 111; the same and then 40 at 111.
#[tactic(auto, unfolding(crate::specs::Observing::met, filter::specs::Common::limit))]
pub fn worked_examples() -> [Bounds; 3]
    ensures { result ≡ worked }
{
    [
        Bounds {
            low: 16,
            high: 24,
            conflicts: 0,
        },
        Bounds {
            low: 26,
            high: 26,
            conflicts: 0,
        },
        Bounds {
            low: 36,
            high: 44,
            conflicts: 1,
        },
    ]
}
