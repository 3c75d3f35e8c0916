// Examples that were worked by hand, for tests and for commissioning.
ghost use Rattle.std.specs.Prelude.{◌≡◌};
ghost use Rattle.tracker.specs.Examples.{worked};

use crate::plain::Track;

// What a tracker of gains 512 and 128 shows after readings of 10 at 100, 12 at 105 and 20 at 110; the same without the second; 0 at 100 and -1 at 103.
#[tactic(auto, unfolding(crate::specs::Tracking::part, filter::specs::Common::limit))]
pub fn worked_examples() -> [Track; 3]
    ensures { result ≡ worked }
{
    [
        Track { x: 15_999, u: 275 },
        Track { x: 15_360, u: 128 },
        Track { x: -512, u: -43 },
    ]
}
