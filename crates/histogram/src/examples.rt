// Examples that were worked by hand, for tests and for commissioning.
ghost use Rattle.std.specs.Prelude.{◌≡◌};
ghost use Rattle.histogram.specs.Examples.{worked};

// The bins of the values -1, 9, 10, 159 and 160, for the origin 0 and the width 10.
pub fn worked_examples() -> [usize; 5]
    ensures { result ≡ worked }
{
    [0, 0, 1, 15, 15]
}
