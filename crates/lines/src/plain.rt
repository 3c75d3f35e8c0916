// Why a line of text is no reading.
ghost use Rattle.std.specs.Prelude.{◌≡◌};
ghost use Rattle.lines.specs.declared.plain.LineFault.TheVariants.{Refused};

use reading::plain::Refusal;

#[derive(Clone, Copy, PartialEq, Eq, Debug)]
pub enum LineFault {
    // not of the form that was asked for
    Malformed,
    // of the form, and refused
    Refused(Refusal),
}

impl From<Refusal> for LineFault {
    ghost from_gives = { λ refusal fault. fault ≡ Refused refusal };

    fn from(refusal: Refusal) -> LineFault {
        LineFault::Refused(refusal)
    }
}

// The five numbers of a line, as they were written.
#[derive(Clone, Copy, PartialEq, Eq, Debug)]
pub struct Figures {
    pub stamp: i64,
    pub sensor: i64,
    pub number: i64,
    pub value: i64,
    pub spread: i64,
}
