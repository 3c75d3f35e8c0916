// What a refusal shows: its number and a sentence.
ghost use Rattle.std.specs.Prelude.{◌≡◌, Some};
ghost use Rattle.reading.specs.Refusals.{numbered, sentence, printed};

use crate::plain::Refusal;
use std::error::Error;
use std::fmt;

impl Refusal {
    // The number that a panel shows.
    pub fn number(self) -> u8
        ensures { result ≡ numbered self }
    {
        self as u8
    }

    // What was refused, in words.
    pub fn text(self) -> &'static str
        ensures { result.now ≡ sentence self }
    {
        match self {
            Refusal::Stamp => "the stamp is out of range",
            Refusal::Sensor => "the sensor is out of range",
            Refusal::Number => "the number is out of range",
            Refusal::Value => "the value is out of range",
            Refusal::Spread => "the spread is out of range",
            Refusal::Setting => "a setting is out of range",
            Refusal::Row => "the row belongs to no state of this filter",
            Refusal::CutNumber => "the bytes end inside a number",
            Refusal::LongNumber => "a number is not in its shortest form",
            Refusal::LargeNumber => "a number is too large",
            Refusal::LongRecord => "a record is longer than the rest of the journal",
            Refusal::Tag => "a record has an unknown tag",
            Refusal::Record => "a record's length and fields do not agree",
            Refusal::Space => "the space is too small",
            Refusal::BelowFloor => "the stamp is below the floor",
            Refusal::AboveFloor => "the stamp is too far above the floor",
            Refusal::KeyLogged => "the key is already logged",
            Refusal::LogFull => "the log is full",
            Refusal::KeyNotLogged => "the key is not logged",
            Refusal::SettleBelowFloor => "the floor does not move backwards",
        }
    }
}

impl fmt::Display for Refusal {
    ghost output = { λ r. Some (printed r) };

    fn fmt<W: fmt::Write>(&self, f: &mut fmt::Formatter<W>) -> fmt::Result {
        let number = self.number();
        let text = self.text();
        write!(f, "refusal {number}: {text}")
    }
}

impl Error for Refusal {}
