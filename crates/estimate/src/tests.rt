// Reports of a journal: three offers, the third late, a settle, an offer below the floor, a note, an ask and a cut record.
use crate::choice::{Choice, Kind, Source};
use crate::{Input, Task};
use histogram::bins::Bins;
use layers::biases::Biases;
use layers::limit::Limit;
use observer::rate::Rate;
use std::alloc::Global;
use std::test::Fail;
use tracker::gains::Gains;

const JOURNAL: [u8; 39] = [
    6, 1, 0x64, 0, 1, 0x14, 4, 6, 1, 0x6e, 0, 2, 0x28, 4, 6, 1, 0x69, 1, 1, 0x18, 4, 2, 4, 0x69, 6,
    1, 0x68, 2, 1, 0, 4, 3, 5, b'u', b'p', 1, 6, 2, 4,
];

const CALLS: &str = "byte 0: offer at place 0
byte 7: offer at place 1
byte 14: offer at place 1
byte 21: settle dropped 1
byte 24: engine: refusal 16: the stamp is below the floor
byte 31: note of 2 bytes
";

const TALLY: &str = "byte 37: record: refusal 11: a record is longer than the rest of the journal
records 8, calls 5, accepted 4, out of order 1
";

const ALIKE: &str = "a second engine, given the standing readings in key order, answers alike
";

// Whether the report shows the estimate, in this form, at byte 35 and in the end.
fn reports(heap: Global, kind: Kind, gate: Option<Limit>, estimate: &str) -> Result<bool, Fail> {
    let input = Input::Journal(JOURNAL.to_vec(heap)?);
    let choice = Choice {
        source: Source::Journal,
        kind,
        biases: Biases::new(),
        gate,
    };
    let expected = format!(in heap;
        "{CALLS}byte 35: {estimate}{TALLY}in the end: {estimate}{ALIKE}"
    )?;
    let task = Task {
        heap,
        input: &input,
        choice,
    };
    let text = task.told()?;
    Ok(text == expected)
}

#[test]
fn levels(rt: HostRuntime) -> Result<(), Fail> {
    let kind = Kind::Observer(Rate::new(2)?);
    assert!(rt; reports(rt.alloc(), kind, None, "level 16 to 24, 0 conflicts\n")?);
    Ok(())
}

#[test]
fn tracks(rt: HostRuntime) -> Result<(), Fail> {
    let kind = Kind::Tracker(Gains::new(512, 128)?);
    let estimate = "position 15.624, speed 0.268 a tick (x 15999, u 275)\n";
    assert!(rt; reports(rt.alloc(), kind, Some(Limit::new(50)?), estimate)?);
    Ok(())
}

#[test]
fn counts(rt: HostRuntime) -> Result<(), Fail> {
    let kind = Kind::Histogram(Bins::new(0, 10)?);
    let estimate = "counts
   0          0 
   1          2 ########################################
   2          1 ####################
   3          0 
   4          0 
   5          0 
   6          0 
   7          0 
   8          0 
   9          0 
  10          0 
  11          0 
  12          0 
  13          0 
  14          0 
  15          0 
";
    assert!(rt; reports(rt.alloc(), kind, None, estimate)?);
    Ok(())
}
