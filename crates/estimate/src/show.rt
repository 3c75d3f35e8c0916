// Estimates, calls and faults in a form that a person reads at a glance.
use lines::plain::LineFault;
use observer::plain::Bounds;
use runs::plain::Call;
use std::fmt;
use tracker::plain::Track;

// A value, printed in the words of a report.
#[derive(Drop)]
pub(crate) struct Shown<T>(pub(crate) T);

impl fmt::Display for Shown<Bounds> {
    fn fmt<W: fmt::Write>(&self, f: &mut fmt::Formatter<W>) -> fmt::Result {
        let Bounds {
            low,
            high,
            conflicts,
        } = self.0;
        write!(f, "level {low} to {high}, {conflicts} conflicts")
    }
}

// A bar for each bin, the longest of forty marks.
impl fmt::Display for Shown<[u32; 16]> {
    fn fmt<W: fmt::Write>(&self, f: &mut fmt::Formatter<W>) -> fmt::Result {
        let most = self.0.iter().copied().max().unwrap_or(0).max(1);
        write!(f, "counts")?;
        for (i, n) in self.0.iter().enumerate() {
            let marks = (u64::from(*n) * 40 / u64::from(most)) as usize;
            write!(f, "\n{i:>4} {n:>10} {:#<marks$}", "")?;
        }
        Ok(())
    }
}

// A number of 1,024 parts to the unit, in thousandths.
#[derive(Clone, Copy)]
struct Units(i32);

impl fmt::Display for Units {
    fn fmt<W: fmt::Write>(&self, f: &mut fmt::Formatter<W>) -> fmt::Result {
        let sign = if self.0 < 0 { "-" } else { "" };
        let thousandths = u64::from(self.0.unsigned_abs()) * 1_000 / 1_024;
        write!(
            f,
            "{sign}{}.{:03}",
            thousandths / 1_000,
            thousandths % 1_000
        )
    }
}

impl fmt::Display for Shown<Track> {
    fn fmt<W: fmt::Write>(&self, f: &mut fmt::Formatter<W>) -> fmt::Result {
        let Track { x, u } = self.0;
        write!(
            f,
            "position {}, speed {} a tick (x {x}, u {u})",
            Units(x),
            Units(u)
        )
    }
}

impl fmt::Display for Shown<Call> {
    fn fmt<W: fmt::Write>(&self, f: &mut fmt::Formatter<W>) -> fmt::Result {
        f.write_str(match self.0 {
            Call::Offer(_) => "offer",
            Call::Withdraw(_) => "withdraw",
            Call::Revise(_) => "revise",
            Call::Settle(_) => "settle",
        })
    }
}

// An accepted call with the engine's answer.
#[derive(Clone, Copy)]
pub(crate) struct Made {
    pub(crate) call: Call,
    pub(crate) count: usize,
}

impl fmt::Display for Made {
    fn fmt<W: fmt::Write>(&self, f: &mut fmt::Formatter<W>) -> fmt::Result {
        let Made { call, count } = *self;
        let word = Shown(call);
        match call {
            Call::Settle(_) => write!(f, "{word} dropped {count}"),
            _ => write!(f, "{word} at place {count}"),
        }
    }
}

impl fmt::Display for Shown<LineFault> {
    fn fmt<W: fmt::Write>(&self, f: &mut fmt::Formatter<W>) -> fmt::Result {
        match self.0 {
            LineFault::Malformed => write!(f, "not understood"),
            LineFault::Refused(refusal) => write!(f, "{refusal}"),
        }
    }
}
