// One step of a tracker, and what it expects.
ghost use Rattle.std.specs.Prelude.{◌≡◌, ◌≤◌, ◌+ℤ◌, unsigned_abs};
ghost use Rattle.tracker.specs.Ranges.{x_max};
ghost use Rattle.tracker.specs.Tracking.{span, ahead, moved, turned, first, later, tracked, forecasted};

use crate::Tracker;
use crate::gains::Gains;
use crate::plain::{SCALE, SPAN_MAX, Track, TrackerState, U_MAX, X_MAX};
use crate::whole::{share, times};
use filter::common::limited;
use reading::{Reading, Stamp};

impl Gains {
    // A position p after a miss by r.
    fn shift(self, p: i32, r: i32) -> i32
        requires { (unsigned_abs p ≤ x_max) × (unsigned_abs (p +ℤ r) ≤ x_max) }
        ensures { result ≡ moved self.a p r }
    {
        (i64::from(p) + share(r, self.a(), SCALE as u32)) as i32
    }

    // A speed u, held for d ticks, after a miss by r.
    fn turn(self, u: i32, r: i32, d: u16) -> i32
        ensures { result ≡ turned self.b u r d }
    {
        let n = SCALE as u32 * u32::from(d.max(1));
        limited(U_MAX, i64::from(u) + share(r, self.b(), n)) as i32
    }
}

impl Track {
    // The track that a first reading begins.
    fn first(reading: Reading) -> Track
        ensures { result ≡ first reading.entry.value }
    {
        Track {
            x: reading.entry().value * SCALE,
            u: 0,
        }
    }

    // Where the position has come after d ticks.
    fn ahead(self, d: u16) -> i32
        ensures value { result ≡ ahead self d }
        ensures within { unsigned_abs result ≤ x_max }
    {
        limited(X_MAX, i64::from(self.x) + times(self.u, d)) as i32
    }

    // The track that a later reading corrects, after d ticks.
    fn later(self, gains: Gains, d: u16, reading: Reading) -> Track
        ensures { result ≡ later gains self d reading.entry.value }
    {
        let p = self.ahead(d);
        let missed = reading.entry().value * SCALE - p;
        Track {
            x: gains.shift(p, missed),
            u: gains.turn(self.u, missed, d),
        }
    }
}

impl Tracker {
    // The ticks for which the speed is held.
    fn span(&self, stamp: Stamp) -> u16
        ensures { result ≡ span self.now.state.last stamp.ticks }
    {
        stamp.ticks().saturating_sub(self.state.last).min(SPAN_MAX) as u16
    }

    // The state after one more reading.
    pub(crate) fn after(&self, reading: Reading) -> TrackerState
        ensures { result ≡ tracked self.now.gains self.now.state reading.entry }
    {
        let stamp = reading.stamp();
        let track = match self.state.track {
            Some(track) => track.later(self.gains, self.span(stamp), reading),
            None => Track::first(reading),
        };
        TrackerState {
            last: self.state.last.max(stamp.ticks()),
            track: Some(track),
        }
    }

    // The value expected at a stamp, or none before the first reading.
    pub(crate) fn expected(&self, stamp: Stamp) -> Option<i32>
        ensures { result ≡ forecasted self.now.state stamp.ticks }
    {
        let d = self.span(stamp);
        let track = self.state.track;
        track.map(|track| track.ahead(d).div_euclid(SCALE))
    }
}
