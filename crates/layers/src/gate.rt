// The gate layer: it holds back readings that lie too far from their forecast.
ghost use Rattle.std.specs.Prelude.{◌≡◌};
ghost use Rattle.layers.specs.Passing.{passes, gated};
ghost use Rattle.std.proofs.Common.{rules};

use crate::limit::Limit;
use filter::{Filter, Forecasting, Row};
use reading::plain::Refusal;
use reading::{Reading, Stamp};

#[derive(Drop)]
pub struct Gate<F: Forecasting> {
    limit: Limit,
    inner: F,
}

impl Limit {
    // Whether a value passes where this is forecast.
    fn passes(self, forecast: Option<i32>, value: i32) -> bool
        ensures { result ≡ passes self.most forecast value }
    {
        forecast.is_none_or(|expected| value.abs_diff(expected) <= self.most())
    }
}

impl<F: Forecasting> Gate<F> {
    // A gate of this limit over a filter.
    pub fn new(limit: Limit, inner: F) -> Gate<F>
        ensures limit { result.limit ≡ limit }
        ensures inner { result.inner ≡ inner }
    {
        Gate { limit, inner }
    }
}

impl<F: Forecasting> Filter for Gate<F> {
    type Settings = (Limit, F::Settings);

    type State = F::State;

    type Estimate = F::Estimate;

    ghost settings = { λ g. (g.limit, F.Filter.settings g.inner) };

    ghost state = { λ g. F.Filter.state g.inner };

    ghost stepped = { gated F.Forecasting.forecasts F.Filter.stepped };

    ghost possible = { F.Filter.possible };

    ghost rowed = { F.Filter.rowed };

    ghost shown = { F.Filter.shown };

    ghost stands = { Prim.search rules };

    ghost keeps = { Prim.search rules };

    ghost apart = { Prim.search rules };

    fn step(&mut self, reading: Reading) {
        let forecast = self.inner.forecast(reading.stamp());
        if self.limit.passes(forecast, reading.entry().value) {
            self.inner.step(reading)
        }
    }

    // Handed on here and in the other layer: one impl for both would need a type and a trait more.
    fn save(&self, row: &mut Row) {
        self.inner.save(row)
    }

    fn restore(&mut self, row: &Row) -> Result<(), Refusal> {
        self.inner.restore(row)
    }

    fn estimate(&self) -> F::Estimate {
        self.inner.estimate()
    }
}

impl<F: Forecasting> Forecasting for Gate<F> {
    ghost forecasts = { λ c. F.Forecasting.forecasts c.1 };

    fn forecast(&self, stamp: Stamp) -> Option<i32> {
        self.inner.forecast(stamp)
    }
}
