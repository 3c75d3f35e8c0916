// The bias layer: it corrects every reading by what its sensor is off.
ghost use Rattle.std.specs.Prelude.{◌≡◌, replicate, pos, slice_index_or};
ghost use Rattle.layers.specs.Passing.{corrected, biased};
ghost use Rattle.layers.specs.Setting.{set_answer, set_left};
ghost use Rattle.layers.specs.Corrected.{corrected_ranged};
ghost use Rattle.std.proofs.Common.{rules};

use crate::biases::Biases;
use filter::common::limited;
use filter::{Filter, Forecasting, Row};
use reading::plain::{Entry, Refusal, VALUE_MAX};
use reading::{Reading, Stamp};

#[derive(Drop)]
pub struct Bias<F: Filter> {
    biases: Biases,
    inner: F,
}

// The reading with its value less by a bias, and limited.
fn correct(reading: Reading, bias: i32) -> Reading
    ensures { result.entry ≡ corrected bias reading.entry }
{
    let e = reading.entry();
    let value = limited(VALUE_MAX as u32, i64::from(e.value) - i64::from(bias)) as i32;
    Reading::try_from(Entry { value, ..e }).unwrap_or(reading)
}

impl<F: Filter> Bias<F> {
    // A layer over a filter, with every bias at 0.
    pub fn new(inner: F) -> Bias<F>
        ensures biases { result.biases.by_sensor ≡ replicate 16 (pos 0) }
        ensures inner { result.inner ≡ inner }
    {
        Bias {
            biases: Biases::new(),
            inner,
        }
    }

    // A layer over a filter, with the biases of a table.
    pub fn of(biases: Biases, inner: F) -> Bias<F>
        ensures biases { result.biases ≡ biases }
        ensures inner { result.inner ≡ inner }
    {
        Bias { biases, inner }
    }

    // Sets the bias of one sensor, or refuses and leaves the layer as it is.
    pub fn set(&mut self, sensor: u64, bias: i64) -> Result<(), Refusal>
        ensures answer { result ≡ set_answer sensor bias }
        ensures biases { self.new.biases.by_sensor ≡ set_left self.old.biases.by_sensor sensor bias }
        ensures inner { self.new.inner ≡ self.old.inner }
    {
        self.biases.set(sensor, bias)
    }
}

impl<F: Filter> Filter for Bias<F> {
    type Settings = (Biases, F::Settings);

    type State = F::State;

    type Estimate = F::Estimate;

    ghost settings = { λ b. (b.biases, F.Filter.settings b.inner) };

    ghost state = { λ b. F.Filter.state b.inner };

    ghost stepped = { biased F.Filter.stepped };

    ghost possible = { F.Filter.possible };

    ghost rowed = { F.Filter.rowed };

    ghost shown = { F.Filter.shown };

    ghost stands = { Prim.search rules };

    ghost keeps = { λ c s e r. F.Filter.keeps c.1 s _ (corrected_ranged (slice_index_or c.0.by_sensor e.sensor (pos 0)) e r) };

    ghost apart = { Prim.search rules };

    fn step(&mut self, reading: Reading) {
        let bias = self.biases.of(reading.entry().sensor);
        self.inner.step(correct(reading, bias))
    }

    // Handed on here and in the other layer: one impl for both would need a type and a trait more.
    fn save(&self, row: &mut Row) {
        self.inner.save(row)
    }

    fn restore(&mut self, row: &Row) -> Result<(), Refusal> {
        self.inner.restore(row)
    }

    fn estimate(&self) -> F::Estimate {
        self.inner.estimate()
    }
}

impl<F: Forecasting> Forecasting for Bias<F> {
    ghost forecasts = { λ c. F.Forecasting.forecasts c.1 };

    fn forecast(&self, stamp: Stamp) -> Option<i32> {
        self.inner.forecast(stamp)
    }
}
