// Carries out calls in the order of their arrival, from lines or a journal, and reports the estimates that key order gives.
#![tactic(auto)]

mod choice;
mod journaled;
mod report;
mod script;
mod scripted;
mod show;
mod standing;
#[cfg(test)]
mod tests;

use anyhow::anyhow;
use choice::{Choice, Kind, Source, choose};
use filter::Filter;
use histogram::Histogram;
use journaled::report_journal;
use layers::bias::Bias;
use layers::gate::Gate;
use observer::Observer;
use script::{Line, Script};
use scripted::report_script;
use show::Shown;
use std::alloc::Global;
use std::io::Read;
use std::{fmt, io};
use tracker::Tracker;

// What came in.
#[derive(Drop)]
enum Input {
    Lines(Script),
    Journal(Vec<u8>),
}

fn read(rt: &HostRuntime, source: Source) -> io::Result<Input> {
    match source {
        Source::Lines => {
            let lines = rt
                .lines(rt.alloc())
                .map(|line| -> io::Result<_> { Ok(line?.parse::<Line>()) })
                .try_collect(rt.alloc())?;
            Ok(Input::Lines(Script { lines }))
        }
        Source::Journal => {
            let mut bytes = Vec::new(rt.alloc());
            rt.stdin().read_to_end(&mut bytes)?;
            Ok(Input::Journal(bytes))
        }
    }
}

// An input, and what to make of it.
#[derive(Clone, Copy)]
struct Task<'a> {
    heap: Global,
    input: &'a Input,
    choice: Choice,
}

impl Task<'_> {
    // The report over filters that are made alike.
    fn report<F: Filter + Drop, M: Fn() -> F>(&self, make: M) -> anyhow::Result<String>
    where
        F::Estimate: PartialEq,
        Shown<F::Estimate>: fmt::Display,
        requires { M.IsAlwaysCallable make }
    {
        match self.input {
            Input::Lines(script) => Ok(report_script(self.heap, script, make)?),
            Input::Journal(bytes) => report_journal(self.heap, bytes, make),
        }
    }

    // The report over the filter and the layers that were chosen: a reading is corrected first, and then held back or not.
    // Each stack is written out: a closure that puts a layer over what a parameter makes is refused, since its result names a type that neither its captures nor its arguments do.
    fn told(&self) -> anyhow::Result<String> {
        let biases = self.choice.biases;
        match (self.choice.kind, self.choice.gate) {
            (Kind::Observer(rate), None) => self.report(|| Bias::of(biases, Observer::new(rate))),
            (Kind::Observer(rate), Some(limit)) => {
                self.report(|| Bias::of(biases, Gate::new(limit, Observer::new(rate))))
            }
            (Kind::Tracker(gains), None) => self.report(|| Bias::of(biases, Tracker::new(gains))),
            (Kind::Tracker(gains), Some(limit)) => {
                self.report(|| Bias::of(biases, Gate::new(limit, Tracker::new(gains))))
            }
            (Kind::Histogram(bins), None) => {
                self.report(|| Bias::of(biases, Histogram::new(bins)))
            }
            (Kind::Histogram(_), Some(_)) => {
                Err(anyhow!("a histogram does not forecast, so no gate can stand over it"))
            }
        }
    }
}

fn run(rt: &HostRuntime) -> anyhow::Result<()> {
    let choice = choose(rt)?;
    let input = read(rt, choice.source)?;
    let task = Task {
        heap: rt.alloc(),
        input: &input,
        choice,
    };
    rt.print(task.told()?.as_str())?;
    Ok(())
}

fn main(rt: HostRuntime) -> anyhow::Result<()> {
    run(&rt)
}
