// What the arguments ask for: what the input is, a filter with its settings, and layers over it.
use anyhow::{Context, anyhow};
use histogram::bins::Bins;
use layers::biases::Biases;
use layers::limit::Limit;
use lines::{number, readings};
use observer::rate::Rate;
use std::env;
use tracker::gains::Gains;

pub(crate) const USAGE: &str =
    "usage: estimate [journal] [observer RATE | histogram ORIGIN WIDTH | tracker A B] [bias SENSOR BIAS].. [gate LIMIT] < input";

#[derive(Clone, Copy)]
pub(crate) enum Kind {
    Observer(Rate),
    Histogram(Bins),
    Tracker(Gains),
}

// What the input is to be read as; `Input` holds what was read.
#[derive(Clone, Copy)]
pub(crate) enum Source {
    Lines,
    Journal,
}

#[derive(Clone, Copy)]
pub(crate) struct Choice {
    pub(crate) source: Source,
    pub(crate) kind: Kind,
    pub(crate) biases: Biases,
    pub(crate) gate: Option<Limit>,
}

fn signed(word: &str) -> anyhow::Result<i64> {
    number(word).context(USAGE)
}

fn unsigned(word: &str) -> anyhow::Result<u64> {
    Ok(readings::unsigned(signed(word)?))
}

// The filter that the first words ask for, and the words behind them.
fn filter_of<'a, 'b>(words: &'a [&'b str]) -> anyhow::Result<(Kind, &'a [&'b str])> {
    match words {
        [] => Ok((Kind::Observer(Rate::new(2)?), words)),
        ["observer", rate, rest @ ..] => Ok((Kind::Observer(Rate::new(unsigned(rate)?)?), rest)),
        ["histogram", origin, width, rest @ ..] => {
            let bins = Bins::new(signed(origin)?, unsigned(width)?)?;
            Ok((Kind::Histogram(bins), rest))
        }
        ["tracker", a, b, rest @ ..] => {
            let gains = Gains::new(unsigned(a)?, unsigned(b)?)?;
            Ok((Kind::Tracker(gains), rest))
        }
        _ => Err(anyhow!(USAGE)),
    }
}

// The layers that the last words ask for; of several gates the last one stands.
fn layers_of(words: &[&str]) -> anyhow::Result<(Biases, Option<Limit>)> {
    let mut biases = Biases::new();
    let mut gate = None;
    let mut rest = words;
    while !rest.is_empty() {
        rest = match rest {
            ["bias", sensor, bias, more @ ..] => {
                biases.set(unsigned(sensor)?, signed(bias)?)?;
                more
            }
            ["gate", limit, more @ ..] => {
                gate = Some(Limit::new(unsigned(limit)?)?);
                more
            }
            _ => return Err(anyhow!(USAGE)),
        };
    }
    Ok((biases, gate))
}

fn choice_of(words: &[&str]) -> anyhow::Result<Choice> {
    let (source, words) = match words {
        ["journal", rest @ ..] => (Source::Journal, rest),
        _ => (Source::Lines, words),
    };
    let (kind, words) = filter_of(words)?;
    let (biases, gate) = layers_of(words)?;
    Ok(Choice {
        source,
        kind,
        biases,
        gate,
    })
}

pub(crate) fn choose(rt: &HostRuntime) -> anyhow::Result<Choice> {
    let arguments: Vec<String> = env::args(rt)?.skip(1).collect(rt.alloc())?;
    let words: Vec<&str> = arguments
        .iter()
        .map(|word| word.as_str())
        .collect(rt.alloc())?;
    choice_of(&words)
}
