// The lines of the input, each a call or a question, in the order of arrival.
use lines::number;
use lines::plain::LineFault;
use lines::readings::{key_of, reading_of, unsigned};
use runs::plain::{Call, Request};
use std::alloc::{AllocError, Global};
use std::str::FromStr;

// What a line asks for: a call, or the estimate. An enum and no Option: an ask is a question of its own, and no missing call.
#[derive(Clone, Copy)]
pub(crate) enum Line {
    Call(Call),
    Ask,
}

impl Line {
    fn request(self) -> Request {
        match self {
            Line::Call(call) => Request::Make(call),
            Line::Ask => Request::Estimate,
        }
    }

    fn call(self) -> Option<Call> {
        match self {
            Line::Call(call) => Some(call),
            Line::Ask => None,
        }
    }
}

fn call_of(word: &str, fields: &str) -> Result<Call, LineFault> {
    match word {
        "offer" => Ok(Call::Offer(reading_of(fields)?)),
        "withdraw" => Ok(Call::Withdraw(key_of(fields)?)),
        "revise" => Ok(Call::Revise(reading_of(fields)?)),
        "settle" => {
            let ticks = number(fields).ok_or(LineFault::Malformed)?;
            Ok(Call::Settle(unsigned(ticks)))
        }
        _ => Err(LineFault::Malformed),
    }
}

impl FromStr for Line {
    type Err = LineFault;

    fn from_str(text: &str) -> Result<Line, LineFault> {
        if text == "ask" {
            return Ok(Line::Ask);
        }
        let (word, fields) = text.split_once(' ').ok_or(LineFault::Malformed)?;
        Ok(Line::Call(call_of(word, fields)?))
    }
}

// Each line, or why it was passed over.
#[derive(Drop)]
pub(crate) struct Script {
    pub(crate) lines: Vec<Result<Line, LineFault>>,
}

impl Script {
    // What the lines put to an engine, in turn.
    pub(crate) fn requests(&self, heap: Global) -> Result<Vec<Request>, AllocError> {
        self.lines
            .iter()
            .filter_map(|line| Some(line.ok()?.request()))
            .collect(heap)
    }

    pub(crate) fn calls(&self, heap: Global) -> Result<Vec<Call>, AllocError> {
        self.lines
            .iter()
            .filter_map(|line| line.ok()?.call())
            .collect(heap)
    }
}
