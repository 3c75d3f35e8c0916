// What the reports of a script and of a journal have in common.
use crate::show::{Made, Shown};
use crate::standing::Standing;
use reading_log::changes::ROOM;
use runs::plain::{Answer, Call, Request};
use std::alloc::{AllocError, Global};
use std::fmt;
use std::fmt::Write;

// All questions: the estimate, the floor, the length, and every place of the log.
pub(crate) fn questions(heap: Global) -> Result<Vec<Request>, AllocError> {
    [Request::Estimate, Request::Floor, Request::Length]
        .into_iter()
        .chain((0..ROOM).map(Request::EntryAt))
        .collect(heap)
}

// The text of a report so far, and what stands after the calls in it.
#[derive(Drop)]
pub(crate) struct Summary {
    pub(crate) text: String,
    pub(crate) standing: Standing,
}

impl Summary {
    pub(crate) fn new(heap: Global) -> Summary {
        Summary {
            text: String::new(heap),
            standing: Standing::new(heap),
        }
    }

    // Adds an accepted call, which came in a line or at a byte.
    pub(crate) fn accept(
        &mut self,
        unit: &str,
        n: usize,
        call: Call,
        count: usize,
    ) -> Result<(), AllocError> {
        writeln!(self.text, "{unit} {n}: {}", Made { call, count })?;
        self.standing.accept(call)
    }

    // Adds how many lines or records there were, and how many of them were calls.
    pub(crate) fn count(
        &mut self,
        units: &str,
        all: usize,
        calls: usize,
    ) -> Result<(), AllocError> {
        writeln!(
            self.text,
            "{units} {all}, calls {calls}, accepted {}, out of order {}",
            self.standing.accepted, self.standing.late
        )
    }

    // Ends with what two engines answered to all questions: the estimate, and whether they answer alike.
    pub(crate) fn conclude<E: PartialEq + Copy>(
        &mut self,
        came: &[Answer<E>],
        sorted: &[Answer<E>],
    ) -> Result<(), AllocError>
    where
        Shown<E>: fmt::Display,
    {
        if let Some(Answer::Estimated(estimate)) = sorted.first() {
            writeln!(self.text, "in the end: {}", Shown(*estimate))?;
        }
        let how = if came == sorted { "alike" } else { "otherwise" };
        writeln!(
            self.text,
            "a second engine, given the standing readings in key order, answers {how}"
        )
    }
}
