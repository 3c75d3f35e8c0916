// The report of a script carried out on an engine.
use crate::report::{Summary, questions};
use crate::script::{Line, Script};
use crate::show::Shown;
use filter::Filter;
use runs::asking::{ask, compare};
use runs::plain::Answer;
use runs::running::run;
use std::alloc::{AllocError, Global};
use std::fmt;
use std::fmt::Write;

impl Summary {
    // Adds what a line came to, as the engine answered it.
    fn line<E: Copy>(&mut self, n: usize, line: Line, answer: Answer<E>) -> Result<(), AllocError>
    where
        Shown<E>: fmt::Display,
    {
        // In two steps: the borrow checker does not cover a pattern that reaches into the call of a line.
        match line {
            Line::Call(call) => match answer {
                Answer::Made(Ok(count)) => self.accept("line", n, call, count),
                Answer::Made(Err(refusal)) => {
                    writeln!(self.text, "line {n}: {}: {refusal}", Shown(call))
                }
                _ => Ok(()),
            },
            Line::Ask => match answer {
                Answer::Estimated(estimate) => {
                    writeln!(self.text, "line {n}: {}", Shown(estimate))
                }
                _ => Ok(()),
            },
        }
    }

    // Adds each line with its answer; a line that was passed over has none. The answers are let go, so that what follows has their memory.
    fn lines<E: Copy>(&mut self, script: &Script, answers: Vec<Answer<E>>) -> Result<(), AllocError>
    where
        Shown<E>: fmt::Display,
    {
        let mut answers = answers.into_iter();
        for (i, line) in script.lines.iter().enumerate() {
            let n = i + 1;
            match *line {
                Ok(line) => {
                    if let Some(answer) = answers.next() {
                        self.line(n, line, answer)?;
                    }
                }
                Err(fault) => writeln!(self.text, "line {n}: {}", Shown(fault))?,
            }
        }
        Ok(())
    }
}

// Carries the script out on one engine; then an engine that is given the same calls and one that is given the standing readings in key order are asked everything.
pub(crate) fn report_script<F: Filter + Drop, M: Fn() -> F>(
    heap: Global,
    script: &Script,
    make: M,
) -> Result<String, AllocError>
where
    F::Estimate: PartialEq,
    Shown<F::Estimate>: fmt::Display,
    requires { M.IsAlwaysCallable make }
{
    let mut begun = run(heap, make(), &[])?;
    let answers = ask(heap, &mut begun.engine, &script.requests(heap)?)?;
    let mut summary = Summary::new(heap);
    summary.lines(script, answers)?;
    let calls = script.calls(heap)?;
    summary.count("lines", script.lines.len(), calls.len())?;
    let ordered = summary.standing.in_key_order(heap)?;
    let all = questions(heap)?;
    let (came, sorted) = compare(heap, make(), &calls, make(), &ordered, &all)?;
    summary.conclude(&came, &sorted)?;
    Ok(summary.text)
}
