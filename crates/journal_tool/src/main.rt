// Turns journals into readable lines and back.
#![tactic(auto)]

mod decode;
mod encode;
mod escape;
#[cfg(test)]
mod tests;

use anyhow::{Context, anyhow};
use decode::listing;
use encode::journal_of;
use std::env;
use std::io::{Read, Write};

const USAGE: &str = "usage: journal_tool decode < journal, or journal_tool encode < lines";

fn input(rt: &HostRuntime) -> anyhow::Result<Vec<u8>> {
    let mut bytes = Vec::new(rt.alloc());
    rt.stdin().read_to_end(&mut bytes)?;
    Ok(bytes)
}

fn run(rt: &HostRuntime) -> anyhow::Result<()> {
    let mut words = env::args(rt)?.skip(1);
    let word = words.next().context(USAGE)?;
    let bytes = input(rt)?;
    match word.as_str() {
        "decode" => {
            let text = listing(rt.alloc(), &bytes)?;
            rt.stdout().write_all(text.as_bytes())?;
        }
        "encode" => {
            let text = str::from_utf8(&bytes)
                .ok()
                .context("the lines are no text")?;
            let journal = journal_of(rt.alloc(), text)?;
            rt.stdout().write_all(&journal)?;
        }
        _ => return Err(anyhow!(USAGE)),
    }
    Ok(())
}

fn main(rt: HostRuntime) -> anyhow::Result<()> {
    run(&rt)
}
