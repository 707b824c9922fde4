// check_trace — says what is in the trace on standard input, or which of its lines is refused first and why.
#![tactic(auto)]

use anyhow::bail;
use std::io;
use std::io::Read;
use trace::{Damage, Summary};

// A switch takes this many events after an opening, and refuses the next.
const EVENTS: usize = 90_000_000;

fn main(rt: HostRuntime) -> anyhow::Result<()> {
    let mut text = Vec::new(rt.alloc());
    rt.stdin().read_to_end(&mut text)?;
    match trace::inspect(text.as_slice()) {
        Ok(summary) => print_summary(&rt, &summary)?,
        Err(damage) => {
            print_damage(&rt, &damage)?;
            bail!("a line of the trace is refused");
        }
    }
    Ok(())
}

// The page is laid out here and not by the types: another program may show them in another way.
fn print_summary(rt: &impl Print, summary: &Summary) -> io::Result<()> {
    let (letter, ports, cells) = summary.head();
    println!(rt; "rule      {}, {}", char::from(letter), summary.rule())?;
    println!(rt; "ports     {ports}")?;
    println!(rt; "cells     {cells}")?;
    println!(rt; "lines     {}", summary.lines())?;
    println!(rt; "arrivals  {}", summary.arrivals())?;
    println!(rt; "ticks     {}", summary.ticks())?;
    for (port, arrivals) in summary.arrivals_by_port().iter().enumerate() {
        if *arrivals > 0 {
            println!(rt; "port {port:>3}  {arrivals}")?;
        }
    }
    if summary.lines() > EVENTS + 1 {
        println!(rt;
            "note      a switch takes {EVENTS} events; it refuses line {} with 6",
            EVENTS + 2
        )?;
    }
    Ok(())
}

fn print_damage(rt: &impl Print, damage: &Damage) -> io::Result<()> {
    let refusal = damage.refusal();
    println!(rt; "refused   line {}", damage.line())?;
    println!(rt; "number    {}", refusal.number())?;
    println!(rt; "meaning   {refusal}")?;
    println!(rt; "column    {}", refusal.column())
}
