// inspection.rt — going through a whole trace, line by line.
ghost use Rattle.std.specs.Prelude.{◌≡◌, IfOk};
ghost use Rattle.trace.specs.Text.{lines_of};
ghost use Rattle.trace.specs.Counting.{Countable, counted};
ghost use Rattle.trace.specs.Inspection.{event_for, Inspected, AddsUp};

use crate::damage::Damage;
use crate::events::Event;
use crate::lines::{cut, ends_line};
use crate::reader::{event, opening};
use crate::summary::Summary;
use refusal::Refusal;

// What is in the trace, or the first of its lines that is refused. Besides what `head` and `event` refuse,
// an arrival for a port that the head does not open is refused.
pub fn inspect(text: &[u8]) -> Result<Summary, Damage>
    ensures answer { Inspected (lines_of text.now) result }
    ensures law { IfOk result AddsUp }
{
    let (first, rest) = cut(text);
    let (rule, ports, cells) = opening(first).map_err(|refusal| Damage { line: 1, refusal })?;
    let mut summary = Summary {
        rule,
        ports,
        cells,
        lines: 1,
        arrivals: 0,
        ticks: 0,
        tally: [0; 256],
    };
    for line in rest.split_inclusive(ends_line) {
        let number = summary.lines + 1;
        let event = event_for(ports, line).map_err(|refusal| Damage {
            line: number,
            refusal,
        })?;
        summary.count(event);
    }
    Ok(summary)
}

// The event that the line is, in a trace for this many ports.
fn event_for(ports: usize, line: &[u8]) -> Result<Event, Refusal>
    ensures { result ≡ event_for ports line.now }
{
    match event(line) {
        Ok(Event::Arrival { port, .. }) if port >= ports => Err(Refusal::NoSuchPort),
        answer => answer,
    }
}

impl Summary {
    // Counts one more line, which is this event.
    fn count(&mut self, event: Event)
        requires { Countable self.old event }
        ensures { self.new ≡ counted self.old event }
    {
        match event {
            Event::Arrival { port, .. } => {
                self.arrivals += 1;
                self.tally[port] += 1;
            }
            Event::Tick => self.ticks += 1,
        }
        self.lines += 1;
    }
}
