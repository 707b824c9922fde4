// summary.rt — what is in a trace.
ghost use Rattle.std.specs.Prelude.{◌≡◌, slice_index};
ghost use Rattle.trace.specs.Rule.{letter_of};

use crate::rule::Rule;

// What is in a trace whose every line is taken.
#[derive(Clone, Copy, PartialEq, Eq, Debug)]
pub struct Summary {
    pub(crate) rule: Rule,
    pub(crate) ports: usize,
    pub(crate) cells: usize,
    pub(crate) lines: usize,
    pub(crate) arrivals: usize,
    pub(crate) ticks: usize,
    // the arrivals of each port, in a table: reading a trace takes no memory, so it cannot run out of it
    pub(crate) tally: [usize; 256],
}

impl Summary {
    // What `head` answers to the first line: the letter of the tie rule, the ports and the cells.
    pub fn head(&self) -> (u8, usize, usize)
        ensures { result ≡ (letter_of self.now.rule, self.now.ports, self.now.cells) }
    {
        (self.rule.letter(), self.ports, self.cells)
    }

    // The tie rule that the trace asks for.
    pub fn rule(&self) -> Rule
        ensures { result ≡ self.now.rule }
    {
        self.rule
    }

    // The lines, the head among them.
    pub fn lines(&self) -> usize
        ensures { result ≡ self.now.lines }
    {
        self.lines
    }

    pub fn arrivals(&self) -> usize
        ensures { result ≡ self.now.arrivals }
    {
        self.arrivals
    }

    pub fn ticks(&self) -> usize
        ensures { result ≡ self.now.ticks }
    {
        self.ticks
    }

    // The arrivals for each port, from port 0 to port 255.
    pub fn arrivals_by_port(&self) -> &[usize; 256]
        ensures { result.now ≡ self.now.tally }
    {
        &self.tally
    }

    // The arrivals for this port; 0 for a port above 255.
    pub fn arrivals_for(&self, port: usize) -> usize
        ensures { result ≡ slice_index self.now.tally port }
    {
        self.tally.get(port).copied().unwrap_or(0)
    }
}
