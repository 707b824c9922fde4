// events.rt — what the lines after the head of a trace are.

#[derive(Clone, Copy, PartialEq, Eq, Debug)]
pub enum Event {
    // A cell with this tag arrives for this port.
    Arrival { port: usize, tag: u32 },
    // Every port sends.
    Tick,
}
