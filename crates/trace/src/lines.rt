// lines.rt — cutting a text into its lines.
ghost use Rattle.std.specs.Prelude.{◌≡◌, ◌==◌};
ghost use Rattle.trace.specs.Text.{line_length, Cut, LosesNothing};

// The next line of the text, through its octet 10, and the rest; without an octet 10 all the text is the line.
#[tactic(auto, using(crate::proofs::Cutting::line_fits, crate::proofs::Cutting::lines_kept))]
pub fn cut(text: &[u8]) -> (&[u8], &[u8])
    ensures places { Cut text.now result.0.now result.1.now }
    ensures law { LosesNothing text.now result.0.now result.1.now }
{
    text.split_at(line_length(text))
}

// How many octets the next line has; 0 where there is none.
fn line_length(text: &[u8]) -> usize
    ensures { result ≡ line_length text.now }
{
    let mut lines = text.split_inclusive(ends_line);
    lines.next().map_or(0, |line| line.len())
}

// Whether a line ends with this octet.
pub(crate) fn ends_line(octet: &u8) -> bool
    ensures { result ≡ (octet.now == 10) }
{
    *octet == b'\n'
}
