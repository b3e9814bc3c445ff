//! The line of counts of a run, in two pieces.
ghost use Rattle.std.specs.Prelude.{◌≡◌};
ghost use Rattle.tick_outcome.specs.Counts.{counts_front, counts_end};

use asm_print::Line;
use host_edge::Counts;

/// The front of the line of counts: what was generated.
pub fn counts_front(counts: Counts) -> Line
    ensures { result ≡ counts_front counts }
{
    let mut line = Line::new();
    line.push(b"ops=");
    line.push_number(counts.ops);
    line.push(b" functions=");
    line.push_number(counts.functions);
    line.push(b" words=");
    line.push_number(counts.words);
    line
}

/// The end of the line of counts, with its line feed: what it took, and the instructions that were executed.
pub fn counts_end(counts: Counts, steps: u64) -> Line
    ensures { result ≡ counts_end counts steps }
{
    let mut line = Line::new();
    line.push(b" flushes=");
    line.push_number(counts.flushes);
    line.push(b" spills=");
    line.push_number(counts.spills);
    line.push(b" steps=");
    line.push_number(steps);
    line.push(b"\n");
    line
}
