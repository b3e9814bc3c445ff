//! What is said of a call on standard error.
ghost use Rattle.std.specs.Prelude.{◌≡◌, ◌++◌, ◌&&◌, OnOk, OnErr, is_some, map, string_bytes};
ghost use Rattle.std.specs.Io.KnownBytes.{Appends};
ghost use Rattle.command_words.specs.Orders.{asks_counts};
ghost use Rattle.host_edge.specs.Causes.{HasCause};
ghost use Rattle.host_edge.specs.Moves.{TakesFront};
ghost use Rattle.image_commands.specs.Said.{counts_said, said, Reports, unsaid};

use command_words::asks_counts;
use host_edge::{Failed, Sink, write_whole};
use tick_outcome::{Ended, Outcome, counts_end, counts_front, line_of};

// Writes two pieces, one behind the other.
fn write_both<E: Sink>(err: &mut E, first: &[u8], second: &[u8]) -> Result<(), Failed>
    ensures whole { OnOk result (Appends (E.taken err.old) (E.taken err.new) (first.now ++ second.now)) }
    ensures front { OnErr result (TakesFront (E.taken err.old) (E.taken err.new) (first.now ++ second.now)) }
    ensures cause { HasCause (E.faults err.old) (E.faults err.new) result }
{
    write_whole(err, first)?;
    write_whole(err, second)
}

// Whether the line of counts is said: the words ask for it, and a machine has run.
fn says_counts(words: &[String], ended: &Ended) -> bool
    ensures { result ≡ asks_counts (map string_bytes words.now) && is_some ended.now.image }
{
    asks_counts(words) && ended.image.is_some()
}

// Writes the line of counts, where it is said.
#[tactic(auto, using(crate::proofs::Spoken::said_whole, crate::proofs::Spoken::said_front, crate::proofs::Spoken::said_nothing))]
fn write_counts<E: Sink>(err: &mut E, words: &[String], ended: &Ended) -> Result<(), Failed>
    ensures whole { OnOk result (Appends
        (E.taken err.old) (E.taken err.new) (counts_said (map string_bytes words.now) ended.now)) }
    ensures front { OnErr result (TakesFront
        (E.taken err.old) (E.taken err.new) (counts_said (map string_bytes words.now) ended.now)) }
    ensures cause { HasCause (E.faults err.old) (E.faults err.new) result }
{
    if says_counts(words, ended) {
        let front = counts_front(ended.counts);
        let end = counts_end(ended.counts, ended.steps);
        write_both(err, front.as_bytes(), end.as_bytes())
    } else {
        Ok(())
    }
}

// Writes all that is said of a call.
fn write_said<E: Sink>(err: &mut E, words: &[String], ended: &Ended) -> Result<(), Failed>
    ensures whole { OnOk result (Appends
        (E.taken err.old) (E.taken err.new) (said (map string_bytes words.now) ended.now)) }
    ensures front { OnErr result (TakesFront
        (E.taken err.old) (E.taken err.new) (said (map string_bytes words.now) ended.now)) }
    ensures cause { HasCause (E.faults err.old) (E.faults err.new) result }
{
    let line = line_of(&ended.outcome);
    write_counts(err, words, ended)?;
    write_whole(err, line.as_bytes())
}

// What an outcome becomes where standard error fails.
fn unsaid(outcome: Outcome) -> Outcome
    ensures { result ≡ unsaid outcome }
{
    match outcome {
        Outcome::Done(_) => Outcome::WriteFault,
        other => other,
    }
}

/// Says on standard error what the call with these words did, with its counts where they ask for them; and what the
/// outcome then is.
pub fn report<E: Sink>(err: &mut E, words: &[String], ended: &Ended) -> Outcome
    ensures { Reports (said (map string_bytes words.now) ended.now) ended.now.outcome result
        (E.taken err.old) (E.taken err.new) (E.faults err.old) (E.faults err.new) }
{
    match write_said(err, words, ended) {
        Ok(()) => ended.outcome,
        Err(_) => unsaid(ended.outcome),
    }
}
