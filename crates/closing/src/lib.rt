// The lines with which the program ends: the answer to a refused query, and the last line of a stream.
#![tactic(auto)]

ghost use Rattle.std.specs.Prelude.{◌≤◌, ◌<◌, length};
ghost use Rattle.io.specs.Counts.{IsPrefixLen};
ghost use Rattle.limits.specs.Number.{fault_of};
ghost use Rattle.lines.specs.Put.{Put};
ghost use Rattle.closing.specs.Line.{query_line, last_line, line_of_end};

use limits::Refusal;
use query::QueryFault;
use session::{Counts, StartFault};

// "Refusal 9 is written `refused 9`, and refusal 10 `refused 10 at K reason N`." The program lends enough room, so it never writes `refused 15`.
// A session that is begun is answered by no line.
pub fn query_line(answer: Result<(), StartFault>, text: &mut [u8]) -> usize
    requires { 64 ≤ length text.old }
    ensures put { Put text.old 0 (query_line answer) text.new result }
    ensures prefix_len { IsPrefixLen result text.new }
{
    match answer {
        Ok(()) => 0,
        Err(StartFault::ShortRoom) => lines::put_refused(Refusal::ShortRoom.number(), text),
        Err(StartFault::Query(QueryFault::Length)) => {
            lines::put_refused(Refusal::BadLength.number(), text)
        }
        Err(StartFault::Query(QueryFault::Step(step, reason))) => {
            let number = Refusal::BadStep.number();
            lines::put_refused_for(number, step as u64, reason.number(), text)
        }
    }
}

// "E is the number of the refused event, counted from 1; for refusal 8 the number of accepted events". A refusal is its number, 0 where none was.
pub fn last_line(finish: Result<Counts, u8>, taken: u64, refusal: u8, text: &mut [u8]) -> usize
    requires { (64 ≤ length text.old) × (taken < 18446744073709551615) }
    ensures put { Put text.old 0 (last_line finish taken refusal) text.new result }
    ensures prefix_len { IsPrefixLen result text.new }
{
    if 0 < refusal {
        return lines::put_refused_at(refusal, taken + 1, text);
    }
    match finish {
        Err(r) => lines::put_refused_at(r, taken, text),
        Ok(counts) => lines::put_end(counts.handed as u64, text),
    }
}

// The same, by what finish answers and by the refusal at which the program stops.
pub fn line_of_end(
    finish: Result<Counts, Refusal>,
    taken: u64,
    refusal: Option<Refusal>,
    text: &mut [u8],
) -> usize
    requires { (64 ≤ length text.old) × (taken < 18446744073709551615) }
    ensures put { Put text.old 0 (line_of_end finish taken (fault_of refusal)) text.new result }
    ensures prefix_len { IsPrefixLen result text.new }
{
    match (refusal, finish) {
        (Some(r), _) => last_line(Err(r.number()), taken, r.number(), text),
        (None, Err(r)) => last_line(Err(r.number()), taken, 0, text),
        (None, Ok(counts)) => last_line(Ok(counts), taken, 0, text),
    }
}
