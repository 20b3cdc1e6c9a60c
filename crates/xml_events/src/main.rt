// Reads `names.txt` and `catalogue.xml`, writes the event records to standard output, and a refusal as one line to standard error.
//
// What comes is read block by block (crate intake): one read, the events of what has come, written as their buffer fills, and only then the next read.
#![tactic(auto)]

ghost use Rattle.std.specs.Prelude.{◌≡◌, ◌≤◌, length, IfSome, IfNone};
ghost use Rattle.chains.specs.Index.{index_words};
ghost use Rattle.system.specs.Marks.{Failed};
ghost use Rattle.intake.specs.Owed.{judged};
ghost use Rattle.xml_events.specs.Program.{more_to_do, ReadAll, TextAnswered, Answered, Outcome};

use intake::{Intake, Verdict};
use std::io::Stdout;
use system::File;

// Whether there is more to do.
#[tactic(auto, unfolding(crate::specs::Program::more_to_do, choice::specs::When::when))]
fn more_to_do(intake: &Intake, written: bool) -> bool
    ensures { result ≡ more_to_do intake.now.refusal intake.now.ended written }
{
    intake.refusal == 0 && !intake.ended && written
}

// How far the text is read after all turns, or nothing where standard output did not take all that was handed to it. A file need not end, but the loop does:
// a turn gets a byte, takes one, or is the last, and no more are asked for than `LONGEST` says.
fn write_events(file: &File, to: Stdout, names: &[u8], index: &[u32]) -> Option<Intake>
    requires { index_words ≤ length index.now }
    ensures read { IfSome result (λ i. ReadAll names.now index.now file.now i) }
    ensures failed { IfNone result Failed }
{
    let mut input = [0u8; 65536];
    let mut room = [0u8; 18496];
    let mut events = [0u8; 32768];
    let mut intake = intake::begin();
    let mut written = true;
    // Kept: how many turns there are is for the file and the events to say, so there is nothing that a `for` could go over (d).
    'turns: while more_to_do(&intake, written) {
        intake = intake::advance(
            file,
            intake,
            &mut input,
            names,
            index,
            &mut room,
            &mut events,
        );
        written = system::write(to, &events[..intake.written]);
    }
    written.then_some(intake)
}

// "a file that can't be opened counts as empty": every read of it fails.
fn answer_text(rt: &HostRuntime, names: &[u8], index: &[u32]) -> Option<Verdict>
    requires { index_words ≤ length index.now }
    ensures { TextAnswered names.now index.now (judged result) }
{
    let file = system::open(rt, b"catalogue.xml");
    let read = write_events(&file, rt.stdout(), names, index);
    system::close(file);
    intake::judge(read?)
}

// The list of names is judged first.
fn answer(rt: &HostRuntime) -> Option<Verdict>
    ensures { Answered (judged result) }
{
    let mut names = intake::names_room();
    let mut index = intake::index_room();
    let n = intake::read_names(rt, &mut names);
    if let Err(fault) = names::build(&names[..n], &mut index) {
        return Some(Verdict {
            refusal: fault.refusal.number(),
            at: fault.line as u64,
        });
    }
    answer_text(rt, &names[..n], &index)
}

// The whole program; `main` itself can have no contract.
fn answer_files(rt: &HostRuntime)
    ensures { Outcome }
{
    if let Some(verdict) = answer(rt) {
        let mut line = [0u8; 64];
        let length = lines::put_refused_at(verdict.refusal, verdict.at, &mut line);
        system::write_error(rt.stderr(), &line[..length]);
    }
}

fn main(rt: HostRuntime) {
    answer_files(&rt);
}
