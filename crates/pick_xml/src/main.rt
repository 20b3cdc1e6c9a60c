// Reads `query.rec`, `names.txt` and `catalogue.xml`, writes each node number on a line of its own as it is handed out, and one last line.
//
// What comes is worked on as it comes (crate text_turns): one read, the events of what has come, the lines of what they handed out, and only then the next
// read. So a pipe is answered as it runs, and no text needs more room than another.
#![tactic(auto)]

ghost use Rattle.std.specs.Prelude.{◌+◌, ◌*◌, ◌≤◌, length};
ghost use Rattle.meaning.specs.Limits.{node_limit, elements_needed, nodes_needed};
ghost use Rattle.chains.specs.Index.{index_words};
ghost use Rattle.io.specs.Counts.{IsPrefixLen};
ghost use Rattle.lines.specs.Put.{Put};
ghost use Rattle.turns.specs.Turns.{Started};
ghost use Rattle.intake.specs.Intake.{longest};
ghost use Rattle.pick_xml.specs.Program.{line_of, TextAnswered, NamesAnswered, Replied, Outcome};

use limits::Refusal;
use session::Session;
use text_turns::Stand;

// The last line: the picker's refusal, which is that of an event before all text that is not worked on; else the text's; else what finish answers.
fn last_line(stand: Stand, lines: &mut [u8]) -> usize
    requires { (64 ≤ length lines.old) × ((stand.state.taken ≤ 2 * node_limit) × (stand.intake.taken ≤ longest + 65536)) }
    ensures put { Put lines.old 0 (line_of stand) lines.new result }
    ensures prefix_len { IsPrefixLen result lines.new }
{
    let state = stand.state;
    if state.refusal == 0 {
        if let Some(verdict) = intake::judge(stand.intake) {
            return lines::put_refused_at(verdict.refusal, verdict.at, lines);
        }
    }
    let finish = state.session.finish().map_err(Refusal::number);
    closing::last_line(finish, state.taken, state.refusal, lines)
}

// "a file that can't be opened counts as empty": every read of it fails. Where standard output takes no more, no last line is put.
fn answer_text(
    rt: &HostRuntime,
    session: Session,
    names: &[u8],
    index: &[u32],
    elements: &mut [u8],
    nodes: &mut [u8],
    lines: &mut [u8],
) -> usize
    requires elements_needed_in_bounds { (elements_needed ≤ length elements.old) × (nodes_needed ≤ length nodes.old) }
    requires in_bounds { (90112 ≤ length lines.old) × ((index_words ≤ length index.now) × Started session) }
    ensures text_answered { TextAnswered session names.now index.now lines.new result }
    ensures prefix_len { IsPrefixLen result lines.new }
{
    let file = system::open(rt, b"catalogue.xml");
    let stand = text_turns::work_text(
        &file,
        rt.stdout(),
        session,
        names,
        index,
        elements,
        nodes,
        lines,
    );
    system::close(file);
    if stand.state.written {
        last_line(stand, lines)
    } else {
        0
    }
}

// The list of names is judged before the text.
fn answer_names(
    rt: &HostRuntime,
    session: Session,
    elements: &mut [u8],
    nodes: &mut [u8],
    lines: &mut [u8],
) -> usize
    requires elements_needed_in_bounds { (elements_needed ≤ length elements.old) × (nodes_needed ≤ length nodes.old) }
    requires in_bounds { (90112 ≤ length lines.old) × Started session }
    ensures names_answered { NamesAnswered session lines.new result }
    ensures prefix_len { IsPrefixLen result lines.new }
{
    let mut names = intake::names_room();
    let mut index = intake::index_room();
    let n = intake::read_names(rt, &mut names);
    match names::build(&names[..n], &mut index) {
        Ok(()) => answer_text(rt, session, &names[..n], &index, elements, nodes, lines),
        Err(fault) => lines::put_refused_at(fault.refusal.number(), fault.line as u64, lines),
    }
}

// "The query is judged first"
fn answer(rt: &HostRuntime, query: &[u8], lines: &mut [u8]) -> usize
    requires { 90112 ≤ length lines.old }
    ensures replied { Replied query.now lines.new result }
    ensures prefix_len { IsPrefixLen result lines.new }
{
    let mut elements = [0u8; 16384];
    let mut nodes = [0u8; 32768];
    match turns::admit(query, &elements, &nodes, lines) {
        Ok(session) => answer_names(rt, session, &mut elements, &mut nodes, lines),
        Err(line) => line,
    }
}

// The whole program; `main` itself can have no contract.
fn answer_files(rt: &HostRuntime)
    ensures { Outcome }
{
    // one record more than a query may have
    let mut query = [0u8; 264];
    let mut lines = [0u8; 90112];
    let n = system::read_file(rt, b"query.rec", &mut query);
    let length = answer(rt, &query[..n], &mut lines);
    block::write_text(rt.stdout(), &lines, length);
}

fn main(rt: HostRuntime) {
    answer_files(&rt);
}
