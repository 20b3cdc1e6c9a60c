// A session: one event at a time in, the selected nodes out as soon as they are certain. The room for the open elements and the waiting nodes is lent with
// each event; the session, by value, keeps only its numbers and what it keeps of its query.
#![tactic(auto)]

ghost use Rattle.std.specs.Prelude.{◌≡◌, ◌*◌, ◌≤◌, length};
ghost use Rattle.numbers.specs.Numbers.{numbers_in};
ghost use Rattle.limits.specs.Number.{fault_in};
ghost use Rattle.step.specs.Step.{listed_in};
ghost use Rattle.session.specs.Begin.{fresh, said, start_answer, BeginGives};
ghost use Rattle.session.specs.Event.{session_of, session_numbers, answer_by, EventGives, FinishGives};
ghost use Rattle.session.specs.Run.{ran, run_within, RunGives};

use element::Elements;
use limits::Refusal;
use node::Nodes;
use numbers::Numbers;
use plan::Plan;
use plan_bytes::Kept;
use query::QueryFault;

#[derive(Clone, Copy)]
pub struct Session {
    // What is kept of the query (crate plan_bytes).
    pub kept: Kept,
    // How many elements are open, and how many nodes wait.
    pub depth: u32,
    pub held: u32,
    // How many nodes were opened, and how many handed out.
    pub opened: u32,
    pub handed: u32,
    // "the document element has been closed"
    pub ended: bool,
    // "the session is stopped"
    pub stopped: bool,
}

// "An event's answer is either a refusal number or a count of nodes handed out"
// Kept: a form that docs/SCOPE.md names, Refused with its number and Taken with the count.
#[derive(Drop)]
pub enum Answer {
    Refused(u8),
    Taken(u32),
}

// What an event comes to: its answer, and the session that goes on.
#[derive(Drop)]
pub struct Next {
    pub answer: Answer,
    pub session: Session,
}

// "Finish answers the number of nodes opened and the number handed out"
#[derive(Clone, Copy)]
pub struct Counts {
    pub opened: u32,
    pub handed: u32,
}

// Why no session begins: the lent room is too small, or the query is at fault.
#[derive(Clone, Copy)]
pub enum StartFault {
    ShortRoom,
    Query(QueryFault),
}

// "beside a refused query's number stands one fixed blank session"
// Kept: the session beside the answer, since docs/SCOPE.md owes one beside a refusal too.
#[derive(Drop)]
pub struct Begun {
    pub answer: Result<(), StartFault>,
    pub session: Session,
}

// What a block of events comes to.
#[derive(Drop)]
pub struct Ran {
    pub session: Session,
    // How many events were taken.
    pub taken: usize,
    // How many list records were written, from the start of the buffer.
    pub listed: usize,
    // Why the next event was refused, if it was.
    pub refusal: Option<Refusal>,
}

// A session at the start of its stream.
fn fresh(plan: Plan) -> Session
    ensures { result ≡ fresh plan }
{
    let kept = plan_bytes::pack(plan);
    Session {
        kept,
        depth: 0,
        held: 0,
        opened: 0,
        handed: 0,
        ended: false,
        stopped: false,
    }
}

// Whether a session can begin: "15 comes directly after 1 and before all others".
#[tactic(auto, using(crate::specs::Begin::Laws::started), unfolding(crate::specs::Begin::said, query::specs::Answer::said, choice::specs::When::when))]
fn check(query: &[u8], elements: &[u8], nodes: &[u8]) -> Result<(), StartFault>
    ensures { said result ≡ start_answer query.now elements.now nodes.now }
{
    if lent::check_room(elements.len(), nodes.len()).is_err() {
        return Err(StartFault::ShortRoom);
    }
    match query::check(query) {
        Ok(()) => Ok(()),
        Err(fault) => Err(StartFault::Query(fault)),
    }
}

// A session for a query. Nothing is asked of the content of the lent room, and none of it is read or written.
pub fn begin(query: &[u8], elements: &[u8], nodes: &[u8]) -> Begun
    ensures { BeginGives query.now elements.now nodes.now result }
{
    let answer = check(query, elements, nodes);
    let steps = if answer.is_ok() { query } else { &query[..0] };
    let session = fresh(plan::plan_of(steps));
    Begun { answer, session }
}

// An event's answer, by what it came to.
impl From<Result<u32, Refusal>> for Answer {
    ghost from_gives = { λ r a. a ≡ answer_by (fault_in r) (listed_in r) };

    fn from(r: Result<u32, Refusal>) -> Answer {
        match r {
            Ok(listed) => Answer::Taken(listed),
            Err(refusal) => Answer::Refused(refusal.number()),
        }
    }
}

impl Session {
    // The session's numbers in bytes.
    pub fn lay(self, numbers: &mut Numbers)
        ensures { numbers_in numbers.new ≡ session_numbers self }
    {
        numbers::write(
            numbers,
            self.depth,
            self.held,
            self.opened,
            self.handed,
            self.ended as u32,
        );
        numbers::write_stop(numbers, self.stopped as u32);
    }

    // A session with what it keeps of its query, and with the numbers in bytes.
    pub fn numbered(kept: Kept, numbers: &Numbers) -> Session
        ensures { result ≡ session_of kept (numbers_in numbers.now) }
    {
        Session {
            kept,
            depth: numbers::get(numbers, numbers::Field::Depth),
            held: numbers::get(numbers, numbers::Field::Held),
            opened: numbers::get(numbers, numbers::Field::Opened),
            handed: numbers::get(numbers, numbers::Field::Handed),
            ended: numbers::get(numbers, numbers::Field::Ended) != 0,
            stopped: numbers::get(numbers, numbers::Field::Stopped) != 0,
        }
    }

    // Takes one event. Longer buffers are fine: their bytes past the needed ones are never touched.
    pub fn event(self, bytes: &[u8], elements: &mut [u8], nodes: &mut [u8], out: &mut [u8]) -> Next
        ensures { EventGives self bytes.now elements.old nodes.old out.old result
            elements.new nodes.new out.new }
    {
        let mut numbers = [0u8; numbers::ROOM];
        self.lay(&mut numbers);
        let r = offer::offer(&self.kept, bytes, &mut numbers, elements, nodes, out);
        let answer = Answer::from(r);
        let next = Session::numbered(self.kept, &numbers);
        Next {
            answer,
            session: next,
        }
    }

    // No event is looked at, or the first is refused for want of room.
    fn stays(self, refusal: Option<Refusal>) -> Ran
        ensures { result ≡ record { session = self; taken = 0; listed = 0; refusal = refusal } }
    {
        Ran {
            session: self,
            taken: 0,
            listed: 0,
            refusal,
        }
    }

    // A block on the room that is needed.
    fn run_within(
        self,
        events: &[u8],
        elements: &mut Elements,
        nodes: &mut Nodes,
        out: &mut [u8],
    ) -> Ran
        ensures out_after { ran result elements.new nodes.new out.new
            ≡ run_within self events.now elements.old nodes.old out.old }
        ensures taken_in_bounds { (8 * result.taken ≤ length events.now) × (4 * result.listed ≤ length out.new) }
    {
        let mut numbers = [0u8; numbers::ROOM];
        self.lay(&mut numbers);
        let fed = feed::feed(&self.kept, events, &mut numbers, elements, nodes, out);
        let last = Session::numbered(self.kept, &numbers);
        Ran {
            session: last,
            taken: fed.taken,
            listed: fed.listed,
            refusal: fed.refusal,
        }
    }

    // Takes a block of events, one after the other, until whole records end, one is refused, or less of the buffer is left than an event can need.
    pub fn run(self, events: &[u8], elements: &mut [u8], nodes: &mut [u8], out: &mut [u8]) -> Ran
        ensures run_gives { RunGives self events.now elements.old nodes.old out.old result
            elements.new nodes.new out.new }
        ensures taken_in_bounds { (8 * result.taken ≤ length events.now) × (4 * result.listed ≤ length out.new) }
    {
        if events.len() < 8 {
            return self.stays(None);
        }
        if out.len() < limits::OUTPUT {
            return self.stays(None);
        }
        match lent::check_room(elements.len(), nodes.len()) {
            Err(refusal) => self.stays(Some(refusal)),
            Ok(()) => self.run_within(
                events,
                elements.first_chunk_mut().unwrap(),
                nodes.first_chunk_mut().unwrap(),
                out,
            ),
        }
    }

    // "it changes nothing and may be asked again"
    pub fn finish(self) -> Result<Counts, Refusal>
        ensures { FinishGives self result }
    {
        if self.stopped {
            return Err(Refusal::Stopped);
        }
        if self.ended {
            return Ok(Counts {
                opened: self.opened,
                handed: self.handed,
            });
        }
        Err(Refusal::Unfinished)
    }
}
