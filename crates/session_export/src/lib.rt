// The session's calls as a static library: for callers in C and Rust, and the tests. Crate session_c says what the numbers mean, and how the session stands in
// the 312 bytes that the caller lends with each call.
#![tactic(auto)]

ghost use Rattle.session_c.specs.Exported.{ExportBegins, ExportTakes, ExportRuns, ExportFinishes};

// A session for a query.
#[unsafe(no_mangle)]
pub extern "C" fn compassflare_begin(
    query: &[u8],
    elements: &[u8],
    nodes: &[u8],
    session: &mut [u8],
) -> u64
    ensures { ExportBegins query.now elements.now nodes.now session.old result
        session.new }
{
    session_c::compassflare_begin(query, elements, nodes, session)
}

// Takes one event.
#[unsafe(no_mangle)]
pub extern "C" fn compassflare_event(
    session: &mut [u8],
    bytes: &[u8],
    elements: &mut [u8],
    nodes: &mut [u8],
    out: &mut [u8],
) -> u64
    ensures { ExportTakes session.old bytes.now elements.old nodes.old out.old result
        session.new elements.new nodes.new out.new }
{
    session_c::compassflare_event(session, bytes, elements, nodes, out)
}

// Takes a block of events.
#[unsafe(no_mangle)]
pub extern "C" fn compassflare_run(
    session: &mut [u8],
    events: &[u8],
    elements: &mut [u8],
    nodes: &mut [u8],
    out: &mut [u8],
    counts: &mut [u8],
) -> u64
    ensures { ExportRuns session.old events.now elements.old nodes.old out.old
        counts.old result session.new elements.new nodes.new out.new counts.new }
{
    session_c::compassflare_run(session, events, elements, nodes, out, counts)
}

// "it changes nothing and may be asked again".
#[unsafe(no_mangle)]
pub extern "C" fn compassflare_finish(session: &[u8], counts: &mut [u8]) -> u64
    ensures { ExportFinishes session.now counts.old result counts.new }
{
    session_c::compassflare_finish(session, counts)
}
