// The query check: which bytes are a query, and with which number, step and reason the others are refused.
#![tactic(auto, unfolding(meaning::specs::Query::hangs_right, meaning::specs::Query::nearer))]

ghost use Rattle.std.specs.Prelude.{◌≡◌, length};
ghost use Rattle.meaning.specs.Query.{hangs_right, nearer};
ghost use Rattle.limits.specs.Number.{reason_in};
ghost use Rattle.query.specs.Rules.{wrong_length, Right, axis_named, axis_rule, role_rule, zero_rule};
ghost use Rattle.query.specs.Reasons.{reasons_with, lowest, checked};
ghost use Rattle.query.specs.Answer.{CheckGives, judged, said};

use limits::Reason;

// Why bytes are no query. `said` of specs/Answer.antt gives each case its number.
#[derive(Clone, Copy, PartialEq, Eq)]
pub enum QueryFault {
    // 9: "query of 0 bytes, of a length not a multiple of 8, or over 256 bytes"
    Length,
    // 10: "a step breaks a rule; comes with the first such step's number, and a reason": that number, and the reason
    Step(u8, Reason),
}

// An axis of a step.
#[derive(Clone, Copy, PartialEq, Eq)]
pub enum Axis {
    Child,
    Descendant,
}

// "Query step, 8 bytes, at most 32 steps"
pub const STEP_BYTES: usize = 8;

pub const MOST_STEPS: usize = 32;

pub const LONGEST: usize = MOST_STEPS * STEP_BYTES;

// Admits a query, or refuses it with the number that applies.
pub fn check(query: &[u8]) -> Result<(), QueryFault>
    ensures { CheckGives query.now result }
{
    if wrong_length(query.len()) {
        return Err(QueryFault::Length);
    }
    judge(query)
}

// Whether a query of so many bytes is refused for its length.
fn wrong_length(bytes: usize) -> bool
    ensures { result ≡ wrong_length bytes }
{
    bytes == 0 || bytes % STEP_BYTES != 0 || LONGEST < bytes
}

// The answer to a query of right length: its first step that breaks a rule decides.
fn judge(query: &[u8]) -> Result<(), QueryFault>
    requires { Right (length query.now) }
    ensures { said result ≡ judged query.now }
{
    // Kept: 0 where there is none is document 01's ("hangs on 0"), in `nearest` and `hangs_right`: an Option would become that number at each comparison.
    let mut near: u8 = 0;
    let (steps, _) = query.as_chunks();
    for (before, step) in steps.iter().enumerate() {
        let k = before as u8 + 1;
        check_step(step, k, near).map_err(|reason| QueryFault::Step(k, reason))?;
        near = nearer_main(step[1] == 1, k, near);
    }
    Ok(())
}

// The nearest main-path step before the one after step k.
fn nearer_main(main: bool, k: u8, near: u8) -> u8
    ensures { result ≡ nearer main k near }
{
    if main { k } else { near }
}

// Whether step k keeps every rule, or else the lowest reason that applies; `near` is the nearest main-path step before it, 0 where there is none. No name and
// no value is forbidden yet, so nothing gives 5.
fn check_step(step: &[u8; STEP_BYTES], k: u8, near: u8) -> Result<(), Reason>
    ensures { reason_in result ≡ lowest (reasons_with step.now k near) }
{
    check_axis(step[0])?;
    check_role(step[1], k)?;
    check_hang(step[1] == 1, step[2], k, near)?;
    check_zeros(step)
}

fn check_axis(byte: u8) -> Result<(), Reason>
    ensures { result ≡ checked Reason.Axis (axis_rule byte) }
{
    match axis_named(byte) {
        Some(_) => Ok(()),
        None => Err(Reason::Axis),
    }
}

// "axis: 1 child, 2 descendant"
pub fn axis_named(byte: u8) -> Option<Axis>
    ensures { result ≡ axis_named byte }
{
    match byte {
        1 => Some(Axis::Child),
        2 => Some(Axis::Descendant),
        _ => None,
    }
}

// Whether step k may have this role byte: "Step 1 is on the main path"
fn check_role(byte: u8, k: u8) -> Result<(), Reason>
    ensures { result ≡ checked Reason.Role (role_rule k byte) }
{
    match byte {
        1 => Ok(()),
        0 if 1 < k => Ok(()),
        _ => Err(Reason::Role),
    }
}

// Whether step k may hang on step `on`.
fn check_hang(main: bool, on: u8, k: u8, near: u8) -> Result<(), Reason>
    ensures { result ≡ checked Reason.Hang (hangs_right main on k near) }
{
    // A test a way: one test of a value that both ways give is computed without a jump, and costs a third of the check's time.
    match main {
        true if on == near => Ok(()),
        false if 1 <= on && on < k => Ok(()),
        _ => Err(Reason::Hang),
    }
}

fn check_zeros(step: &[u8; STEP_BYTES]) -> Result<(), Reason>
    ensures { result ≡ checked Reason.Zero (zero_rule step.now) }
{
    if step[3] == 0 && step[6] == 0 && step[7] == 0 {
        Ok(())
    } else {
        Err(Reason::Zero)
    }
}
