// The query check as crate query_export hands it to callers in C and Rust: the answer as one number, with a byte each for the refusal, the step at fault and
// the reason.
#![tactic(auto)]

ghost use Rattle.std.specs.Prelude.{◌≡◌};
ghost use Rattle.query.specs.Answer.{said};
ghost use Rattle.query_c.specs.Packed.{packed, ExportGives};

use limits::Refusal;
use query::QueryFault;

// A fault as a number: the refusal's, and where a step is at fault 256 times its number and 65,536 times the reason. Of the four bytes, low byte first, the
// first is the refusal, the second the step, the third the reason and the fourth 0.
pub fn pack(fault: QueryFault) -> u32
    ensures { result ≡ packed (said (Err fault)) }
{
    match fault {
        QueryFault::Length => Refusal::BadLength.number() as u32,
        QueryFault::Step(k, reason) => {
            u32::from_le_bytes([Refusal::BadStep.number(), k, reason.number(), 0])
        }
    }
}

// 0 where the bytes are a query; else the refusal's number, 9 or 10. With 10 come the number of the first step at fault and the reason.
pub fn compassflare_check(bytes: &[u8]) -> u32
    ensures { ExportGives bytes.now result }
{
    match query::check(bytes) {
        Ok(()) => 0,
        Err(fault) => pack(fault),
    }
}
