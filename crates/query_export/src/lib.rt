// The query check as a static library: for callers in C and Rust, and the tests. Crate query_c says what the number means.
#![tactic(auto)]

ghost use Rattle.query_c.specs.Packed.{ExportGives};

// 0 where the bytes are a query; else the refusal's number, 9 or 10, with 10 the step at fault and the reason beside it.
#[unsafe(no_mangle)]
pub extern "C" fn compassflare_check(bytes: &[u8]) -> u32
    ensures { ExportGives bytes.now result }
{
    query_c::compassflare_check(bytes)
}
