// Runs what `sheet` does on many inputs: each is a 4-byte length, low byte first, and then its bytes.
// The length's fourth byte is passed over, and 99,999 inputs are the most.
// What it prints is compared with what an independent program made of the same inputs (tests/oracle).
#![tactic(auto)]

use feeding::answer_first_cases;
use sheet_call::sheet_request;

fn main(rt: HostRuntime) -> anyhow::Result<()> {
    let heap = rt.alloc();
    answer_first_cases(heap, rt.stdin(), &mut rt.stdout(), |input| {
        sheet_request(heap, input)
    })
}
