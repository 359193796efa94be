// `sheet`: T, the rule, a problem and a solver's answer on standard input become the lines of a sheet on standard output.
#![tactic(auto)]

use feeding::answer_input;
use sheet_call::sheet_request;

fn main(rt: HostRuntime) -> anyhow::Result<()> {
    let heap = rt.alloc();
    answer_input(heap, rt.stdin(), &mut rt.stdout(), |input| {
        sheet_request(heap, input)
    })
}
