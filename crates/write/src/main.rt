// `write`: T, the rule and a problem on standard input become clause text on standard output.
#![tactic(auto)]

use feeding::answer_input;
use requests::write_request;

fn main(rt: HostRuntime) -> anyhow::Result<()> {
    let heap = rt.alloc();
    answer_input(heap, rt.stdin(), &mut rt.stdout(), |input| {
        write_request(heap, input)
    })
}
