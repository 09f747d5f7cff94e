// The program: reads a request, prints its cheapest plan, and writes that in one piece. "reads at most 16,384 bytes from standard input".
#![tactic(auto)]

use choosing::Method;

fn main(rt: HostRuntime) {
    // A closed output ends it quietly.
    programs::answer(&mut rt.stdin(), &mut rt.stdout(), |request, out| {
        programs::plan_text(request, Method::Cheapest, out)
    })
    .ok();
}
