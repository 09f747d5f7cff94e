// The program: reads a request, prints what its cheapest plan and its HEFT plan cost, and writes that in one piece. "reads at most 16,384 bytes from standard input".
#![tactic(auto)]

fn main(rt: HostRuntime) {
    // A closed output ends it quietly.
    programs::answer(&mut rt.stdin(), &mut rt.stdout(), programs::range_text).ok();
}
