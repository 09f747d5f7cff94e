// The program: reads a request, prints why a task of it does not start at a minute, and writes that in one piece. "is called with the task's number and a start".
// An argument that is missing, or has more than 32 bytes, counts as 0. "reads at most 16,384 bytes from standard input".
#![tactic(auto)]

use std::env::Env;

fn main(rt: HostRuntime) {
    let mut task = [0u8; 32];
    let task_length = rt.arg(1, &mut task).unwrap_or(0);
    let mut start = [0u8; 32];
    let start_length = rt.arg(2, &mut start).unwrap_or(0);
    // A closed output ends it quietly.
    programs::answer(&mut rt.stdin(), &mut rt.stdout(), |request, out| {
        programs::why_text(request, &task[..task_length], &start[..start_length], out)
    })
    .ok();
}
