// Document 01's day at the panel: the list of calls in stdin, which is also examples/day.calls.
#![tactic(auto)]

fn main(rt: HostRuntime) {
    calls::run(rt, b"day");
}
