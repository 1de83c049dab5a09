// The boundaries of 01 and 02 that lists of calls reach: the list in this program's stdin.
#![tactic(auto)]

fn main(rt: HostRuntime) {
    calls::run(rt, b"bounds");
}
