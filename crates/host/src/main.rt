// Runs the agent over the list of calls on standard input.
#![tactic(auto)]

fn main(rt: HostRuntime) {
    let options = arguments::read(&rt, b"");
    if options.wrong {
        arguments::usage(rt, options, b"usage: host [--status-fd N] < LIST\n");
        return;
    }
    arguments::report(rt, options, calls::run(rt, b"arkelutz").byte());
}
