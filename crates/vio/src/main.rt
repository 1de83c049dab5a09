// Two ends of the VIO version handshake, over a list of lines on standard input.
#![tactic(auto)]

mod answers;
mod list;
mod parsed;

fn main(rt: HostRuntime) {
    let options = arguments::read(&rt, b"");
    if options.wrong {
        arguments::usage(rt, options, b"usage: vio [--status-fd N] < LIST\n");
        return;
    }
    arguments::report(rt, options, list::run(rt).byte());
}
