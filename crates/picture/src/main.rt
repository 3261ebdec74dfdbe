// The plant's file on standard input, to its picture, in SVG, on standard output.
#![tactic(auto)]

fn main(rt: HostRuntime) {
    picturing::run(&rt, &mut rt.stdin());
}
