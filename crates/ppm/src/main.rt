// Readings in whole ppm on standard input, one a line, to the plant's file on standard output.
#![tactic(auto)]

fn main(rt: HostRuntime) {
    ppm_lines::run(&rt, &mut rt.stdin());
}
