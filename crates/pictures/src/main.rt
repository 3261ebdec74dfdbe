// Draws each file that an argument names, after the file's name.
#![tactic(auto)]

fn main(rt: HostRuntime) {
    input::each_file(&rt, b"\n", |file| picturing::run(&rt, file));
}
