// Writes the report on each file that an argument names, after the file's name.
#![tactic(auto)]

fn main(rt: HostRuntime) {
    input::each_file(&rt, b"\n", |file| reporting::report(&rt, file));
}
