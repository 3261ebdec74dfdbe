#![tactic(auto)]

fn main(rt: HostRuntime) {
    reporting::report(&rt, &mut rt.stdin());
}
