#![tactic(auto)]

fn main(rt: HostRuntime) {
    reporting::rows(&rt, &mut rt.stdin());
}
