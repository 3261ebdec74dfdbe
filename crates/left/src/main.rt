#![tactic(auto)]

fn main(rt: HostRuntime) {
    left_text::left(&rt, &mut rt.stdin());
}
