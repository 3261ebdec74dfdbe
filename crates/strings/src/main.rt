// Writes what every call answers on the strings with known results, P1 to P8 and those of left covers and left seeds; then the windows of P6, and logs at the edges of held.
#![tactic(auto)]

ghost use Rattle.std.specs.Prelude.{◌≤◌, length};

fn string(rt: &HostRuntime, name: &[u8], x: &[u8]) -> bool
    requires { length x.now ≤ 28 }
{
    output::write(rt, name)
        && output::write(rt, b" ")
        && output::write(rt, x)
        && output::write(rt, b"\n")
        && listing::tables(rt, x)
        && listing::lefts(rt, x)
        && listing::answers(rt, x)
}

fn strings(rt: &HostRuntime) -> bool {
    string(rt, b"P1", b"a")
        && string(rt, b"P2", b"aa")
        && string(rt, b"P3", b"ab")
        && string(rt, b"P4", b"aaaa")
        && string(rt, b"P5", b"abaababab")
        && string(rt, b"P6", b"ababaababa")
        && string(rt, b"P7", b"abaababaababa")
        && string(rt, b"P8", b"ababaabaabababaababaabaababa")
        && string(rt, b"left", b"abaabab")
        && string(rt, b"shorter seed", b"abaabaab")
}

fn windows(rt: &HostRuntime) -> bool {
    listing::window(rt, b"ababaababa", 5, 5)
        && listing::window(rt, b"ababaababa", 5, 6)
        && listing::window(rt, b"ababaababa", 10, 0)
}

fn edge(rt: &HostRuntime, name: &[u8], x: &[u8]) -> bool {
    output::write(rt, name) && output::write(rt, b"\n") && listing::ceiling(rt, x)
}

fn edges(rt: &HostRuntime) -> bool {
    let flat = [20u8; 60];
    let mut ends = [20u8; 61];
    let mut leaves = [20u8; 61];
    ends[0] = 4;
    leaves[60] = 4;
    edge(rt, b"no reading", &flat[..0])
        && edge(rt, b"1 at the ceiling", &flat[..1])
        && edge(rt, b"1 other", &ends[..1])
        && edge(rt, b"59 at the ceiling", &flat[..59])
        && edge(rt, b"60 at the ceiling", &flat)
        && edge(rt, b"1 other and then 59", &ends[..60])
        && edge(rt, b"1 other and then 60", &ends)
        && edge(rt, b"60 and then 1 other", &leaves)
}

fn main(rt: HostRuntime) {
    if strings(&rt) && windows(&rt) {
        edges(&rt);
    }
}
