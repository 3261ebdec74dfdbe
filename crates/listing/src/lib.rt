// Floor 4: writes what every call answers on a short log, a line a column or an answer. Each function answers whether all that it had to say was written, as
// `output` answers it; where it was not, nothing more is said.
#![tactic(auto)]

ghost use Rattle.std.specs.Prelude.{◌≤◌, length};

use lines::Text;
use refusals::Refusal;

// The entries of each table, which bound the logs that are printed whole, and the room for a line of them all.
pub const ROWS: usize = 32;

const LINE: usize = 256;

// ---- lines

fn say(rt: &HostRuntime, word: &[u8], t: &[u16]) -> bool
    requires { (length word.now ≤ 32) × (length t.now ≤ 32) }
{
    let mut line = [0u8; LINE];
    let mut text = Text::new(&mut line);
    text.line(word, t);
    output::write(rt, text.as_slice())
}

// The first n entries of t, where it has them and a line holds them.
fn first(t: &[u16], n: usize) -> &[u16]
    ensures { length result.now ≤ 32 }
{
    if n <= ROWS && n <= t.len() {
        &t[..n]
    } else {
        &t[..0]
    }
}

fn say_first(rt: &HostRuntime, word: &[u8], t: &[u16], n: usize) -> bool
    requires { length word.now ≤ 32 }
{
    say(rt, word, first(t, n))
}

fn say_total(rt: &HostRuntime, n: u32) -> bool {
    let mut line = [0u8; LINE];
    let mut text = Text::new(&mut line);
    text.counted(b"total", n as usize);
    output::write(rt, text.as_slice())
}

// The first n rows of the five columns.
fn say_columns(rt: &HostRuntime, n: usize, columns: [&[u16]; 5]) -> bool {
    let [border, prefix, cover, best, count] = columns;
    say_first(rt, b"border", border, n)
        && say_first(rt, b"prefix", prefix, n)
        && say_first(rt, b"cover", cover, n)
        && say_first(rt, b"best", best, n)
        && say_first(rt, b"count", count, n)
}

// A refusal's number.
fn number(no: Refusal) -> u16 {
    u16::from(u8::from(no))
}

// ---- tables: a refused call leaves them as they were

pub fn tables(rt: &HostRuntime, x: &[u8]) -> bool {
    let [mut border, mut prefix, mut cover, mut best, mut count] = [[0u16; ROWS]; 5];
    let _ = finder::border_table(x, &mut border);
    let _ = finder::prefix_table(x, &mut prefix);
    let _ = finder::cover_table(x, &mut cover);
    let total = finder::enhanced_table(x, &mut best, &mut count).unwrap_or(0);
    say_columns(rt, x.len(), [&border, &prefix, &cover, &best, &count]) && say_total(rt, total)
}

// The left covers and left seeds.
pub fn lefts(rt: &HostRuntime, x: &[u8]) -> bool {
    let [mut cover, mut count, mut seed, mut reach] = [[0u16; ROWS]; 4];
    let _ = finder::left_covers(x, &mut cover, &mut count);
    let _ = finder::left_seeds(x, &mut seed, &mut reach);
    let n = x.len();
    say_first(rt, b"left cover", &cover, n)
        && say_first(rt, b"left count", &count, n)
        && say_first(rt, b"left seed", &seed, n)
        && say_first(rt, b"seed count", &reach, n)
}

// A window of x, with all rows of tables that held 77 everywhere before.
pub fn window(rt: &HostRuntime, x: &[u8], a: u16, m: u16) -> bool {
    let [mut border, mut prefix, mut cover, mut best, mut count] = [[77u16; 12]; 5];
    let total = finder::window(
        x,
        usize::from(a),
        usize::from(m),
        &mut border,
        &mut prefix,
        &mut cover,
        &mut best,
        &mut count,
    );
    say(rt, b"window", &[a, m])
        && say(rt, b"number", &[total.map_or_else(number, |_| 0)])
        && say_columns(rt, 12, [&border, &prefix, &cover, &best, &count])
        && say_total(rt, total.unwrap_or(0))
}

// ---- answers

fn normal(rt: &HostRuntime, x: &[u8]) -> bool {
    let form = finder::normal_form(x, x.len()).map_or([0; 3], |f| [f.k1, f.k2, f.k]);
    say(rt, b"normal", &form)
}

fn breakdown(rt: &HostRuntime, x: &[u8]) -> bool {
    match finder::breakdown(x) {
        Ok(b) => say_first(
            rt,
            b"breakdown",
            &b.parts.map(|p| p.len),
            usize::from(b.used),
        ),
        Err(_) => say(rt, b"breakdown", &[]),
    }
}

fn covers(rt: &HostRuntime, x: &[u8]) -> bool {
    let mut t = [0u16; ROWS];
    let used = finder::cover_list(x, &mut t).map_or(0, usize::from);
    say_first(rt, b"covers", &t, used)
}

// A cover test as a number: a refused one is ten and its number.
fn told(answer: Result<bool, Refusal>) -> u16 {
    match answer {
        Ok(yes) => u16::from(yes),
        Err(no) => 10 + u16::from(u8::from(no)),
    }
}

// The cover tests of the whole log, for q from 0 to one too many.
fn tests(rt: &HostRuntime, x: &[u8]) -> bool
    requires { length x.now ≤ 28 }
{
    let mut t = [0u16; ROWS];
    for (q, test) in t.iter_mut().enumerate() {
        *test = told(finder::cover_test(x, x.len(), q));
    }
    say_first(rt, b"tests", &t, x.len() + 2)
}

fn weighed(rt: &HostRuntime, x: &[u8]) -> bool {
    match finder::weighed_list(x, x.len()) {
        Ok(w) => say_first(rt, b"weighed", &w.lens, usize::from(w.used))
            && say(rt, b"limit", &[w.limit]),
        Err(_) => say(rt, b"weighed", &[]) && say(rt, b"limit", &[0]),
    }
}

fn pattern(rt: &HostRuntime, x: &[u8]) -> bool {
    if let Err(no) = finder::pattern(x) {
        return say(rt, b"pattern refused", &[number(no)]);
    }
    output::write(rt, b"pattern ")
        && output::write(rt, finder::best_pattern(x))
        && output::write(rt, b"\n")
}

// The number, held and the ceiling.
pub fn ceiling(rt: &HostRuntime, x: &[u8]) -> bool {
    let answer = match finder::ceiling(x) {
        Ok(c) => [0, u16::from(c.held), c.ceiling],
        Err(no) => [number(no), 0, 0],
    };
    say(rt, b"ceiling", &answer)
}

pub fn answers(rt: &HostRuntime, x: &[u8]) -> bool
    requires { length x.now ≤ 28 }
{
    normal(rt, x)
        && breakdown(rt, x)
        && covers(rt, x)
        && tests(rt, x)
        && weighed(rt, x)
        && pattern(rt, x)
        && ceiling(rt, x)
}
