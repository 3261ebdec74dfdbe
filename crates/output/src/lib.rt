// Floor 4: standard output. What a program has made is written whole, or a line on standard error says that it was not; then the program is to stop.
// Each answers yes or no, as `fail` promises that it answers no, and a program goes on with `&&`. Where the no has to go up through many functions, as in the trial, its caller
// makes an `Err` of it (`line` of `trial_base`).
#![tactic(auto)]

ghost use Rattle.std.specs.Prelude.{◌≡◌, false};

// Writes the text and answers whether all of it was taken. A piece that was taken in part is written on to its end.
pub fn write(rt: &(impl Print + Eprint), text: &[u8]) -> bool {
    rt.write_all(text).is_ok() || fail(rt)
}

// The same of a number's digits.
pub fn decimal(rt: &(impl Print + Eprint), n: u64) -> bool {
    rt.print(n).is_ok() || fail(rt)
}

// Says that the output cannot be written, and answers no.
pub fn fail(rt: &impl Eprint) -> bool
    ensures { result ≡ false }
{
    let _ = rt.eprintln("the output cannot be written");
    false
}
