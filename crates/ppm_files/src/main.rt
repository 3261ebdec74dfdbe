// Makes the file of each text that an argument names. Prints what is said of the text, or the length of the file and its first bytes. A function that
// prints answers whether all of it was written.
#![tactic(auto)]

use std::io::Read;

// How many bytes of a file are printed.
const FIRST: usize = 16;

fn print_byte(rt: &HostRuntime, b: u8) -> bool {
    output::write(rt, b" ") && output::decimal(rt, u64::from(b))
}

fn print_file(rt: &HostRuntime, file: &[u8]) -> bool {
    let first = &file[..file.len().min(FIRST)];
    output::decimal(rt, file.len() as u64)
        && output::write(rt, b" bytes:")
        && first.iter().all(|b| print_byte(rt, *b))
        && output::write(rt, b"\n")
}

fn make(rt: &HostRuntime, from: &mut impl Read) -> bool {
    let mut room = [0u8; logfile::LONGEST_FILE];
    match ppm_lines::make_part(from, &mut room) {
        Ok(file) => print_file(rt, file),
        Err(wrong) => wrong.say(&rt.stdout()).is_ok() || output::fail(rt),
    }
}

fn main(rt: HostRuntime) {
    input::each_file(&rt, b": ", |text| make(&rt, text));
}
