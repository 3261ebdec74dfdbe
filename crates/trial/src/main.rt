// Compares every call with the second way to its answer. One line for each kind of comparison, and the differences of all kinds in the last. Where a piece
// cannot be written, standard error says so, and no more is compared.
#![tactic(auto)]

use trial_base::line::Unwritten;
use trial_base::logs::Kind;
use trial_base::tally::Tally;
use trial_runs::{long, small};

fn small_logs(t: &mut Tally) -> Result<(), Unwritten> {
    t.begin("all logs over 2 letters to 12, every call:")?;
    small::logs(t, b"\x00\xff", 12, small::held_strange)?;
    t.begin("all logs over 3 letters to 8, every call:")?;
    small::logs(t, b"\x00\xff\x14", 8, small::held_strange)?;
    t.begin("all logs over 2 letters to 8, every call, tables that held small numbers:")?;
    small::logs(t, b"\x00\xff", 8, small::held_small)
}

fn small_windows(t: &mut Tally) -> Result<(), Unwritten> {
    t.begin("all logs over 2 letters to 8, windows at every place and past the end:")?;
    small::logs(t, b"\x00\xff", 8, small::windows)?;
    t.begin("all logs over 3 letters to 5, windows at every place and past the end:")?;
    small::logs(t, b"\x00\xff\x14", 5, small::windows)
}

fn orders(t: &mut Tally) -> Result<(), Unwritten> {
    t.begin("all logs over 2 letters to 12, the order among patterns:")?;
    small::logs(t, b"\x00\xff", 12, small::order)?;
    t.begin("all logs over 3 letters to 8, the order among patterns:")?;
    small::logs(t, b"\x00\xff\x14", 8, small::order)?;
    t.begin(
        "flat, Fibonacci word, cycle of 40, the same with defects, runs and random, 120 readings of each, the order among patterns:",
    )?;
    trial_order::kinds(t)
}

fn some_files(t: &mut Tally) -> Result<(), Unwritten> {
    t.begin("all files of up to 6 bytes of 5 values:")?;
    small::files(t, b"\x01\x00\x02\x14\x15", 6)?;
    t.begin("files of 1, 255, 256 and 4095 to 4097 symbols, one more and one fewer:")?;
    trial_files::long(t)
}

fn about_the_ceiling(t: &mut Tally) -> Result<(), Unwritten> {
    t.begin(
        "all logs to 124 readings that are 20 but for none, one that is 21, or two, 19 and then 21, ceiling:",
    )?;
    trial_ceilings::all(t)?;
    t.begin("logs of 4095 to 4097 readings that are 20 but for one of the last 62, ceiling:")?;
    trial_ceilings::long(t)
}

fn long_logs(t: &mut Tally) -> Result<(), Unwritten> {
    t.begin(
        "logs of 0, 1, 4096 and 4097 readings, every call: border and prefix at every row, the rest to row 20 and at every 1999th, list of covers and total by the finder itself:",
    )?;
    long::edges(t)?;
    for kind in Kind::ALL {
        t.begin(kind)?;
        long::of(t, kind)?;
    }
    Ok(())
}

fn everything(t: &mut Tally) -> Result<(), Unwritten> {
    small_logs(t)?;
    small_windows(t)?;
    orders(t)?;
    some_files(t)?;
    about_the_ceiling(t)?;
    long_logs(t)?;
    t.close()
}

fn main(rt: HostRuntime) {
    // What could not be written, standard error has said.
    let _ = everything(&mut Tally::new(rt));
}
