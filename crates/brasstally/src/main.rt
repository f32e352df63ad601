// The program: it runs a command file, from standard input or from the file that its argument names, on tables of its own, and writes the run's lines.
#![tactic(auto)]

mod telling;

use std::io::Read;
use std::rt::Files;
use std::{env, fs, io};

fn run_from(rt: &impl Print, from: &mut impl Read) -> io::Result<()> {
    // One byte more than a command file may have, so that a longer one is seen to be.
    let mut input = rooms::zeros::<u8, 65537>(0);
    let n = rooms::reading::read_full(from, &mut input)?;
    run_lines(rt, &input[..n])
}

fn run_lines(rt: &impl Print, input: &[u8]) -> io::Result<()> {
    let mut out = rooms::lines();
    let n = telling::tell_whole(input, &mut out);
    rt.write_all(&out[..n])
}

// A file that can't be opened is told on standard error, and ends the run as before.
fn run_file(rt: &(impl Files + Print + Eprint), path: &str) -> io::Result<()> {
    match fs::open(rt, path) {
        Ok(mut file) => run_from(rt, &mut file),
        Err(why) => eprintln!(rt; "{path}: {why}"),
    }
}

fn main(rt: HostRuntime) -> io::Result<()> {
    match env::args(&rt)?.nth(1) {
        Some(path) => run_file(&rt, path.as_str()),
        None => run_from(&rt, &mut rt.reader()),
    }
}
