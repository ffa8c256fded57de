// Reads a scenario on standard input and writes what its calls answer. With the argument `large` the
// log has room for more rows, and the stack has to hold them.
#![tactic(auto)]

use std::env::FillError;
use std::io;
use std::rt::{Env, Files};
use text::failed;
use text::failed::Failed;

// How large the log is that a run has.
#[derive(Clone, Copy)]
enum Log {
    Small,
    Large,
}

fn print_help(rt: &impl Print) -> io::Result<()> {
    println!(rt; "rehearse [large] < scenario: reads a scenario, a call a line, and")?;
    println!(rt; "writes what each call answers and what the broker holds after it.")?;
    println!(rt; "The log has at most 65536 rows, or with `large` 1048576.")?;
    println!(rt; "docs/SCENARIOS.md has the form.")
}

// The word need not be text, so it is written as it is.
fn tell_unknown(err: &impl Print, word: &[u8]) -> io::Result<()> {
    err.write_all(b"rehearse: `")?;
    err.write_all(word)?;
    err.write_all(b"` is no argument (`large` is one, and `--help`)\n")
}

// Is the stack's limit at least so many kilobytes? Else this is told. A limit that is not known counts
// as 0.
fn is_room(rt: &(impl Files + Alloc + Eprint), kilobytes: u64) -> bool {
    let room = limits::stack(rt).unwrap_or(0) / 1024;
    if room < kilobytes {
        let _ = eprintln!(rt;
            "rehearse: the stack's limit is {room} KB, and this run needs {kilobytes} KB: ulimit -s {kilobytes}"
        );
    }
    room >= kilobytes
}

fn asked_by(
    rt: &(impl Files + Alloc + Print + Eprint),
    err: &impl Print,
    word: &[u8],
) -> Option<Log> {
    match word {
        b"large" => is_room(rt, 40000).then_some(Log::Large),
        b"--help" => {
            failed::tell(rt, print_help(rt).map_err(Failed::Output));
            None
        }
        _ => {
            let _ = tell_unknown(err, word);
            None
        }
    }
}

// How many arguments there are, the program's name among them; 3 where there are more.
fn arg_count(rt: &impl Env) -> usize {
    let mut word = [0; 4096];
    (0..3)
        .find(|i| matches!(rt.arg(*i, &mut word), Err(FillError::NotPresent)))
        .unwrap_or(3)
}

// The run that the arguments ask for.
fn asked(rt: &(impl Files + Alloc + Env + Print + Eprint), err: &impl Print) -> Option<Log> {
    let count = arg_count(rt);
    if count < 2 {
        return is_room(rt, 4000).then_some(Log::Small);
    }
    if count > 2 {
        let _ = eprintln!(rt; "rehearse: one argument at most");
        return None;
    }
    let mut word = [0; 4096];
    let n = rt.arg(1, &mut word).unwrap_or(0);
    asked_by(rt, err, &word[..n])
}

// The stack's limit is asked for before a run takes its part.
fn main(rt: HostRuntime) {
    match asked(&rt, &rt.stderr()) {
        Some(Log::Small) => scenario::run::with_small_log(&rt),
        Some(Log::Large) => scenario::run::with_large_log(&rt),
        None => {}
    }
}
