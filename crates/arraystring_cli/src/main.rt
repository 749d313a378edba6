//! Plays a script of commands from standard input to standard output. What it calls is tested in
//! `crates/arraystring_program_tests`, and the program by `try`.
#![tactic(auto)]

use arraystring::MaxString;
use arraystring_run::program::{given_word, serve};
use std::io;
use std::process::ExitCode;

fn main(rt: HostRuntime) -> ExitCode {
    let word = given_word(&rt);
    let word = word.as_ref().map(MaxString::as_str);
    let (input, output, errors) = (&mut rt.reader(), &mut io::writer(&rt), &mut rt.stderr());
    let status = serve(rt.alloc(), word, input, output, errors);
    ExitCode::from(status)
}
