//! The program: runs a script, or judges a history, from standard input, and ends with the number of
//! its status.
#![tactic(auto)]

use qs_program::program;
use std::io::IsTerminal;
use std::process::ExitCode;

fn main(rt: HostRuntime) -> ExitCode {
    program(&rt, rt.stderr().is_terminal())
}
