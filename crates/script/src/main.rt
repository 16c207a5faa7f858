//! Follows a script from standard input. The gate runs it on one that uses every command, taken and refused, and compares its answers with the file `stdout`.

#![tactic(auto)]

use console::run_script;
use std::process::ExitCode;

/// Follows the script. Status 1 where it ended early: what was wrong, and in which line, is told by then.
fn main(rt: HostRuntime) -> ExitCode {
    match run_script(&rt) {
        Ok(()) => ExitCode::SUCCESS,
        Err(_) => ExitCode::FAILURE,
    }
}
