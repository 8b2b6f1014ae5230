// Reads task tables and plans, and prints what they hold, or why they are refused.
#![tactic(auto)]

use cli::run::run;
use std::process::ExitCode;

// The status is 1 where something went wrong. It has been told by then.
fn main(rt: HostRuntime) -> ExitCode {
    match run(&rt) {
        Ok(true) => ExitCode::SUCCESS,
        Ok(false) => ExitCode::FAILURE,
        Err(error) => {
            let _ = eprintln!(rt; "nivgarost: {error}");
            ExitCode::FAILURE
        }
    }
}
