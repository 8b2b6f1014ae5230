// Runs the plans that it is given, one after the other, for the gate to compare what is printed of them.
#![tactic(auto)]

use cli::run::report_text;
use std::{env, fs};

fn main(rt: HostRuntime) -> anyhow::Result<()> {
    for file in env::args(&rt)?.skip(1) {
        let text = fs::read_to_string(&rt, file.as_str())?;
        println!(rt; "{file}")?;
        // told, and then the next plan: no reason to stop
        if let Err(flaw) = report_text(&rt, file.as_str(), text.as_str())? {
            println!(rt; "{flaw}")?;
        }
    }
    Ok(())
}
