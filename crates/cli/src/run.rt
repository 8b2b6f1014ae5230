// The program: what the command line asks for, done with files and standard output.
use crate::commands::{Command, USAGE, parse};
use crate::planning::{PlanReport, Row, admit, seat};
use crate::reports::Report;
use admission::demand_of;
use plans::plan::{Entry, Flaw, PlanText, Source};
use std::{env, fs, io};
use task::Task;

// Whether all went well; what did not has been told by then.
pub fn run(rt: &HostRuntime) -> io::Result<bool> {
    let args = match env::args(rt) {
        Ok(args) => args,
        Err(error) => {
            eprintln!(rt; "nivgarost: cannot read the arguments: {error}")?;
            return Ok(false);
        }
    };
    let words: Vec<String> = args.skip(1).collect(rt.alloc())?;
    match parse(words.as_slice()) {
        Ok(Command::Help) => {
            rt.print(USAGE)?;
            Ok(true)
        }
        Ok(Command::Check { files }) => check(rt, files),
        Ok(Command::Plan { file }) => plan(rt, file),
        Err(misuse) => {
            eprintln!(rt; "{misuse}")?;
            Ok(false)
        }
    }
}

// Reports on each file, and says whether all could be read.
fn check(rt: &HostRuntime, files: &[String]) -> io::Result<bool> {
    let mut well = true;
    for file in files {
        well &= check_file(rt, file.as_str())?;
    }
    Ok(well)
}

fn check_file(rt: &HostRuntime, name: &str) -> io::Result<bool> {
    match fs::read(rt, name) {
        Ok(bytes) => {
            let bytes = bytes.as_slice();
            rt.print(Report { name, bytes })?;
            Ok(true)
        }
        Err(error) => cannot_read(rt, name, error),
    }
}

fn cannot_read(rt: &HostRuntime, name: &str, error: io::Error) -> io::Result<bool> {
    eprintln!(rt; "nivgarost: cannot read {name}: {error}")?;
    Ok(false)
}

fn plan(rt: &HostRuntime, file: &str) -> io::Result<bool> {
    let text = match fs::read_to_string(rt, file) {
        Ok(text) => text,
        Err(error) => return cannot_read(rt, file, error),
    };
    match report_text(rt, file, text.as_str())? {
        Ok(well) => Ok(well),
        Err(flaw) => {
            eprintln!(rt; "nivgarost: {file}: {flaw}")?;
            Ok(false)
        }
    }
}

// Reports on the plan in the text of a file, and says whether all its tables were taken; or what is wrong with the text.
pub fn report_text(rt: &HostRuntime, file: &str, text: &str) -> io::Result<Result<bool, Flaw>> {
    // a `?` passes on one kind of error only, and a flaw is not this one
    match plans::parse::parse(rt.alloc(), text) {
        Ok(plan) => Ok(Ok(report_plan(rt, file, &plan)?)),
        Err(flaw) => Ok(Err(flaw)),
    }
}

// The tasks that are taken, by the tables of the plan; the others are told.
fn report_plan(rt: &HostRuntime, file: &str, plan: &PlanText) -> io::Result<bool> {
    let mut rows = Vec::new(rt.alloc());
    let mut slots = [None; 16];
    let mut well = true;
    for entry in plan.entries.as_slice() {
        let Entry { name, slot, .. } = *entry;
        match read_entry(rt, file, entry)? {
            Some(task) => {
                let demand = demand_of(&task);
                seat(&mut slots, slot, demand);
                rows.push(Row { name, slot, demand })?;
            }
            None => well = false,
        }
    }
    if well {
        let rows = rows.as_slice();
        rt.print(PlanReport {
            cores: plan.cores,
            order: plan.order,
            rows,
            bounds: admit(plan.cores, plan.order, slots),
        })?;
    }
    Ok(well)
}

fn read_entry(rt: &HostRuntime, file: &str, entry: &Entry) -> io::Result<Option<Task>> {
    match &entry.source {
        Source::Written(table) => take(rt, entry.name, table.as_slice()),
        Source::File(name) => {
            let path = match file.rsplit_once('/') {
                Some((folder, _)) => format!(in rt.alloc(); "{folder}/{name}")?,
                None => String::from_str(rt.alloc(), name)?,
            };
            match fs::read(rt, path.as_str()) {
                Ok(table) => take(rt, entry.name, table.as_slice()),
                Err(error) => {
                    cannot_read(rt, path.as_str(), error)?;
                    Ok(None)
                }
            }
        }
    }
}

// The task in a table; a refusal is told under the task's name.
fn take(rt: &HostRuntime, name: &str, bytes: &[u8]) -> io::Result<Option<Task>> {
    let task = Task::read(bytes).ok();
    if task.is_none() {
        rt.print(Report { name, bytes })?;
    }
    Ok(task)
}
