// What the words of a command line ask for.
ghost use Rattle.cli.specs.Lines.{OneFile, Parsed};
ghost use Rattle.cli.specs.Words.{Names};

use std::fmt;

pub const USAGE: &str = "\
usage: nivgarost check FILE...
       nivgarost plan FILE
       nivgarost help

check  reads each file as a task table and prints a line for it. L is the greatest
       length of a path and W the greatest total, over all ways that the branches can go.
       Below stand the share of one core that the task needs at worst, a longest path,
       the branches with the greatest total, and the nodes and arcs. A table that is
       refused is told by its number, the offset of the record at fault or the rule that
       is broken, and what is expected.
plan   reads a plan file, in which cores, an order and tasks are written as text, and
       prints the tasks with their figures and the least bounds that keep every deadline,
       or that there are none. Slack is what a bound leaves of its deadline.
help   prints this text.

A refused table and a refused plan are answers, and leave the status 0. The status is 1
after a wrong argument, a file that cannot be read, a plan file with a mistake in it, or a
plan with a table that is refused.

example:
  $ nivgarost check lamp.table
  lamp.table: taken: period 20, deadline 10, 1 node, 0 arcs, L 6, W 6
    use          30.0% of one core
    longest path 0
    worst total  no branches
    node  0  plain          top             time     6
";

#[derive(Clone, Copy, Debug, PartialEq, Eq, Drop)]
pub(crate) enum Verb {
    Help,
    Check,
    Plan,
}

// The command that a word names.
pub(crate) fn named_by(word: &str) -> Option<Verb>
    ensures { Names word.now result }
{
    match word {
        "help" | "--help" | "-h" => Some(Verb::Help),
        "check" => Some(Verb::Check),
        "plan" => Some(Verb::Plan),
        _ => None,
    }
}

// A command, with what it works on.
#[derive(Clone, Copy, Debug, PartialEq, Eq, Drop)]
pub enum Command<'a> {
    Help,
    Check { files: &'a [String] },
    Plan { file: &'a str },
}

// Words that are no command.
#[derive(Clone, Copy, Debug, PartialEq, Eq, Drop)]
pub enum Misuse<'a> {
    NoCommand,
    Unknown { word: &'a str },
    NoFile,
    NotOneFile,
}

// What the words after the program's own name ask for.
#[tactic(auto, using(crate::proofs::PlanLines::plan_line))]
pub fn parse(words: &[String]) -> Result<Command<'_>, Misuse<'_>>
    ensures { Parsed words.now result }
{
    let [first, files @ ..] = words else {
        return Err(Misuse::NoCommand);
    };
    match named_by(first.as_str()) {
        Some(Verb::Help) => Ok(Command::Help),
        Some(Verb::Check) if files.is_empty() => Err(Misuse::NoFile),
        Some(Verb::Check) => Ok(Command::Check { files }),
        Some(Verb::Plan) => one_file(files),
        None => Err(Misuse::Unknown {
            word: first.as_str(),
        }),
    }
}

// A plan is one file.
fn one_file(files: &[String]) -> Result<Command<'_>, Misuse<'_>>
    ensures { OneFile files.now result }
{
    match files {
        [file] => Ok(Command::Plan {
            file: file.as_str(),
        }),
        _ => Err(Misuse::NotOneFile),
    }
}

impl fmt::Display for Misuse<'_> {
    fn fmt<W: fmt::Write>(&self, f: &mut fmt::Formatter<W>) -> fmt::Result {
        match self {
            Misuse::NoCommand => write!(f, "{USAGE}\nnivgarost: no command is given"),
            Misuse::Unknown { word } => {
                write!(
                    f,
                    "nivgarost: unknown command '{word}'; try 'nivgarost help'"
                )
            }
            Misuse::NotOneFile => f.write_str(
                "nivgarost: plan needs one file, as in 'nivgarost plan examples/two.plan'",
            ),
            Misuse::NoFile => f.write_str(
                "nivgarost: check needs a file, as in 'nivgarost check lamp.table'",
            ),
        }
    }
}
