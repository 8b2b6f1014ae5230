// The shape of a task.
ghost use Rattle.std.specs.Prelude.{Ok, Err};
ghost use Rattle.task.specs.Rules.{BrokenAt};
ghost use Rattle.task.specs.Shape.{Shaped};

use crate::graph::Graph;
use crate::reach::ArcEnd;
use crate::rules::{Broken, Rule};

impl Graph<'_> {
    // Tries the rules one after the other, and stops at the first that is broken.
    pub(crate) fn check_shape(&self) -> Result<(), Broken>
        ensures { elim result [ Ok _ ↦ Shaped self.now.nodes.now self.now.arcs.now | Err broken ↦ BrokenAt self.now.nodes.now self.now.arcs.now broken.rule broken.at ] }
    {
        Rule::HomesAreOpenings.kept(self.homes_are_openings())?;
        Rule::MatesPairUp.kept(self.mates_pair_up())?;
        Rule::BranchesCountUp.kept(self.branches_count_up())?;
        Rule::ArcsAreLawful.kept(self.arcs_are_lawful())?;
        // both rules that are left ask which nodes are first and last: that is found once
        let firsts = self.outermost(ArcEnd::Stop);
        let lasts = self.outermost(ArcEnd::Start);
        Rule::OneFirstOneLast.kept(self.one_first_one_last(firsts, lasts))?;
        Rule::BlocksAreWired.kept(self.blocks_are_wired(firsts, lasts))?;
        Ok(())
    }
}
