ghost use Rattle.std.specs.Prelude.{◌≡◌, IfOk, not, filter};
ghost use Rattle.ja_base.specs.declared.ids.Label.{Label};
ghost use Rattle.ja_abstract.specs.AbstractState.{labels_of};
ghost use Rattle.ja_value.specs.Value.{labels_in};
ghost use Rattle.ja_astate.specs.code.Walks.{Meeting, met_of, met_over, met_from};

use crate::Reader;
use crate::met::Met;
use ja_base::{Label, Memory};
use ja_value::LabelSet;

/// What a walk asks of each label that it reaches.
pub(crate) trait Asks {
    /// What is met at the objects of each label.
    ghost meets: { Self → Label → Meeting };

    /// Asks the objects of a label.
    fn ask(&self, label: Label) -> Result<Met, Memory>
        ensures { IfOk result (λ met. met_of met ≡ meets self.now label) };
}

impl Reader<'_> {
    /// Asks each of these labels.
    fn ask_each<A: Asks>(&self, asker: &A, members: &[Label]) -> Result<Met, Memory>
        ensures { IfOk result (λ met. met_of met ≡ met_over (A.meets asker.now) members.now) }
    {
        let mut met = Met::nothing(self.alloc);
        for member in members {
            let one = asker.ask(*member)?;
            met.join(self.alloc, one)?;
        }
        Ok(met)
    }

    /// The labels of the program in a set that aren't known yet, in order.
    fn new_labels(&self, set: &LabelSet, known: &LabelSet) -> Result<Vec<Label>, Memory>
        ensures { IfOk result (λ v. v.items ≡ filter (λ l. not (labels_in known.now l))
            (filter (labels_in set.now) (labels_of self.now.program.now))) }
    {
        let mut labels = self.labels(set)?;
        labels.retain(|label| !known.contains(*label));
        Ok(labels)
    }

    /// Walks from some labels on to all that they lead to, and asks each label of the program that
    /// it reaches once: each round asks those that the round before it reached first.
    pub(crate) fn walk<A: Asks>(&self, asker: &A, start: &LabelSet) -> Result<Met, Memory>
        ensures { IfOk result (λ met. met_of met ≡ met_from (A.meets asker.now)
            (labels_of self.now.program.now) (labels_in start.now)) }
    {
        let mut met = Met::nothing(self.alloc);
        met.labels = start.copy()?;
        let mut members = self.labels(start)?;
        'rounds: while !members.is_empty() {
            let round = self.ask_each(asker, &members)?;
            members = self.new_labels(&round.labels, &met.labels)?;
            met.join(self.alloc, round)?;
        }
        Ok(met)
    }
}
