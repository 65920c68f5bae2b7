ghost use Rattle.voy_append.specs.Laws.{WholeFileIsSafe};

/// Law: what was appended to no bytes is the whole file. There is nothing to run.
#[tactic(auto, using(crate::proofs::AppendingLemmas::whole_is_safe))]
pub fn whole_file_is_safe()
    ensures { WholeFileIsSafe }
{}
