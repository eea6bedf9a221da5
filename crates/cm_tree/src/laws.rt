//! Laws: facts about the definitions alone. Each is the contract of a public function with an empty body.
ghost use Rattle.cm_tree.specs.Definitions.{FirstCounts};
ghost use Rattle.cm_tree.specs.WorkedExamples.{DepthExamples, DefinitionExamples};

/// In a table to which definitions were added in order, a label has the target of the first definition with a
/// matching label.
pub fn first_counts()
    ensures { FirstCounts }
{}

/// Worked examples over the definitions, by computation.
pub fn worked_examples()
    ensures depths { DepthExamples }
    ensures definitions { DefinitionExamples }
{}
