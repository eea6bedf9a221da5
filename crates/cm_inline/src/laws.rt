//! Laws: facts about the definitions alone. Each is the contract of a public function with an empty body.
ghost use Rattle.cm_inline.specs.WorkedExamples.{EmphasisExamples};

/// Worked examples over the definitions, by computation.
pub fn worked_examples()
    ensures { EmphasisExamples }
{}
