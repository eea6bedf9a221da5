//! Laws: facts about the definitions alone. Each is the contract of a public function with an empty body.
ghost use Rattle.cm_command.specs.WordExamples.{WordExamples};

/// Worked examples of the words of `cmk examples`, of `cmk tree --json`, and of those for the version, by
/// computation.
pub fn worked_examples()
    ensures { WordExamples }
{}
