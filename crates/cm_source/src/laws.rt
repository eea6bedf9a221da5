//! Laws: facts about the definitions alone. Each is the contract of a public function with an empty body.
ghost use Rattle.cm_source.specs.ReadingBackExamples.{LeafBlockExamples, ContainerExamples};
ghost use Rattle.cm_source.specs.ReadingBackExamples.{ContentExamples, RuleExamples, MisreadExamples};
ghost use Rattle.cm_source.specs.ReadingBackExamples.{SourceExamples, NotUtf8Examples};
ghost use Rattle.cm_source.specs.RefusalExamples.{InlineRefusalExamples, RefusalExamples};
ghost use Rattle.cm_source.specs.WorkedExamples.{TextExamples, InlineExamples, BlockExamples};

/// Worked examples over the definitions, by computation.
pub fn worked_examples()
    ensures texts { TextExamples }
    ensures inlines { InlineExamples }
    ensures blocks { BlockExamples }
{}

/// Worked examples of trees that can't be spelled, and why not, by computation.
pub fn refusal_examples()
    ensures inlines { InlineRefusalExamples }
    ensures blocks { RefusalExamples }
{}

/// Worked examples of whole trees that read back, and of some that wouldn't, by the definitions of reading;
/// of the blocks of their lines; and of a tree that no program has, which shows why a law needs UTF-8.
pub fn reading_back_examples()
    ensures leaves { LeafBlockExamples }
    ensures containers { ContainerExamples }
    ensures contents { ContentExamples }
    ensures rules { RuleExamples }
    ensures misread { MisreadExamples }
    ensures sources { SourceExamples }
    ensures not_utf8 { NotUtf8Examples }
{}
