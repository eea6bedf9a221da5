//! Laws: facts about the definitions alone. Each is the contract of a public function with an empty body.
ghost use Rattle.cm_text.specs.AddressExamples.{AddressExamples};
ghost use Rattle.cm_text.specs.Lines.{LinesAreComputed, LinesAreDetermined};
ghost use Rattle.cm_text.specs.Lines.{LinesAreLines, LinesWithLineFeeds};
ghost use Rattle.cm_text.specs.Cut.{EndedLinesAreCut, LinesAreCut};
ghost use Rattle.cm_text.specs.Indentation.{StripTakesColumns, StripInParts};
ghost use Rattle.cm_text.specs.Indentation.{SpacesAreColumns, SpacesAreStripped};
ghost use Rattle.cm_text.specs.Settled.{SettledIsTold};
ghost use Rattle.cm_text.specs.ReferenceReach.{ReachExamples, ReferencesReachOnce};
ghost use Rattle.cm_text.specs.WorkedExamples.{LineExamples, FaultExamples, IndentationExamples};
ghost use Rattle.cm_text.specs.WorkedExamples.{LabelExamples, CharacterExamples, StripExamples};
ghost use Rattle.cm_text.specs.WorkedExamples.{ReferenceExamples, UnescapeExamples, LimitExamples};

/// A text has one list of lines.
pub fn lines_are_determined()
    ensures { LinesAreDetermined }
{}

/// The lines that `lines_of` computes are the text's.
pub fn lines_are_computed()
    ensures { LinesAreComputed }
{}

/// No line of a text contains a line ending, and a text that is made of lines, each followed by a line feed,
/// has these lines.
pub fn lines_with_line_feeds()
    ensures line { LinesAreLines }
    ensures whole { LinesWithLineFeeds }
{}

/// The lines that a feed returns are those that the definition computes.
pub fn lines_are_cut()
    ensures { LinesAreCut }
{}

/// The lines that a feed returns before the text has ended are those that have ended.
pub fn ended_lines_are_cut()
    ensures { EndedLinesAreCut }
{}

/// A feed reports a fault exactly if every text that starts with the bytes so far has it.
pub fn settled_is_told()
    ensures { SettledIsTold }
{}

/// Stripping takes columns off the indentation, and nothing else.
pub fn strip_takes_columns()
    ensures { StripTakesColumns }
{}

/// Columns may be stripped in several steps.
pub fn strip_in_parts()
    ensures { StripInParts }
{}

/// Spaces before a line are columns of its indentation, and stripping as many takes just them.
pub fn spaces_are_columns()
    ensures indentation { SpacesAreColumns }
    ensures stripped { SpacesAreStripped }
{}

/// The references that start at all places of a text reach over each of its bytes at most once together.
pub fn references_reach_once()
    ensures law { ReferencesReachOnce }
    ensures examples { ReachExamples }
{}

/// Worked examples over the definitions, by computation.
pub fn worked_examples()
    ensures lines { LineExamples }
    ensures faults { FaultExamples }
    ensures indentation { IndentationExamples }
    ensures labels { LabelExamples }
    ensures characters { CharacterExamples }
    ensures strip { StripExamples }
    ensures references { ReferenceExamples }
    ensures unescape { UnescapeExamples }
    ensures limits { LimitExamples }
{}

/// Worked examples of addresses, by computation.
pub fn address_examples()
    ensures { AddressExamples }
{}
