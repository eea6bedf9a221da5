//! Laws: facts about the definitions alone. Each is the contract of a public function with an empty body.
ghost use Rattle.cm_tool.specs.ExampleLaws.{ExamplesAreDetermined, ExamplesAreTold, ExamplesOfText};
ghost use Rattle.cm_tool.specs.HtmlExamples.{HtmlExamples};
ghost use Rattle.cm_tool.specs.Faults.{SettledIsTold};
ghost use Rattle.cm_tool.specs.ReportExamples.{ReportExamples};
ghost use Rattle.cm_tool.specs.Shown.{ShownIsPrintable};
ghost use Rattle.cm_tool.specs.ShownExamples.{ShownExamples};
ghost use Rattle.cm_tool.specs.Owners.{OneOwnerALine, RunsInOrder};
ghost use Rattle.cm_tool.specs.FaultExamples.{FaultExamples};
ghost use Rattle.cm_tool.specs.FaultPlaceExamples.{FaultPlaceExamples};
ghost use Rattle.cm_tool.specs.TextMarkup.{HeadingLevels, TextIsNoMarkup, TextsFromStrangers};
ghost use Rattle.cm_tool.specs.Within.{NoFaultJustWithin, SpelledWithoutFault};
ghost use Rattle.cm_tool.specs.FaultOrder.{FaultsInOrder};

/// Worked examples, by computation.
pub fn worked_examples()
    // Of faults.
    ensures faults { FaultExamples }
    // Of the lines that they are on.
    ensures places { FaultPlaceExamples }
    // From the bytes of a text to its HTML.
    ensures html { HtmlExamples }
    // From a file of examples to their report.
    ensures files { ReportExamples }
    // Of texts as they are written to a terminal.
    ensures shown { ShownExamples }
{}

/// A parser meets faults in an order that gives the fault of the input: first a line that has ended and is
/// too deep, then what is wrong with the text, then the last line.
pub fn faults_in_order()
    ensures { FaultsInOrder }
{}

/// A parser reports a fault exactly if every input that starts with the bytes so far has it.
pub fn settled_is_told()
    ensures { SettledIsTold }
{}

/// A text has no fault exactly if it is UTF-8, no longer than the limit, and its tree nests no deeper than
/// the limits. The source that is spelled for a tree has none if it and the tree are within the limits.
pub fn no_fault_within_limits()
    ensures text { NoFaultJustWithin }
    ensures spelled { SpelledWithoutFault }
{}

/// Each line of a text has one owner in its document, and the leaves of the document's tree are those that
/// the lines name: each leaf's lines are one nonempty unbroken run, and the runs are in the order of the
/// leaves' numbers.
pub fn owners_of_lines()
    ensures one_a_line { OneOwnerALine }
    ensures runs { RunsInOrder }
{}

/// Each heading of a document has a level from 1 to 6. If a text's tree has no raw HTML other than in the
/// alternative text of images, what `convert` writes is markup, and its tags are those of the tree. Each
/// address in it is one that the rules follow.
pub fn text_is_no_markup()
    ensures levels { HeadingLevels }
    ensures tags { TextIsNoMarkup }
{}

/// With rules without raw HTML, what `convert` writes for any bytes is markup, and its tags are those of the
/// tree. Each address in it is one that the rules follow, and each class is `language-` and a word.
pub fn texts_from_strangers()
    ensures { TextsFromStrangers }
{}

/// The examples of a file are among its lines. An opening line is 32 backticks, a space and `example`. It is
/// followed by the lines of the source, a line `.`, the lines of the HTML, and a closing line of 32
/// backticks. Lines outside of examples are skipped. The fault of a file is its first opening line that is
/// followed by a closing line before the line `.`, or by no closing line.
pub fn examples_by_lines()
    ensures text { ExamplesOfText }
    ensures told { ExamplesAreTold }
    ensures determined { ExamplesAreDetermined }
{}

/// A text as it is written to a terminal has no control or format character, and no separator of lines or
/// paragraphs. So it is one line.
pub fn shown_is_printable()
    ensures { ShownIsPrintable }
{}
