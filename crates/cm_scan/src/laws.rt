//! Laws: facts about the definitions alone. Each is the contract of a public function with an empty body.
ghost use Rattle.cm_scan.specs.laws.PartLaws.{NoLines, FixedPoint, BlankCase, BreakCase, HeadingCase};
ghost use Rattle.cm_scan.specs.laws.PartLaws.{FenceCase, HtmlCase, CodeCase, TextCase, OneMoreStays};
ghost use Rattle.cm_scan.specs.laws.PartLaws.{QuoteCase, ItemCase, OneOwnerALine, RunsInOrder};
ghost use Rattle.cm_scan.specs.laws.PartLaws.{HeadingLevels};
ghost use Rattle.cm_scan.specs.laws.Looseness.{PartsHaveLines, LooseByOwners};
ghost use Rattle.cm_scan.specs.laws.BlockExamples.{LeafExamples, ContainerExamples};
ghost use Rattle.cm_scan.specs.laws.BlockExamples.{DefinitionExamples, DepthExamples, BoundExamples};

/// The parts of a list of lines are given by the cases on its first line, which use the parts of fewer lines:
/// nothing depends on the bound up to which the definition computes.
#[tactic(auto, using(crate::proofs::lemmas::blocks::PartsByCases::all_cases))]
pub fn parts_by_cases()
    ensures none { NoLines }
    ensures cases { FixedPoint }
{}

/// The same for each kind of leaf, and for a blank line.
#[tactic(auto, using(crate::proofs::lemmas::blocks::PartsByCases::leaf_cases))]
pub fn leaf_cases()
    ensures blank_line { BlankCase }
    ensures thematic_break { BreakCase }
    ensures heading { HeadingCase }
    ensures fence { FenceCase }
    ensures html { HtmlCase }
    ensures indented_code { CodeCase }
    ensures text { TextCase }
{}

/// The same for a block quote and a list item, by the lines that stay in them and the first that doesn't.
#[tactic(auto, using(crate::proofs::lemmas::blocks::PartsByCases::container_cases))]
pub fn container_cases()
    ensures quote { QuoteCase }
    ensures item { ItemCase }
    ensures one_more { OneMoreStays }
{}

/// Worked examples over the definitions, by computation.
pub fn worked_examples()
    ensures leaves { LeafExamples }
    ensures containers { ContainerExamples }
    ensures definitions { DefinitionExamples }
    ensures depths { DepthExamples }
    ensures bounds { BoundExamples }
{}

/// Each line has one owner, and the leaves of the tree are those that the lines name: the lines of each leaf
/// are one nonempty unbroken run, and the runs are in the order of the leaves' numbers.
#[tactic(auto, using(crate::proofs::lemmas::blocks::CountedLines::owners))]
pub fn owners_of_lines()
    ensures one_a_line { OneOwnerALine }
    ensures runs { RunsInOrder }
{}

/// A list is loose exactly if the owners of its lines say so: a blank line comes directly before its second
/// or a later item, or directly before the second or a later block of one of its items (5.3 Lists).
pub fn loose_lists()
    ensures lines { PartsHaveLines }
    ensures loose { LooseByOwners }
{}

/// Each heading, at any depth, has a level from 1 to 6.
pub fn heading_levels()
    ensures { HeadingLevels }
{}
