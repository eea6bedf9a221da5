//! Laws: facts about the definitions alone. Each is the contract of a public function with an empty body.
ghost use Rattle.cm_block.specs.Laws.{OnePass, FromTheLeft, StackBlocks};
ghost use Rattle.cm_block.specs.Laws.{StackOwners, StackTable, OneOwnerEach};
ghost use Rattle.cm_block.specs.Depths.{DepthsOfLines, TooDeepAtOnce, TooDeepStays, TooDeepNext};
ghost use Rattle.cm_block.specs.Lazy.{LazyLine, TextGoesOn};
ghost use Rattle.cm_block.specs.Sizes.{TextsAreShort, SizeExamples};
ghost use Rattle.cm_block.specs.WorkedExamples.{StackExamples};

/// One pass over the lines, which keeps what is open and no line, gives the parts of the lines.
#[tactic(auto, using(crate::proofs::lemmas::OnePass::one_pass))]
pub fn parts_in_one_pass()
    ensures { OnePass }
{}

/// Closed blocks added one by one make the tree of their parts, with the marks from which it follows whether
/// a list that contains them is loose.
pub fn levels()
    ensures { FromTheLeft }
{}

/// The stack that a parser holds, closed after the lines, gives their blocks, the owner of each line and the
/// table of the link reference definitions.
#[tactic(auto, using(crate::proofs::lemmas::Stacks::of_stacks))]
pub fn stack()
    ensures blocks { StackBlocks }
    ensures owners { StackOwners }
    ensures definitions { StackTable }
{}

/// The stack, closed after the lines, gives one owner for each line.
#[tactic(auto, using(crate::proofs::lemmas::Stacks::one_owner_each))]
pub fn one_owner_each()
    ensures { OneOwnerEach }
{}

/// A lazy continuation line goes to the end of the open run of text, through every level, unread.
#[tactic(auto, using(crate::proofs::lemmas::Lazy::lazy_line))]
pub fn lazy_lines()
    ensures { LazyLine }
{}

/// A line of text continues the open run of text, through every level, whatever its indentation.
#[tactic(auto, using(crate::proofs::lemmas::TextGoesOn::text_goes_on))]
pub fn text_lines()
    ensures { TextGoesOn }
{}

/// The number of open quotes and items after a line is the number of those that enclose it. So the first line
/// that is too deep is reported when it is read, and stays the first whatever follows.
#[tactic(auto, using(crate::proofs::lemmas::Depths::of_depths))]
pub fn depths()
    ensures of_lines { DepthsOfLines }
    ensures too_deep { TooDeepAtOnce }
    ensures stays { TooDeepStays }
    ensures next { TooDeepNext }
{}

/// The texts of a document's blocks have at most three bytes for each of its own, and one more: U+0000
/// becomes three bytes, a tab that is cut up to three spaces, and each line of code ends with a line feed.
#[tactic(auto, using(crate::proofs::lemmas::DocumentSizes::texts_are_short))]
pub fn texts_are_short()
    ensures { TextsAreShort }
{}

/// Worked examples over the definitions, by computation.
pub fn worked_examples()
    ensures stack { StackExamples }
    ensures sizes { SizeExamples }
{}
