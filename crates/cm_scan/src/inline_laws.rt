//! Laws of the definitions of inlines. Each is the contract of a public function with an empty body.
ghost use Rattle.cm_scan.specs.laws.InlineLaws.{ReadingGoesOn, StepLeavesAnEnd, BracketStep, UnmarkedIsPlain};
ghost use Rattle.cm_scan.specs.laws.InlineLaws.{PlainIsItself, PlainFrontIsText, SpacesAndLineFeed};
ghost use Rattle.cm_scan.specs.inlines.Pieces.{TextsInPieces, ReadingInPieces};
ghost use Rattle.cm_scan.specs.inlines.DelimiterRuns.{RunsAreFew};
ghost use Rattle.cm_scan.specs.inlines.OnePass.{OnePassExamples, PairsInOnePass};
ghost use Rattle.cm_scan.specs.laws.InlineExamples.{CodeSpanExamples, OpensEmphasisExamples};
ghost use Rattle.cm_scan.specs.laws.InlineExamples.{ClosesEmphasisExamples, OpensStrongExamples};
ghost use Rattle.cm_scan.specs.laws.InlineExamples.{ClosesStrongExamples, InsideEmphasisExamples};
ghost use Rattle.cm_scan.specs.laws.InlineExamples.{LeftOverExamples, AmbiguityExamples};
ghost use Rattle.cm_scan.specs.laws.InlineExamples.{InlineLinkExamples, ReferenceLinkExamples};
ghost use Rattle.cm_scan.specs.laws.InlineExamples.{ImageExamples, AutolinkExamples, RawHtmlExamples};
ghost use Rattle.cm_scan.specs.laws.InlineExamples.{LineBreakExamples, TextExamples, StrikeExamples};
ghost use Rattle.cm_scan.specs.laws.InlineExamples.{OlderRulesExamples, NestingExamples};

/// Worked examples of the inlines of leaves, by computation.
pub fn inline_examples()
    ensures code_span { CodeSpanExamples }
    ensures opens_emphasis { OpensEmphasisExamples }
    ensures closes_emphasis { ClosesEmphasisExamples }
    ensures opens_strong { OpensStrongExamples }
    ensures closes_strong { ClosesStrongExamples }
    ensures inside_emphasis { InsideEmphasisExamples }
    ensures left_over { LeftOverExamples }
    ensures ambiguity { AmbiguityExamples }
    ensures inline_link { InlineLinkExamples }
    ensures reference_link { ReferenceLinkExamples }
    ensures image { ImageExamples }
    ensures autolink { AutolinkExamples }
    ensures raw_html { RawHtmlExamples }
    ensures line_break { LineBreakExamples }
    ensures text { TextExamples }
    ensures strike { StrikeExamples }
    ensures older_rules { OlderRulesExamples }
    ensures nesting { NestingExamples }
{}

/// Each step leaves an end of its source, and reading continues after the step as if the source started
/// there: no bound and no place in the whole matters. At a `]` the step is that of brackets.
pub fn reading_goes_on()
    ensures on { ReadingGoesOn }
    ensures end { StepLeavesAnEnd }
    ensures bracket { BracketStep }
{}

/// Each delimiter run has at least one character, and together they have no more than the source has bytes.
pub fn runs_are_few()
    ensures { RunsAreFew }
{}

/// The bytes that `cm_text::next_marked` skips are plain, and a source of plain bytes is one text, itself.
/// Before anything else plain bytes are text, except for spaces before a line feed, which are a line break
/// with it.
pub fn plain_is_itself()
    ensures unmarked { UnmarkedIsPlain }
    ensures whole { PlainIsItself }
    ensures front { PlainFrontIsText }
    ensures line_break { SpacesAndLineFeed }
{}

/// However the texts among the items are cut, emphasis is the same, and reading continues in the same way.
pub fn texts_in_pieces()
    ensures emphasis { TextsInPieces }
    ensures reading { ReadingInPieces }
{}

/// Repeated pairing makes the same as one pass from the left in which each closer searches for its nearest
/// opener.
pub fn pairs_in_one_pass()
    ensures { PairsInOnePass }
{}

/// Worked examples of one pass from the left, by computation.
pub fn one_pass_examples()
    ensures { OnePassExamples }
{}
