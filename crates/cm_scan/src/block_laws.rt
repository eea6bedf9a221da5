//! Laws of single blocks, with any lines after them. Each is the contract of a public function with an empty
//! body.
ghost use Rattle.cm_scan.specs.laws.BlockLaws.{UnindentedLine, QuoteAndSpace, QuoteAlone, ItemAndSpace};
ghost use Rattle.cm_scan.specs.laws.BlockLaws.{ItemAlone, RunUpToItsEnd, RunUpToItsUnderline};
ghost use Rattle.cm_scan.specs.laws.BlockLaws.{FencedUpToItsEnd, FencedToTheLast, HtmlUpToItsEnd};
ghost use Rattle.cm_scan.specs.laws.BlockLaws.{HtmlUpToABlankLine, KindOfItself};
ghost use Rattle.cm_scan.specs.laws.BlockLaws.{ItemBeforeItsList, ItemByItself, ContentEndsText};
ghost use Rattle.cm_scan.specs.laws.BlockLaws.{QuotedEndsLine, StayingInQuoteEndsLine};
ghost use Rattle.cm_scan.specs.laws.BlockLaws.{ListedEndsLine, StayingInItemEndsLine};

/// What a line starts, and whether it is an underline, is given by its whole text, if it isn't indented or
/// lazy.
pub fn lines_at_the_margin()
    ensures { UnindentedLine }
{}

/// The content of a block quote or an item starts after its marker and one space, or after the marker alone.
pub fn content_after_markers()
    ensures quote { QuoteAndSpace }
    ensures quote_alone { QuoteAlone }
    ensures item { ItemAndSpace }
    ensures item_alone { ItemAlone }
{}

/// A run of text has the lines that continue it, up to the one that ends or underlines it.
pub fn lines_of_text()
    ensures end { RunUpToItsEnd }
    ensures underline { RunUpToItsUnderline }
{}

/// Fenced code has the lines up to its closing fence, or all.
pub fn lines_of_fenced_code()
    ensures end { FencedUpToItsEnd }
    ensures last { FencedToTheLast }
{}

/// An HTML block has the lines up to the one that meets its end condition, or up to a blank line.
pub fn lines_of_html()
    ensures end { HtmlUpToItsEnd }
    ensures blank_line { HtmlUpToABlankLine }
{}

/// An item before a list of its kind is the first of that list, and before anything else a list by itself.
pub fn items_before_lists()
    ensures kind { KindOfItself }
    ensures list { ItemBeforeItsList }
    ensures alone { ItemByItself }
{}

/// What is left of a line in block quotes and items is an end of the line, indentation aside, even where a
/// tab is cut.
pub fn contents_end_lines()
    ensures text { ContentEndsText }
    ensures quote { QuotedEndsLine }
    ensures in_quote { StayingInQuoteEndsLine }
    ensures item { ListedEndsLine }
    ensures in_item { StayingInItemEndsLine }
{}
