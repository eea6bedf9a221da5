//! Laws: facts about the definitions alone. Each is the contract of a public function with an empty body.
ghost use Rattle.cm_html.specs.MarkupExamples.{AddressMarkupExamples, FollowedExamples, MarkupExamples};
ghost use Rattle.cm_html.specs.MarkupExamples.{RawHtmlExamples, TextMarkupExamples};
ghost use Rattle.cm_html.specs.Tags.{AddressesStay, TextIsNoMarkup};
ghost use Rattle.cm_html.specs.WorkedExamples.{TextExamples, InlineExamples, LeafExamples};
ghost use Rattle.cm_html.specs.WorkedExamples.{ContainerExamples, ListingExamples};

/// Worked examples over the definitions, by computation.
pub fn worked_examples()
    ensures texts { TextExamples }
    ensures inlines { InlineExamples }
    ensures leaves { LeafExamples }
    ensures containers { ContainerExamples }
    ensures listings { ListingExamples }
{}

/// The HTML of a tree without raw HTML, except in the alternative text of images, and with headings of the
/// levels 1 to 6, is markup, and its tags are those of the tree. So no text, whatever it says, adds, changes
/// or ends a tag.
pub fn text_is_no_markup()
    ensures { TextIsNoMarkup }
{}

/// If such a tree contains only what the rules read, then so does its HTML: each address in it, as it is
/// written, is one that they follow, and with rules without raw HTML each class is one word.
pub fn addresses_stay()
    ensures { AddressesStay }
{}

/// Worked examples of markup, by computation.
pub fn markup_examples()
    // Of bytes that are markup, and of some that aren't.
    ensures markup { MarkupExamples }
    // Of addresses and classes, with rules without raw HTML and with addresses of the web alone.
    ensures addresses { AddressMarkupExamples }
    // Of texts that look like markup.
    ensures texts { TextMarkupExamples }
    // Of trees with raw HTML.
    ensures raw { RawHtmlExamples }
    // Of trees that hold only what the rules read.
    ensures followed { FollowedExamples }
{}
