//! Laws of rules without raw HTML, and of rules that follow the web's addresses alone. Each
//! is the contract of a public function with an empty body.
ghost use Rattle.cm_scan.specs.laws.RuleExamples.{RuleExamples};
ghost use Rattle.cm_scan.specs.laws.RuleLaws.{NoHtmlBlock, NoRawHtml, NoHtml, InlinesFollowed, TreesFollowed};

/// With rules without raw HTML no text has any: no line starts an HTML block, and no `<` raw HTML.
pub fn no_html()
    ensures blocks { NoHtmlBlock }
    ensures inlines { NoRawHtml }
    ensures trees { NoHtml }
{}

/// Each link and image of a text has an address that the rules follow, and each info string is one that they
/// leave as it is.
pub fn addresses_are_followed()
    ensures inlines { InlinesFollowed }
    ensures trees { TreesFollowed }
{}

/// Worked examples of what the rules don't read, by computation.
pub fn rule_examples()
    ensures { RuleExamples }
{}
