//! Laws of code spans, autolinks and raw HTML. Each is the contract of a public function with an empty body.
ghost use Rattle.std.specs.Prelude.{[], codes};
ghost use Rattle.cm_scan.specs.laws.SpanExamples.{AutolinkExamples, CodeSpanExamples};
ghost use Rattle.cm_scan.specs.laws.SpanExamples.{OlderExamples, RawHtmlExamples, ReachExamples};
ghost use Rattle.cm_scan.specs.laws.SpanLaws.{RawHtmlGoesOn, WholeRawHtmlGoesOn};
ghost use Rattle.cm_scan.specs.laws.SpanLaws.{AutolinkGoesOn, NoAutolinkGoesOn};
ghost use Rattle.cm_scan.specs.laws.SpanLaws.{CodeSpanGoesOn, AngledGoesOn};
ghost use Rattle.cm_scan.specs.laws.SpanLaws.{WholeTagGoesOn, OlderIsRead, NeedsEnd, TagsReachThrice};
ghost use Rattle.cm_scan.specs.laws.SpanLaws.{AutolinksReachOnce};

/// Raw HTML at the start of a text is the same with anything after the text.
pub fn raw_html_goes_on()
    ensures front { RawHtmlGoesOn }
    ensures whole { WholeRawHtmlGoesOn }
{}

/// An autolink is the same with anything after it, and raw HTML that is no autolink doesn't become one.
pub fn autolink_goes_on()
    ensures link { AutolinkGoesOn }
    ensures no_link { NoAutolinkGoesOn }
{}

/// A code span is the same with anything after it except a backtick.
pub fn code_span_goes_on()
    ensures { CodeSpanGoesOn }
{}

/// What a `<` starts, an autolink or raw HTML, is the same with anything after the text.
pub fn angled_goes_on()
    ensures any { AngledGoesOn }
    ensures whole_tag { WholeTagGoesOn }
{}

/// Raw HTML with the older rules is raw HTML.
pub fn older_is_read()
    ensures { OlderIsRead }
{}

/// A comment needs `-->`, a processing instruction `?>`, a CDATA section `]]>`, and any raw HTML `>`.
pub fn raw_html_needs_its_end()
    ensures comment { NeedsEnd (codes "<!--") (codes "-->") }
    ensures instruction { NeedsEnd (codes "<?") (codes "?>") }
    ensures character_data { NeedsEnd (codes "<![CDATA[") (codes "]]>") }
    ensures any { NeedsEnd [] (codes ">") }
{}

/// The tags that start at all places of a text reach over each of its bytes at most three times together.
pub fn tags_reach_thrice()
    ensures { TagsReachThrice }
{}

/// The autolinks that start at all places of a text reach over each of its bytes at most once together.
pub fn autolinks_reach_once()
    ensures { AutolinksReachOnce }
{}

/// Worked examples of raw HTML, autolinks and code spans, by computation.
pub fn span_examples()
    ensures read { RawHtmlExamples }
    ensures reach { ReachExamples }
    ensures older { OlderExamples }
    ensures links { AutolinkExamples }
    ensures spans { CodeSpanExamples }
{}
