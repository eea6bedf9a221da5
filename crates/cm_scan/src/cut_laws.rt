//! Laws of where the inlines of a leaf are in its source. Each is the contract of a public function with an
//! empty body.
ghost use Rattle.cm_scan.specs.laws.CutExamples.{CutEmphasisExamples, CutLinkExamples};
ghost use Rattle.cm_scan.specs.laws.CutExamples.{CutAtomExamples, CutTextExamples, PlaceExamples};
ghost use Rattle.cm_scan.specs.laws.CutLaws.{OneCut, PlainTextsAreSources, AtomsAreWritten};
ghost use Rattle.cm_scan.specs.laws.CutLaws.{PlacesPartCharacters, SourcesAreCut, TailsAreWritten};
ghost use Rattle.cm_scan.specs.inlines.Places.{PlacesAreNested, PlacesAreSources, PlacesAreWithin};

/// The source of each leaf is cut into its inlines, in exactly one way. Each inline has a piece of the
/// source, which is read as that inline in its place; those inside it have pieces of that piece; and nothing
/// is left over.
pub fn sources_are_cut()
    ensures cut { SourcesAreCut }
    ensures one { OneCut }
{}

/// A text without escapes and references is its source. Code spans and autolinks are between their marks, raw
/// HTML is as it is written, and a link or an image ends with its `]` or with what is in parentheses or
/// brackets after it.
pub fn sources_are_written()
    ensures text { PlainTextsAreSources }
    ensures atom { AtomsAreWritten }
    ensures tail { TailsAreWritten }
{}

/// Worked examples of sources and their pieces, by computation.
pub fn cut_examples()
    ensures text { CutTextExamples }
    ensures emphasis { CutEmphasisExamples }
    ensures link { CutLinkExamples }
    ensures atom { CutAtomExamples }
    ensures place { PlaceExamples }
{}

/// The places of inlines, an inline before those inside it, are nested: each is inside any earlier one, or
/// after it. The bytes at each place are the source of its inline, and no place splits a character.
pub fn places_are_nested()
    ensures sources { PlacesAreSources }
    ensures within { PlacesAreWithin }
    ensures nested { PlacesAreNested }
    ensures characters { PlacesPartCharacters }
{}
