//! Laws of reading back what is spelled. Each is the contract of a public function with an empty body.
//!
//! The laws on contents and on trees require that the spelling is UTF-8, because the bytes of a tree's texts
//! are any numbers here. Emphasis of a text of the one byte E3 isn't refused, is spelled as that byte between
//! two `*`, and is read as one text. `spell` requires nothing, because a `String` is UTF-8.
ghost use Rattle.cm_source.specs.ReadingBack.{ParagraphsReadBack, HeadingsReadBack};
ghost use Rattle.cm_source.specs.ReadingBack.{BlocksReadBack, SpellingIsText, TreesReadBack};

/// A content that isn't refused is read from its spelling, whatever is defined.
#[tactic(auto, using(crate::proofs::lemmas::ContentsBack::contents_read_back))]
pub fn contents_read_back()
    ensures paragraphs { ParagraphsReadBack }
    ensures headings { HeadingsReadBack }
{}

/// The blocks of a spelling are those that were spelled, with the spelling of each content as its source.
#[tactic(auto, using(crate::proofs::lemmas::BlocksBack::blocks_read_back))]
pub fn blocks_read_back()
    ensures { BlocksReadBack }
{}

/// A spelling has no U+0000, so it is the text that is read.
pub fn spelling_is_text()
    ensures { SpellingIsText }
{}

/// The tree of a spelling is the tree that was spelled.
#[tactic(auto, using(crate::proofs::lemmas::DocumentsBack::trees_read_back))]
pub fn trees_read_back()
    ensures { TreesReadBack }
{}
