//! Delimiter runs (CommonMark 0.31.2, 6.2 Emphasis and strong emphasis).
ghost use Rattle.std.specs.Prelude.{◌≡◌, [], ◌∷◌, ◌<◌, ◌≤◌, ◌&&◌};
ghost use Rattle.cm_scan.specs.inlines.Delimiters.{delimiters_match};
ghost use Rattle.cm_scan.specs.inlines.Pairing.{used};
ghost use Rattle.cm_inline.specs.Closers.{all_kinds};
ghost use Rattle.cm_inline.specs.steps.Searching.{kind};
ghost use Rattle.cm_inline.specs.steps.Runs.{byte_of, run_of};

/// The character of a delimiter run.
#[derive(Clone, Copy)]
pub(crate) enum Marker {
    Star,
    Underscore,
    Tilde,
}

impl Marker {
    /// The character as a byte.
    #[inline(always)]
    pub(crate) fn byte(self) -> u8
        ensures { result ≡ byte_of self }
    {
        match self {
            Marker::Star => b'*',
            Marker::Underscore => b'_',
            Marker::Tilde => b'~',
        }
    }

    /// The character as text.
    pub(crate) fn text(self) -> &'static str
        ensures { result.now ≡ byte_of self ∷ [] }
    {
        match self {
            Marker::Star => "*",
            Marker::Underscore => "_",
            Marker::Tilde => "~",
        }
    }
}

/// A delimiter run: its character, whether it may open and may close emphasis, its whole length, and how many
/// of its characters are left.
#[derive(Clone, Copy)]
pub(crate) struct DelimiterRun {
    pub(crate) marker: Marker,
    pub(crate) opens: bool,
    pub(crate) closes: bool,
    pub(crate) whole: u32,
    pub(crate) left: u32,
}

/// Whether an opener and a closer match (rules 9 and 10).
#[tactic(auto, unfolding(cm_scan::specs::inlines::Delimiters::delimiters_match))]
pub(crate) fn delimiters_match(closer: DelimiterRun, opener: DelimiterRun) -> bool
    ensures { result ≡ delimiters_match (run_of closer) (run_of opener) }
{
    let sum = closer.whole % 3 + opener.whole % 3;
    closer.marker.byte() == opener.marker.byte()
        && (closer.marker.byte() == b'~'
            || !(closer.opens && closer.closes || opener.opens && opener.closes)
            || sum % 3 != 0
            || closer.whole % 3 == 0 && opener.whole % 3 == 0)
}

/// The kinds of closers of one character, a star or an underscore: by whether they may also open, and by
/// their length by 3.
const KINDS_OF_ONE: usize = 2 * 3;

const KINDS_WITHOUT_TILDES: usize = 2 * KINDS_OF_ONE;

/// How many kinds of closers there are. Those of tildes are one kind.
pub(crate) const KINDS: usize = KINDS_WITHOUT_TILDES + 1;

/// The number of a closer's kind: by its character, whether it may also open, and its length by 3. Closers of
/// one kind match the same openers.
#[tactic(auto, unfolding(crate::specs::steps::Searching::kind))]
pub(crate) fn kind(closer: DelimiterRun) -> usize
    ensures number { result ≡ kind (run_of closer) }
    ensures within { result < all_kinds }
{
    let by_opening = if closer.opens { 3 } else { 0 };
    match closer.marker {
        Marker::Star => by_opening + (closer.whole % 3) as usize,
        Marker::Underscore => KINDS_OF_ONE + by_opening + (closer.whole % 3) as usize,
        Marker::Tilde => KINDS_WITHOUT_TILDES,
    }
}

/// How many characters of each run a pair takes: two for strong emphasis, one for emphasis.
pub(crate) fn used(opener: DelimiterRun, closer: DelimiterRun) -> u32
    ensures used { result ≡ used (run_of opener) (run_of closer) }
    ensures some { 1 ≤ result }
{
    if 2 <= opener.left && 2 <= closer.left {
        2
    } else {
        1
    }
}
