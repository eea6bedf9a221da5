//! The names of references, in the order of their bytes.
//!
//! They are one packed table, in which a name is found by binary search. It is proved by computation to have
//! the names of the definition and no others.
ghost use Rattle.std.specs.Prelude.{◌≡◌, ◌≢◌, ℕ, ◌<◌, [], ◌∷◌, Some, IfSome, IfNone, option_map};
ghost use Rattle.cm_text.specs.steps.NameTable.{names_joined, start_at, first_at, name_at, characters_at};
ghost use Rattle.cm_text.specs.NamedReferences.{names};
ghost use Rattle.cm_text.specs.References.{entry, chars_of};

use crate::references::Chars;
use std::cmp::Ordering;

const NAMES: &[u8] =
    b"AEligAacuteAcircAgraveAlphaAringAtildeAumlBetaCcedilChiClockwiseContourIntegralDaggerDcaron\
    DeltaDifferentialDETHEacuteEcircEgraveEpsilonEtaEumlGammaHilbertSpaceIacuteIcircIgraveIotaIuml\
    KappaLambdaMuNtildeNuOacuteOcircOgraveOmegaOmicronOslashOtildeOumlPhiPiPsiRhoSigmaTHORNTau\
    ThetaUacuteUcircUgraveUpsilonUumlXiYacuteZetaaacuteacircacuteaeligagravealphaampaposaring\
    atildeaumlbdquobetabrvbarbullccedilcedilcentchicopycurrendaggerdarrdegdeltadivideeacuteecirc\
    egraveepsilonetaetheumleurofrac12frac14frac34gammagtharrhellipiacuteicirciexcligraveiotaiquest\
    iumlkappalambdalaquolarrldquolsaquolsquoltmacrmdashmicromiddotmunbspndashngEnotntildenuoacute\
    ocircograveomegaomicronordfordmoslashotildeoumlparapermilphipiplusmnpoundpsiquotraquorarrrdquo\
    regrhorsaquorsquosbquosectshysigmasigmafsup1sup2sup3szligtauthetathorntimestradeuacuteuarr\
    ucircugraveumlupsilonuumlxiyacuteyenyumlzeta";

/// Where each starts, and where the last ends.
const STARTS: [u16; 178] = [
    0, 5, 11, 16, 22, 27, 32, 38, 42, 46, 52, 55, 79, 85, 91, 96, 109, 112, 118, 123, 129, 136,
    139, 143, 148, 160, 166, 171, 177, 181, 185, 190, 196, 198, 204, 206, 212, 217, 223, 228, 235,
    241, 247, 251, 254, 256, 259, 262, 267, 272, 275, 280, 286, 291, 297, 304, 308, 310, 316, 320,
    326, 331, 336, 341, 347, 352, 355, 359, 364, 370, 374, 379, 383, 389, 393, 399, 404, 408, 411,
    415, 421, 427, 431, 434, 439, 445, 451, 456, 462, 469, 472, 475, 479, 483, 489, 495, 501, 506,
    508, 512, 518, 524, 529, 534, 540, 544, 550, 554, 559, 565, 570, 574, 579, 585, 590, 592, 596,
    601, 606, 612, 614, 618, 623, 626, 629, 635, 637, 643, 648, 654, 659, 666, 670, 674, 680, 686,
    690, 694, 700, 703, 705, 711, 716, 719, 723, 728, 732, 737, 740, 743, 749, 754, 759, 763, 766,
    771, 777, 781, 785, 789, 794, 797, 802, 807, 812, 817, 823, 827, 832, 838, 841, 848, 852, 854,
    860, 863, 867, 871,
];

/// The character of each, or the first of two.
const CHARACTERS: [char; 177] = [
    '\u{C6}', '\u{C1}', '\u{C2}', '\u{C0}', '\u{391}', '\u{C5}', '\u{C3}', '\u{C4}', '\u{392}',
    '\u{C7}', '\u{3A7}', '\u{2232}', '\u{2021}', '\u{10E}', '\u{394}', '\u{2146}', '\u{D0}',
    '\u{C9}', '\u{CA}', '\u{C8}', '\u{395}', '\u{397}', '\u{CB}', '\u{393}', '\u{210B}', '\u{CD}',
    '\u{CE}', '\u{CC}', '\u{399}', '\u{CF}', '\u{39A}', '\u{39B}', '\u{39C}', '\u{D1}', '\u{39D}',
    '\u{D3}', '\u{D4}', '\u{D2}', '\u{3A9}', '\u{39F}', '\u{D8}', '\u{D5}', '\u{D6}', '\u{3A6}',
    '\u{3A0}', '\u{3A8}', '\u{3A1}', '\u{3A3}', '\u{DE}', '\u{3A4}', '\u{398}', '\u{DA}', '\u{DB}',
    '\u{D9}', '\u{3A5}', '\u{DC}', '\u{39E}', '\u{DD}', '\u{396}', '\u{E1}', '\u{E2}', '\u{B4}',
    '\u{E6}', '\u{E0}', '\u{3B1}', '\u{26}', '\u{27}', '\u{E5}', '\u{E3}', '\u{E4}', '\u{201E}',
    '\u{3B2}', '\u{A6}', '\u{2022}', '\u{E7}', '\u{B8}', '\u{A2}', '\u{3C7}', '\u{A9}', '\u{A4}',
    '\u{2020}', '\u{2193}', '\u{B0}', '\u{3B4}', '\u{F7}', '\u{E9}', '\u{EA}', '\u{E8}', '\u{3B5}',
    '\u{3B7}', '\u{F0}', '\u{EB}', '\u{20AC}', '\u{BD}', '\u{BC}', '\u{BE}', '\u{3B3}', '\u{3E}',
    '\u{2194}', '\u{2026}', '\u{ED}', '\u{EE}', '\u{A1}', '\u{EC}', '\u{3B9}', '\u{BF}', '\u{EF}',
    '\u{3BA}', '\u{3BB}', '\u{AB}', '\u{2190}', '\u{201C}', '\u{2039}', '\u{2018}', '\u{3C}',
    '\u{AF}', '\u{2014}', '\u{B5}', '\u{B7}', '\u{3BC}', '\u{A0}', '\u{2013}', '\u{2267}',
    '\u{AC}', '\u{F1}', '\u{3BD}', '\u{F3}', '\u{F4}', '\u{F2}', '\u{3C9}', '\u{3BF}', '\u{AA}',
    '\u{BA}', '\u{F8}', '\u{F5}', '\u{F6}', '\u{B6}', '\u{2030}', '\u{3C6}', '\u{3C0}', '\u{B1}',
    '\u{A3}', '\u{3C8}', '\u{22}', '\u{BB}', '\u{2192}', '\u{201D}', '\u{AE}', '\u{3C1}',
    '\u{203A}', '\u{2019}', '\u{201A}', '\u{A7}', '\u{AD}', '\u{3C3}', '\u{3C2}', '\u{B9}',
    '\u{B2}', '\u{B3}', '\u{DF}', '\u{3C4}', '\u{3B8}', '\u{FE}', '\u{D7}', '\u{2122}', '\u{FA}',
    '\u{2191}', '\u{FB}', '\u{F9}', '\u{A8}', '\u{3C5}', '\u{FC}', '\u{3BE}', '\u{FD}', '\u{A5}',
    '\u{FF}', '\u{3B6}',
];

/// The position of the one name that has two characters.
const PAIR: usize = 122;

/// The characters of a reference with this name, if it is one of the names.
pub(crate) fn look_up(name: &[u8]) -> Option<Chars>
    ensures found { option_map chars_of result ≡ entry names name.now }
{
    if let Some(first) = common(name) {
        return Some(Chars {
            first,
            second: None,
        });
    }
    Some(characters_at(place_of(name)?))
}

/// The character of a name that is met often. These names are compared first, which is faster than a search.
#[inline(always)]
fn common(name: &[u8]) -> Option<char>
    ensures found { IfSome result (λ character. entry names name.now ≡ Some (character ∷ [])) }
{
    match name {
        b"amp" => Some('&'),
        b"lt" => Some('<'),
        b"gt" => Some('>'),
        b"quot" => Some('"'),
        b"nbsp" => Some('\u{A0}'),
        b"copy" => Some('\u{A9}'),
        _ => None,
    }
}

fn place_of(name: &[u8]) -> Option<usize>
    ensures some { IfSome result (λ i. (i < 177) × (name_at i ≡ name.now)) }
    ensures none { IfNone result ((i : ℕ) → i < 177 → name_at i ≢ name.now) }
{
    let mut low = 0;
    let mut high = 177;
    while low < high {
        let middle = low + (high - low) / 2;
        match name_at(middle).cmp(name) {
            Ordering::Less => low = middle + 1,
            Ordering::Equal => return Some(middle),
            Ordering::Greater => high = middle,
        }
    }
    None
}

fn name_at(place: usize) -> &'static [u8]
    requires { place < 177 }
    ensures { result.now ≡ name_at place }
{
    &names_joined()[start_at(place)..start_at(place + 1)]
}

#[tactic(auto, unfolding(crate::specs::steps::NameTable::names_joined))]
fn names_joined() -> &'static [u8]
    ensures { result.now ≡ names_joined }
{
    NAMES
}

#[tactic(auto, unfolding(crate::specs::steps::NameTable::start_at))]
fn start_at(place: usize) -> usize
    requires { place < 178 }
    ensures { result ≡ start_at place }
{
    STARTS[place] as usize
}

#[tactic(auto, unfolding(crate::specs::steps::NameTable::first_at))]
fn first_at(place: usize) -> char
    requires { place < 177 }
    ensures { result ≡ first_at place }
{
    CHARACTERS[place]
}

#[tactic(auto, unfolding(crate::specs::steps::NameTable::characters_at))]
fn characters_at(place: usize) -> Chars
    requires { place < 177 }
    ensures { chars_of result ≡ characters_at place }
{
    let first = first_at(place);
    if place == PAIR {
        return Chars {
            first,
            second: Some('\u{338}'),
        };
    }
    Chars {
        first,
        second: None,
    }
}
