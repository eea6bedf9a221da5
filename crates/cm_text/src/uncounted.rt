//! Addresses and references for callers that count no looks.
ghost use Rattle.std.specs.Prelude.{◌≡◌, ◌<◌};
ghost use Rattle.cm_text.specs.Addresses.{is_followed};
ghost use Rattle.cm_text.specs.References.{read_of, reference};

use crate::looks::{Looks, Rest};
use crate::references::Chars;
use crate::rules::Rules;
use crate::{addresses, references};
use std::sync::ledger::{Blank, Ledger};

/// Whether the rules follow this address.
#[inline(always)]
pub(crate) fn follows<L: Ledger>(rules: Rules, address: &[u8], blank: Blank) -> bool
    requires name { blank.name ≡ L.name }
    requires parts { blank.parts ≡ L.parts }
    requires some { 0 < blank.parts }
    ensures followed { result ≡ is_followed rules address.now }
{
    addresses::follows(rules, &Rest::of(address), &mut Looks::<L>::start(blank))
}

/// The reference at the start of a text, and the number of its bytes.
#[inline(always)]
pub(crate) fn reference<L: Ledger>(text: &[u8], blank: Blank) -> Option<(Chars, usize)>
    requires name { blank.name ≡ L.name }
    requires parts { blank.parts ≡ L.parts }
    requires some { 0 < blank.parts }
    ensures read { read_of result ≡ reference text.now }
{
    references::reference(&Rest::of(text), &mut Looks::<L>::start(blank))
}
