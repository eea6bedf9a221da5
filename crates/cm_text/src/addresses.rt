//! Where addresses lead.
ghost use Rattle.std.specs.Prelude.{◌≡◌, ◌+◌, ◌==◌, ◌||◌, ◌≤◌, not, length};
ghost use Rattle.cm_text.specs.Addresses.{begins_a_part, is_followed, is_web_address, is_web_scheme};

use crate::looks::{Looks, Rest};
use crate::rules::Rules;
use crate::uncounted;
use std::marker::Brand;
use std::sync::ledger::{Blank, Ledger};

/// Whether the rules follow this address: they follow every address, or only those without a scheme or with
/// `http`, `https` or `mailto` in any case. A scheme is what comes before the first `:`, if no `/`, `?` or
/// `#` comes before that.
///
/// The address is a destination whose backslashes and references are resolved, as a tree has it.
pub fn is_followed(rules: Rules, address: &str) -> bool
    ensures followed { result ≡ is_followed rules address.now }
{
    uncounted::follows::<Brand>(rules, address.as_bytes(), Blank::new(1))
}

/// The same of an address whose looks are counted: one at each byte, and 17.
pub fn follows<L: Ledger>(rules: Rules, address: &Rest<'_>, looks: &mut Looks<L>) -> bool
    ensures followed { result ≡ is_followed rules address.now }
    ensures looks { looks.new ≤ looks.old + length address.now + 17 }
{
    rules.any_address() || is_web_address(address, looks)
}

/// Whether an address has no scheme, or one of the web's.
fn is_web_address<L: Ledger>(address: &Rest<'_>, looks: &mut Looks<L>) -> bool
    ensures web { result ≡ is_web_address address.now }
    ensures looks { looks.new ≤ looks.old + length address.now + 17 }
{
    let rest = address.skip(continues_scheme, looks);
    let Some((b, _)) = rest.first(looks) else {
        return true;
    };
    if b != b':' {
        return true;
    }
    is_web_scheme(&address.front(address.len() - rest.len()), looks)
}

/// Whether a byte before which no scheme ends continues one.
#[inline(always)]
fn continues_scheme(b: u8) -> bool
    ensures { result ≡ not (b == 58 || begins_a_part b) }
{
    !(b == b':' || begins_a_part(b))
}

/// Whether a path, a query or a fragment starts with this byte.
#[inline(always)]
fn begins_a_part(b: u8) -> bool
    ensures { result ≡ begins_a_part b }
{
    matches!(b, b'/' | b'?' | b'#')
}

/// Whether a scheme is one of the web's.
fn is_web_scheme<L: Ledger>(scheme: &Rest<'_>, looks: &mut Looks<L>) -> bool
    ensures web { result ≡ is_web_scheme scheme.now }
    ensures looks { looks.new ≤ looks.old + 15 }
{
    scheme.is_in_any_case(b"http", looks)
        || scheme.is_in_any_case(b"https", looks)
        || scheme.is_in_any_case(b"mailto", looks)
}
