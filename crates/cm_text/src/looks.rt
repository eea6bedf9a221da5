//! Texts that are read only by calls that count the bytes that they look at, and the count, which takes no
//! memory. So a contract can bound what is looked at.
//!
//! A search counts the bytes up to what it finds: what `memchr` and `memmem` do inside isn't seen here.
ghost use Rattle.std.specs.Prelude.{◌≡◌, ◌+◌, ◌^◌, ◌<◌, ◌≤◌, ℕ, Bool, [], ◌∷◌, length, drop, take, None};
ghost use Rattle.std.specs.Prelude.{IfSome, MatchOption};
ghost use Rattle.std.specs.Bool.{nat_eq};
ghost use Rattle.std.specs.List.{prefix_len, starts_with};
ghost use Rattle.std.specs.Str.{str_eq_ignore_ascii_case};
ghost use Rattle.memchr.specs.Find.{IsFirstByte, FindsNeedle, is_byte};
ghost use Rattle.cm_text.specs.Search.{next_place};

use crate::search::{ByteKind, next_of};
use memchr::{memchr, memmem};
use std::marker::Model;
use std::sync::ledger::{Blank, Book, Ledger, Share};

/// How many bytes were looked at. It takes no memory, and only the calls of a `Rest` add to it.
#[derive(Drop)]
pub struct Looks<L: Ledger> {
    book: Book<L>,
    share: Share<L>,
}

impl<L: Ledger> Model for Looks<L> {
    ghost use Rattle.std.specs.Prelude.{ℕ, ◌<◌};

    ghost Value = { ℕ };

    ghost view = { λ s. s.book.total };

    ghost invariant = { λ s. 0 < s.share.parts };
}

impl<L: Ledger> Looks<L> {
    /// None yet, from a blank for the ledger `L`.
    pub fn start(blank: Blank) -> Looks<L>
        requires name { blank.name ≡ L.name }
        requires parts { blank.parts ≡ L.parts }
        requires some { 0 < blank.parts }
        ensures { result ≡ 0 }
    {
        let (book, share) = blank.open::<L>();
        Looks { book, share }
    }

    /// The given number more.
    #[inline(always)]
    fn add(&mut self, more: usize)
        ensures { self.new ≡ self.old + more }
    {
        self.book.add(&mut self.share, more as u64);
    }
}

/// What is left of a text. Its bytes are reached only by calls that count each look at one.
#[derive(Drop)]
pub struct Rest<'a> {
    bytes: &'a [u8],
}

impl<'a> Model for Rest<'a> {
    ghost use Rattle.std.specs.Prelude.{ℕ, List};

    ghost Value = { List ℕ };

    ghost view = { λ s. s.bytes.now };
}

impl<'a> Rest<'a> {
    /// All of a text.
    #[inline(always)]
    pub fn of(bytes: &'a [u8]) -> Rest<'a>
        ensures { result ≡ bytes.now }
    {
        Rest { bytes }
    }

    /// How many bytes are left: no look.
    #[inline(always)]
    pub fn len(&self) -> usize
        ensures { result ≡ length self.now }
    {
        self.bytes.len()
    }

    /// The same once more: no look.
    #[inline(always)]
    pub fn again(&self) -> Rest<'a>
        ensures { result ≡ self.now }
    {
        Rest { bytes: self.bytes }
    }

    /// What is left after the given number of bytes: no look.
    #[inline(always)]
    pub fn after(&self, count: usize) -> Rest<'a>
        requires { count ≤ length self.now }
        ensures { result ≡ drop count self.now }
    {
        Rest {
            bytes: &self.bytes[count..],
        }
    }

    /// The given number of bytes from the front: no look.
    #[inline(always)]
    pub fn front(&self, count: usize) -> Rest<'a>
        requires { count ≤ length self.now }
        ensures { result ≡ take count self.now }
    {
        Rest {
            bytes: &self.bytes[..count],
        }
    }

    /// The given number of bytes: a look at each.
    #[inline(always)]
    pub fn lend<L: Ledger>(&self, count: usize, looks: &mut Looks<L>) -> &'a [u8]
        requires { count ≤ length self.now }
        ensures front { result.now ≡ take count self.now }
        ensures looks { looks.new ≡ looks.old + count }
    {
        looks.add(count);
        &self.bytes[..count]
    }

    /// The first byte, and what is left after it: one look.
    #[inline(always)]
    pub fn first<L: Ledger>(&self, looks: &mut Looks<L>) -> Option<(u8, Rest<'a>)>
        ensures read { MatchOption result (self.now ≡ []) (λ r. self.now ≡ r.0 ∷ r.1) }
        ensures looks { looks.new ≡ looks.old + 1 }
    {
        looks.add(1);
        let [b, ..] = self.bytes else {
            return None;
        };
        let bytes = &self.bytes[1..];
        Some((*b, Rest { bytes }))
    }

    /// What is left after the first bytes that pass a test: a look at each of them, and one more.
    #[inline(always)]
    pub fn skip<L: Ledger, F: Fn(u8) -> bool>(&self, test: F, looks: &mut Looks<L>) -> Rest<'a>
        requires { F.IsAlwaysCallable test }
        ensures skipped { (passes : ℕ → Bool) →
            ((b : ℕ) (told : Bool) → b < 256 → F.post test b told → told ≡ passes b)
            → result ≡ drop (prefix_len passes self.now) self.now }
        ensures shorter { length result ≤ length self.now }
        ensures looks { looks.new + length result ≡ looks.old + length self.now + 1 }
    {
        let count = passing(self.bytes, test);
        looks.add(count);
        looks.add(1);
        self.after(count)
    }

    /// The first place of a byte: a look at each byte up to there, and at the byte.
    #[inline(always)]
    pub fn find_byte<L: Ledger>(&self, byte: u8, looks: &mut Looks<L>) -> Option<usize>
        ensures found { IsFirstByte (is_byte byte) self.now result }
        ensures some { IfSome result (λ at. (at < length self.now) × (at + 1 < 2 ^ 64)
            × (looks.new ≡ looks.old + at + 1)) }
        ensures none { result ≡ None → looks.new ≡ looks.old + length self.now }
    {
        let Some(at) = memchr(byte, self.bytes) else {
            looks.add(self.bytes.len());
            return None;
        };
        looks.add(at);
        looks.add(1);
        Some(at)
    }

    /// The first place of a byte of a kind, or the length where there is none: a look at each byte up to
    /// there, and 16 more, one for each lane.
    #[inline(always)]
    pub fn next_of<K: ByteKind, L: Ledger>(&self, looks: &mut Looks<L>) -> usize
        ensures next { result ≡ next_place K.passes self.now 0 }
        ensures within { result ≤ length self.now }
        ensures looks { looks.new ≡ looks.old + result + 16 }
    {
        let at = next_of::<K>(self.bytes, 0);
        looks.add(at);
        looks.add(16);
        at
    }

    /// Whether all of this is a word, in any case of its ASCII letters: a look for each byte of the word.
    #[inline(always)]
    pub fn is_in_any_case<L: Ledger>(&self, word: &[u8], looks: &mut Looks<L>) -> bool
        ensures same { result ≡ str_eq_ignore_ascii_case self.now word.now }
        ensures looks { looks.new ≡ looks.old + length word.now }
    {
        looks.add(word.len());
        self.bytes.eq_ignore_ascii_case(word)
    }

    /// Whether a word comes next: a look for each of its bytes.
    #[inline(always)]
    pub fn starts_with<L: Ledger>(&self, word: &[u8], looks: &mut Looks<L>) -> bool
        ensures starts { result ≡ starts_with nat_eq self.now word.now }
        ensures looks { looks.new ≡ looks.old + length word.now }
    {
        looks.add(word.len());
        self.bytes.starts_with(word)
    }

    /// The first place of a word: a look at each byte up to its end, or at all bytes.
    #[inline(always)]
    pub fn find<L: Ledger>(&self, word: &[u8], looks: &mut Looks<L>) -> Option<usize>
        ensures found { FindsNeedle self.now word.now 0 result }
        ensures some { IfSome result (λ at. (at + length word.now ≤ length self.now)
            × (at + length word.now < 2 ^ 64) × (looks.new ≡ looks.old + at + length word.now)) }
        ensures none { result ≡ None → looks.new ≡ looks.old + length self.now }
    {
        let Some(at) = memmem::find(self.bytes, word) else {
            looks.add(self.bytes.len());
            return None;
        };
        looks.add(at);
        looks.add(word.len());
        Some(at)
    }
}

/// How many bytes come before the first that fails a test.
#[inline(always)]
fn passing<F: Fn(u8) -> bool>(bytes: &[u8], test: F) -> usize
    requires { F.IsAlwaysCallable test }
    ensures count { (passes : ℕ → Bool) →
        ((b : ℕ) (told : Bool) → b < 256 → F.post test b told → told ≡ passes b)
        → result ≡ prefix_len passes bytes.now }
    ensures within { result ≤ length bytes.now }
{
    for (i, b) in bytes.iter().enumerate() {
        if !test(*b) {
            return i;
        }
    }
    bytes.len()
}
