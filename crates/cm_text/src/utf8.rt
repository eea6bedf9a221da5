//! Bytes that are read as text, as far as they are UTF-8.
ghost use Rattle.std.specs.Prelude.{◌≡◌, ◌+◌, ◌*◌, ◌≤◌, ◌++◌, length, OnOk, OnErr, IfOk, is_some, string_len};
ghost use Rattle.std.specs.Str.Lossy.{utf8_valid_len, utf8_error_len};
ghost use Rattle.cm_text.specs.Cut.{cut_of, IsFront};
ghost use Rattle.cm_text.specs.Faults.{left_of};
ghost use Rattle.cm_text.specs.Feed.{cut_valid};

use crate::device::NoMemory;
use crate::unread::Unread;
use simdutf8::compat::from_utf8;

impl Unread {
    /// Appends the longest well-formed prefix. Returns its length, and whether no character can start with
    /// the bytes after it, however they continue.
    pub(crate) fn take_utf8(&mut self, bytes: &[u8]) -> Result<(usize, bool), NoMemory>
        ensures most { string_len self.new.text ≤ string_len self.old.text + 3 * length bytes.now }
        ensures grown { IfOk result (λ r. string_len self.new.text ≤ string_len self.old.text + 3 * r.0) }
        ensures len { IfOk result (λ r. r.0 ≡ utf8_valid_len bytes.now) }
        ensures within { IfOk result (λ r. r.0 ≤ length bytes.now) }
        ensures broken { IfOk result (λ r. r.1 ≡ is_some (utf8_error_len (left_of bytes.now))) }
        ensures ok { OnOk result (cut_of self.new ≡ cut_valid (cut_of self.old) bytes.now) }
        ensures err { OnErr result (IsFront (cut_of self.new).ended
            (cut_valid (cut_of self.old) bytes.now).ended) }
    {
        match from_utf8(bytes) {
            Ok(text) => {
                self.take(text)?;
                Ok((bytes.len(), false))
            }
            Err(e) => {
                let valid = e.valid_up_to();
                let Ok(text) = from_utf8(&bytes[..valid]) else {
                    unreachable!()
                };
                self.take(text)?;
                Ok((valid, e.error_len().is_some()))
            }
        }
    }

    /// The same of the pending bytes and those of a piece. What is left of them is pending then.
    pub(crate) fn take_more(
        &mut self,
        pending: &mut Vec<u8>,
        piece: &[u8],
    ) -> Result<(usize, bool), NoMemory>
        ensures most { string_len self.new.text
            ≤ string_len self.old.text + 3 * (length pending.old.items + length piece.now) }
        ensures grown { IfOk result (λ r. string_len self.new.text ≤ string_len self.old.text + 3 * r.0) }
        ensures len { IfOk result (λ r. r.0 ≡ utf8_valid_len (pending.old.items ++ piece.now)) }
        ensures count { IfOk result (λ r.
            r.0 + length pending.new.items ≡ length pending.old.items + length piece.now) }
        ensures broken { IfOk result (λ r.
            r.1 ≡ is_some (utf8_error_len (left_of (pending.old.items ++ piece.now)))) }
        ensures left { OnOk result (pending.new.items ≡ left_of (pending.old.items ++ piece.now)) }
        ensures ok { OnOk result (cut_of self.new
            ≡ cut_valid (cut_of self.old) (pending.old.items ++ piece.now)) }
        ensures err { OnErr result (IsFront (cut_of self.new).ended
            (cut_valid (cut_of self.old) (pending.old.items ++ piece.now)).ended) }
        ensures bound { OnErr result
            (length pending.new.items ≤ length pending.old.items + length piece.now) }
    {
        if pending.is_empty() {
            let (valid, broken) = self.take_utf8(piece)?;
            pending.extend_from_slice(&piece[valid..])?;
            return Ok((valid, broken));
        }
        pending.extend_from_slice(piece)?;
        let (valid, broken) = self.take_utf8(pending)?;
        let rest = Vec::from_slice(self.alloc, &pending[valid..])?;
        *pending = rest;
        Ok((valid, broken))
    }
}
