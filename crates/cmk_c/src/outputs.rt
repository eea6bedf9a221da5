//! The outputs of the calls, each followed by a NUL: HTML, a listing, JSON, or plain source.
ghost use Rattle.std.specs.Prelude.{◌≡◌, ◌≤◌, ◌^◌, List, ℕ, string_bytes};
ghost use Rattle.std.specs.Prelude.{IfErr, IfOk, IfSome, OnOk};
ghost use Rattle.cm_tool.specs.declared.fault.Fault.TheVariants.{NoMemory};
ghost use Rattle.cm_tool.specs.Faults.{fault_of};
ghost use Rattle.cm_tool.specs.Writing.{IsTreeInJson, converted, in_json, listed};
ghost use Rattle.cm_tool.specs.Rewriting.{rewritten};
ghost use Rattle.cmk_c.specs.Calls.{Gives, ended, rewriting_fault};
ghost use Rattle.cmk_c.specs.steps.Places.{HasPlace};

use cm_text::Limits;
use cm_tool::Fault;
use std::alloc::Global;

/// The bytes of a text followed by a NUL, if there was memory for it.
fn with_nul(text: Option<String>) -> Result<Vec<u8>, Fault>
    ensures value { (output : List ℕ) → IfSome text (λ text. string_bytes text ≡ output)
        → IfOk result (λ made. made.items ≡ ended output) }
    ensures memory { IfErr result (λ fault. fault ≡ NoMemory) }
{
    let Some(text) = text else {
        return Err(Fault::NoMemory);
    };
    let mut bytes = text.into_bytes();
    match bytes.push(0) {
        Ok(()) => Ok(bytes),
        Err(_) => Err(Fault::NoMemory),
    }
}

/// The HTML of the text, followed by a NUL.
pub(crate) fn html_of(alloc: Global, text: &[u8], limits: Limits) -> Result<Vec<u8>, Fault>
    requires { limits.bytes ≤ 2 ^ 30 }
    ensures value { Gives (fault_of limits text.now) (converted limits.rules text.now) result }
    ensures place { IfErr result HasPlace }
{
    match cm_tool::html_of(alloc, text, limits) {
        Ok(pages) => with_nul(pages.into_string().ok()),
        Err(fault) => Err(fault),
    }
}

/// The listing of the text's tree and of the owners of its lines, followed by a NUL.
pub(crate) fn tree_of(alloc: Global, text: &[u8], limits: Limits) -> Result<Vec<u8>, Fault>
    requires { limits.bytes ≤ 2 ^ 30 }
    ensures value { Gives (fault_of limits text.now) (listed limits.rules text.now) result }
    ensures place { IfErr result HasPlace }
{
    match cm_tool::listing_of(alloc, text, limits) {
        Ok(pages) => with_nul(pages.into_string().ok()),
        Err(fault) => Err(fault),
    }
}

/// The JSON of the text's tree, followed by a NUL.
pub(crate) fn json_of(alloc: Global, text: &[u8], limits: Limits) -> Result<Vec<u8>, Fault>
    requires { limits.bytes ≤ 2 ^ 30 }
    ensures value { Gives (fault_of limits text.now) (in_json limits.rules text.now) result }
    ensures is_json { OnOk result (IsTreeInJson limits.rules text.now) }
    ensures place { IfErr result HasPlace }
{
    match cm_tool::json_of(alloc, text, limits) {
        Ok(json) => with_nul(json.into_string().ok()),
        Err(fault) => Err(fault),
    }
}

/// Plain source of the text's tree without its definitions, followed by a NUL.
pub(crate) fn source_of(alloc: Global, text: &[u8], limits: Limits) -> Result<Vec<u8>, Fault>
    requires { limits.bytes ≤ 2 ^ 30 }
    ensures value { Gives (rewriting_fault limits text.now) (rewritten limits.rules text.now) result }
    ensures place { IfErr result HasPlace }
{
    match cm_tool::source_of(alloc, text, limits) {
        Ok(source) => with_nul(Some(source)),
        Err(fault) => Err(fault),
    }
}
