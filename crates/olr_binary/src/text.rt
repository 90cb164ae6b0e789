//! References as base64 text: the standard alphabet, with padding.
ghost use Rattle.std.specs.Prelude.{IfErr, IfOk};
ghost use Rattle.std.specs.String.{string_bytes};
ghost use Rattle.olr_spec.specs.Reference.{Reference as Fields};
ghost use Rattle.olr_binary.specs.Faults.{IsFaultOf, IsOfText};
ghost use Rattle.olr_binary.specs.Text.{IsTextOf};

use crate::faults::{TextFault, V3Fault};
use crate::fields::Reference;
use crate::read::read_v3;
use crate::write::write_v3;
use base64::DecodeAllocError;
use base64::engine::general_purpose::STANDARD;
use std::alloc::{AllocError, Global};

/// The text that a reference encodes as: the base64 of its bytes in version 3. Fails if an allocation fails.
#[tactic(auto, unfolding(crate::specs::Text::text_of))]
pub fn to_text(alloc: Global, reference: &Reference) -> Result<String, AllocError>
    ensures { IfOk result (λ text. IsTextOf reference.now (string_bytes text)) }
{
    let bytes = write_v3(alloc, reference)?;
    STANDARD.encode(alloc, &bytes)
}

/// The reference that a text decodes to. If there is none, or if an allocation fails, the fault.
#[tactic(auto, unfolding(crate::specs::Text::text_of))]
pub fn from_text(alloc: Global, text: &[u8]) -> Result<Reference, TextFault>
    ensures ok { IfOk result (λ r. IsTextOf r text.now) }
    ensures fault { IfErr result (λ fault. IsFaultOf text.now fault) }
    ensures no_text { IfErr result (λ fault. IsOfText fault → (r : Fields) → ¬ IsTextOf r text.now) }
{
    let bytes = match STANDARD.decode(alloc, text) {
        Ok(bytes) => bytes,
        Err(DecodeAllocError::OutOfMemory) => return Err(TextFault::Bytes(V3Fault::Memory)),
        Err(DecodeAllocError::DecodeError(_)) => return Err(TextFault::NotBase64),
    };
    read_v3(alloc, &bytes).map_err(TextFault::Bytes)
}
