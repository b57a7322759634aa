//! Files, and memory sized by them.
ghost use Rattle.std.specs.Prelude.{◌≡◌, ◌+◌, ◌*◌, ◌/◌, min, length, IfOk, vec_len};

use anyhow::anyhow;
use formula::span::Span;
use std::alloc::{AllocError, Global};
use std::fs;

/// The bytes of a file, or words that say why there are none.
pub(crate) fn read(rt: &HostRuntime, path: &str) -> anyhow::Result<Vec<u8>> {
    // no `map_err`: printing can fail too
    match fs::read(rt, path) {
        Ok(bytes) => Ok(bytes),
        Err(error) => {
            eprintln!(rt; "lanykuv: cannot read {path}: {error}")?;
            Err(anyhow!(error))
        }
    }
}

/// A table for every literal that the bytes can hold: each takes two bytes, and there are 64 to a clause.
pub(crate) fn literal_table(heap: Global, bytes: &[u8]) -> Result<Vec<i32>, AllocError>
    ensures { IfOk result (λ v. vec_len v ≡ min (length bytes.now / 2) (64 * 65536)) }
{
    let most = (bytes.len() / 2).min(64 * 65536);
    vec![in heap; 0i32; most]
}

/// A table for every clause that the bytes can hold: each takes two bytes.
pub(crate) fn span_table(heap: Global, bytes: &[u8]) -> Result<Vec<Span>, AllocError>
    ensures { IfOk result (λ v. vec_len v ≡ min (length bytes.now / 2 + 1) 65536) }
{
    let most = (bytes.len() / 2 + 1).min(65536);
    vec![in heap; Span::default(); most]
}
