// Bytes as the words that they make.
ghost use Rattle.std.specs.Prelude.{◌≡◌, IfOk};
ghost use Rattle.day.specs.Bytes.{whole_words};

use std::alloc::{AllocError, Global};

pub fn words(heap: Global, bytes: &[u8]) -> Result<Vec<u32>, AllocError>
    ensures { IfOk result (λ v. v.items ≡ whole_words bytes.now) }
{
    let (whole, _) = bytes.as_chunks::<4>();
    whole
        .iter()
        .map(|word| u32::from_be_bytes(*word))
        .collect(heap)
}
