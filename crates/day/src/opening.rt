// How a day opens: the number of sheet words, then the sheet's words.
ghost use Rattle.std.specs.Prelude.{◌≡◌, IfOk};
ghost use Rattle.day.specs.Opening.{sheet_count, opening_size, Opened};

use crate::bytes::words;
use crate::endings::Ending;
use sheet::{Cause, Part, SheetFault};
use std::alloc::{AllocError, Global};

// The sheet's words, and the bytes behind them that are there.
#[derive(Drop)]
pub struct Opening<'a> {
    pub words: Vec<u32>,
    pub calls: &'a [u8],
}

fn sheet_count(bytes: &[u8]) -> u32
    ensures { result ≡ sheet_count bytes.now }
{
    bytes
        .first_chunk::<4>()
        .map_or(0, |word| u32::from_be_bytes(*word))
}

// How many bytes open the day, as far as these tell.
pub fn opening_size(bytes: &[u8]) -> usize
    ensures { result ≡ opening_size bytes.now }
{
    let count = sheet_count(bytes);
    if count <= 4096 {
        4 + 4 * count as usize
    } else {
        4
    }
}

// Opens the day, unless it ends before its sheet is there.
pub fn open<'a>(heap: Global, bytes: &'a [u8]) -> Result<Result<Opening<'a>, Ending>, AllocError>
    ensures { IfOk result (Opened bytes.now) }
{
    let size = opening_size(bytes);
    if bytes.len() < size {
        return Ok(Err(Ending::Stopped(bytes.len() as u64 / 4)));
    }
    if sheet_count(bytes) > 4096 {
        let fault = SheetFault {
            cause: Cause::TooManyWords,
            place: 4096,
            part: Part::Head,
        };
        return Ok(Err(Ending::Refused(fault)));
    }
    let words = words(heap, &bytes[4..size])?;
    let calls = &bytes[size..];
    Ok(Ok(Opening { words, calls }))
}
