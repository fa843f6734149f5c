// One turn of a day: the whole calls among the bytes that are there, run as one list.
ghost use Rattle.std.specs.Prelude.{string_bytes, MatchResult};
ghost use Rattle.day.specs.Turning.{Turned, Unfinished};
ghost use Rattle.job.specs.Records.{ledger};
ghost use Rattle.sheet.specs.Reading.{tree};

use crate::bytes::words;
use crate::decoding::decode;
use crate::endings::Stop;
use crate::text::lines;
use job::Job;
use sheet::Sheet;
use std::alloc::{AllocError, Global};

// What to print, how many words were calls, and whether the day ends here; the text counts either way.
#[derive(Drop)]
pub struct Turn {
    pub text: String,
    pub used: usize,
    pub stopped: bool,
}

// The bytes begin with the word of this place. No method of Session, whose contract speaks of all bytes so far.
pub(crate) fn take_turn(
    heap: Global,
    sheet: &Sheet<'_>,
    job: &mut Job,
    place: u64,
    bytes: &[u8],
) -> Result<Turn, AllocError>
    ensures { MatchResult result
        (λ t. Turned (tree sheet.now) (ledger job.old) bytes.now place (string_bytes t.text) t.used t.stopped (ledger job.new))
        (λ _. Unfinished (tree sheet.now) (ledger job.old) bytes.now (ledger job.new)) }
{
    let here = words(heap, bytes)?;
    let batch = decode(heap, here.as_slice())?;
    let answers = job.run(sheet, heap, batch.calls.as_slice())?;
    let mut text = lines(heap, batch.calls.as_slice(), answers.as_slice())?;
    let used = batch.calls.len();
    let stopped = batch.stopped;
    if stopped {
        let stop = Stop(place.saturating_add(used as u64));
        write!(text, "{stop}")?;
    }
    Ok(Turn {
        text,
        used,
        stopped,
    })
}
