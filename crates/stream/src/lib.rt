// A whole day: reads what the input has, answers it, and reads on.
#![tactic(auto)]

ghost use Rattle.std.specs.Prelude.{◌≡◌, ℕ, ◌<◌, true, false, List, [], ◌++◌, IfOk, vec_len};

use day::{Ending, Opening, Session, open, opening_size};
use sheet::Sheet;
use std::alloc::Global;
use std::io;
use std::io::{Read, Write};

// Reads once, and says whether anything came. Most functions here take input or output, so the two are no one type.
fn fill<R: Read>(input: &mut R, pending: &mut Vec<u8>) -> io::Result<bool>
    ensures came { IfOk result (λ came. came ≡ true → vec_len pending.old < vec_len pending.new) }
    ensures kept { IfOk result (λ came. (more : List ℕ) × (pending.new.items ≡ pending.old.items ++ more) × (came ≡ false → more ≡ [])) }
{
    let mut buffer = [0u8; 4096];
    let count = input.read(&mut buffer)?;
    pending.extend_from_slice(&buffer[..count])?;
    Ok(count > 0)
}

// Reads until the day is open or the input ends.
fn fill_opening<R: Read>(input: &mut R, pending: &mut Vec<u8>) -> io::Result<()> {
    while pending.len() < opening_size(pending.as_slice()) {
        if !fill(input, pending)? {
            break;
        }
    }
    Ok(())
}

fn print<W: Write>(output: &mut W, text: &str) -> io::Result<()> {
    output.write_all(text.as_bytes())?;
    output.flush()
}

fn print_ending<W: Write>(heap: Global, ending: Ending, output: &mut W) -> io::Result<()> {
    print(output, ending.to_string(heap)?.as_str())
}

// Prints what the bytes are answered, and says whether the day ends there.
fn answer<W: Write>(
    sheet: &Sheet<'_>,
    session: &mut Session,
    bytes: &[u8],
    output: &mut W,
) -> io::Result<bool> {
    let turn = session.feed(sheet, bytes)?;
    print(output, turn.text.as_str())?;
    Ok(turn.stopped)
}

// Answers what each read brings.
fn run_calls<R: Read, W: Write>(
    sheet: &Sheet<'_>,
    session: &mut Session,
    input: &mut R,
    output: &mut W,
) -> io::Result<()> {
    let mut buffer = [0u8; 4096];
    // By count, since a loop has to be shown to end.
    for _ in 0..u64::MAX {
        let count = input.read(&mut buffer)?;
        if count == 0 {
            return print(output, session.end()?.as_str());
        }
        if answer(sheet, session, &buffer[..count], output)? {
            return Ok(());
        }
    }
    Ok(())
}

// Reads the sheet, and answers the calls that are there already and those that the input brings.
fn run_sheet<R: Read, W: Write>(
    heap: Global,
    opening: &Opening<'_>,
    input: &mut R,
    output: &mut W,
) -> io::Result<()> {
    let mut sheet = Sheet::empty();
    if let Err(fault) = sheet.read(opening.words.as_slice()) {
        return print_ending(heap, Ending::Refused(fault), output);
    }
    let mut session = Session::open(heap, &sheet);
    if answer(&sheet, &mut session, opening.calls, output)? {
        return Ok(());
    }
    run_calls(&sheet, &mut session, input, output)
}

// Reads a day from the input, and writes its answers as each read brings their calls.
pub fn run_day<R: Read, W: Write>(heap: Global, input: &mut R, output: &mut W) -> io::Result<()> {
    let mut pending = Vec::new(heap);
    fill_opening(input, &mut pending)?;
    match open(heap, pending.as_slice())? {
        Ok(opening) => run_sheet(heap, &opening, input, output),
        Err(ending) => print_ending(heap, ending, output),
    }
}
