// Replays the days that the file `days` names, and names those that do not print what is expected.
#![tactic(auto)]

mod pipe;

use crate::pipe::Pipe;
use std::alloc::Global;
use std::io::Read;
use std::{fs, io};
use stream::run_day;

// Whether the day prints what is expected when each read gives at most so many bytes.
fn prints(heap: Global, day: &[u8], most: usize, expected: &[u8]) -> io::Result<bool> {
    let mut input = Pipe::new(day, most);
    let mut output = Vec::new(heap);
    run_day(heap, &mut input, &mut output)?;
    Ok(output.as_slice() == expected)
}

// Whether the day prints what is expected, however its bytes arrive.
fn agrees(rt: &HostRuntime, name: &str) -> io::Result<bool> {
    let heap = rt.alloc();
    let day = fs::read(rt, format!(in heap; "{name}.day")?.as_str())?;
    let expected = fs::read(rt, format!(in heap; "{name}.out")?.as_str())?;
    for most in [1, 7, 4096] {
        if !prints(heap, day.as_slice(), most, expected.as_slice())? {
            return Ok(false);
        }
    }
    Ok(true)
}

fn main(rt: HostRuntime) -> io::Result<()> {
    let names = fs::read_to_string(&rt, "days")?;
    // Counted in the loop, since a day that differs is named as soon as it is found.
    let mut count = 0u32;
    for name in names.lines() {
        if agrees(&rt, name)? {
            count = count.saturating_add(1);
        } else {
            println!(rt; "{name} differs")?;
        }
    }
    println!(rt; "{count} days agree")
}
