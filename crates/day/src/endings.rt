// How a day ends before its input does: no lawful sheet comes, or a word fits nothing or is cut.
ghost use Rattle.std.specs.Prelude.{Some};
ghost use Rattle.day.specs.Text.{ending_text, stop_text};

use sheet::SheetFault;
use std::error::Error;
use std::fmt;

// The fault of the sheet, or the place of the word.
#[derive(Clone, Copy, Debug, PartialEq, Eq)]
pub enum Ending {
    Refused(SheetFault),
    Stopped(u64),
}

// The line that ends a day at a word; a type of its own, since a day's text with all endings in it is told more slowly.
#[derive(Clone, Copy, Debug, PartialEq, Eq)]
pub struct Stop(pub u64);

impl fmt::Display for Stop {
    ghost output = { λ s. Some (stop_text s.0) };

    fn fmt<W: fmt::Write>(&self, f: &mut fmt::Formatter<W>) -> fmt::Result {
        let place = self.0;
        writeln!(f, "stopped at word {place}")
    }
}

impl fmt::Display for Ending {
    ghost output = { λ e. Some (ending_text e) };

    fn fmt<W: fmt::Write>(&self, f: &mut fmt::Formatter<W>) -> fmt::Result {
        match self {
            Ending::Refused(fault) => writeln!(f, "sheet: {fault}"),
            Ending::Stopped(place) => Stop(*place).fmt(f),
        }
    }
}

impl Error for Ending {}
