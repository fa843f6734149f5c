// Which steps are struck until they are allowed again; a type beside State, so that no fact is taken for a step.
ghost use Rattle.std.specs.Prelude.{◌≡◌, ℕ, ◌<◌, false};
ghost use Rattle.bits.specs.Bits.{put};
ghost use Rattle.job.specs.Records.{struck_in};

use bits::Set;

#[derive(Clone, Copy)]
pub struct Strikes {
    pub(crate) bits: Set,
}

impl Strikes {
    pub(crate) fn none() -> Strikes
        ensures { (k : ℕ) → struck_in result k ≡ false }
    {
        Strikes { bits: Set::none() }
    }

    pub(crate) fn contains(self, step: u32) -> bool
        ensures { result ≡ struck_in self step }
    {
        self.bits.has(step)
    }

    pub(crate) fn marked(self, step: u32, struck: bool) -> Strikes
        requires { step < 64 }
        ensures { struck_in result ≡ put (struck_in self) step struck }
    {
        Strikes {
            bits: self.bits.put(step, struck),
        }
    }
}
