// A set of numbers below 64, as the bits of one number.
ghost use Rattle.std.specs.Prelude.{◌≡◌, ℕ, ◌^◌, ◌<◌, ◌≤◌, true, false, not, ◌&&◌, ◌||◌, Decides};
ghost use Rattle.bits.specs.Bits.{bit, put};

// Every number is a set. No impl Model: a Copy struct around a type with one is not copied where it is used again.
#[derive(Clone, Copy, Debug, PartialEq, Eq)]
pub struct Set {
    pub bits: u64,
    ghost few: { bits < 2 ^ 64 },
}

impl Set {
    pub fn none() -> Set
        ensures { (k : ℕ) → bit result.bits k ≡ false }
    {
        Set { bits: 0 }
    }

    pub fn has(self, place: u32) -> bool
        ensures { result ≡ bit self.bits place }
    {
        place < 64 && (self.bits >> place) & 1 == 1
    }

    // The set with a number put in or taken out; numbers from 64 on are never in it.
    pub fn put(self, place: u32, member: bool) -> Set
        ensures within { place < 64 → bit result.bits ≡ put (bit self.bits) place member }
        ensures beyond { 64 ≤ place → result ≡ self }
    {
        if place >= 64 {
            return self;
        }
        let single = Set { bits: 1 << place };
        if member {
            self.union(single)
        } else {
            self.difference(single)
        }
    }

    pub fn union(self, other: Set) -> Set
        ensures { (k : ℕ) → bit result.bits k ≡ (bit self.bits k || bit other.bits k) }
    {
        Set {
            bits: self.bits | other.bits,
        }
    }

    pub fn difference(self, other: Set) -> Set
        ensures { (k : ℕ) → bit result.bits k ≡ (bit self.bits k && not (bit other.bits k)) }
    {
        Set {
            bits: self.bits & !other.bits,
        }
    }

    // Whether some number is in both.
    pub fn meets(self, other: Set) -> bool
        ensures { Decides result ((k : ℕ) × (bit self.bits k ≡ true) × (bit other.bits k ≡ true)) }
    {
        self.bits & other.bits != 0
    }
}
