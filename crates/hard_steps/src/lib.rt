// A kind of weight from outside: how many steps of grade five or more are needed.
#![tactic(auto)]

ghost use Rattle.hard_steps.specs.HardSteps.{hard_steps};
ghost use Rattle.std.proofs.Common.{rules};

use weights::WeightKind;

// The most steps that are told; more count as so many.
const MOST: u8 = 254;

// Like the library's minutes, but from outside: a kind needs nothing of the library but the trait.
#[derive(Clone, Copy, Debug, PartialEq, Eq, PartialOrd, Ord)]
pub struct Count {
    number: u8,
}

impl Count {
    // A number above the most keeps the order of numbers; as a case of an enum, anyone could make 255 a number.
    const NONE: Count = Count { number: 255 };
}

#[derive(Clone, Copy, Debug, PartialEq, Eq)]
pub struct HardSteps;

impl WeightKind for HardSteps {
    type Weight = Count;

    ghost algebra = { λ _. hard_steps };

    ghost lawful = { Prim.search rules };

    fn zero(&self) -> Count {
        Count { number: 0 }
    }

    fn none(&self) -> Count {
        Count::NONE
    }

    fn is_less(&self, first: Count, second: Count) -> bool {
        first < second
    }

    fn both(&self, first: Count, second: Count) -> Count {
        first.max(second)
    }

    fn then(&self, first: Count, second: Count) -> Count {
        if first == Count::NONE || second == Count::NONE {
            return Count::NONE;
        }
        Count {
            number: first.number.saturating_add(second.number).min(MOST),
        }
    }

    fn step(&self, _minutes: u16, grade: u8) -> Count {
        Count {
            number: u8::from(grade >= 5),
        }
    }

    fn takes_larger(&self) -> bool {
        true
    }
}

#[cfg(test)]
mod tests {
    use super::*;
    use job::{CheckFault, Job};
    use sheet::Sheet;
    use std::test::Fail;

    // Three facts; steps of grades 5, 4 and 9 set one each, the last one where the others are true; the goal is the last.
    static WORDS: [u32; 15] = [
        0xC000_0003,
        0xA005_0001,
        0x1000_0000,
        0x6000_0000,
        0xA004_0002,
        0x1000_0000,
        0x6000_0001,
        0xA009_0003,
        0x4000_0002,
        0x2000_0000,
        0x2000_0001,
        0x6000_0002,
        0xB000_0000,
        0x2000_0002,
        0xE000_0000,
    ];

    #[test]
    fn a_route_weighs_its_hard_steps(rt: HostRuntime) -> Result<(), Fail> {
        let mut sheet = Sheet::empty();
        assert!(rt; sheet.read(&WORDS).is_ok());
        let job = Job::open(&sheet);
        match job.check(&sheet, &HardSteps, 0, &[0, 1, 0, 2]) {
            Ok(weight) => {
                assert_eq!(rt; weight.number, 3);
                Ok(())
            },
            Err(_) => Err(Fail::new("the route is refused")),
        }
    }

    #[test]
    fn a_route_is_refused_where_a_step_is(rt: HostRuntime) -> Result<(), Fail> {
        let mut sheet = Sheet::empty();
        assert!(rt; sheet.read(&WORDS).is_ok());
        let job = Job::open(&sheet);
        match job.check(&sheet, &HardSteps, 0, &[1, 2]) {
            Ok(_) => Err(Fail::new("the route is accepted")),
            Err(CheckFault::Route { fault, position }) => {
                assert_eq!(rt; u8::from(fault), 11);
                assert_eq!(rt; position, 1);
                Ok(())
            }
            Err(CheckFault::NoSuchGoal) => Err(Fail::new("the goal is not found")),
        }
    }
}
