// A kind of weight is a cost algebra: how weights compare, how they join, and what a step weighs.
ghost use Rattle.std.specs.Prelude.{◌≡◌};
ghost use Rattle.weights.specs.Algebra.{Algebra};
ghost use Rattle.weights.specs.Laws.{Laws};

pub trait WeightKind {
    type Weight: Copy;

    // What the functions below compute.
    ghost algebra: { Self → Algebra Self.Weight };

    // The weight of what is true already.
    fn zero(&self) -> Self::Weight
        ensures { result ≡ (algebra self.now).zero };

    // The weight of what no steps make true.
    fn none(&self) -> Self::Weight
        ensures { result ≡ (algebra self.now).none };

    // A function of its own, since to ask Ord of the weights would ask more of a kind.
    fn is_less(&self, first: Self::Weight, second: Self::Weight) -> bool
        ensures { result ≡ (algebra self.now).less first second };

    // The weight of two things that are both wanted.
    fn both(&self, first: Self::Weight, second: Self::Weight) -> Self::Weight
        ensures { result ≡ (algebra self.now).both first second };

    // The weight of one thing followed by another.
    fn then(&self, first: Self::Weight, second: Self::Weight) -> Self::Weight
        ensures { result ≡ (algebra self.now).then first second };

    // The weight of a step by numbers that a sheet can give, and not by a type of the sheet, which no kind needs.
    fn step(&self, minutes: u16, grade: u8) -> Self::Weight
        ensures { result ≡ (algebra self.now).step minutes grade };

    // Whether both gives one of its sides.
    fn takes_larger(&self) -> bool
        ensures { result ≡ (algebra self.now).takes_larger };

    // What every implementation owes, for all weights of the kind.
    ghost lawful: { (k : Self) → Laws (algebra k) };
}
