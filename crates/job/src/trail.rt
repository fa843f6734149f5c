// The trail: the steps done, in their order, at most two hundred.
ghost use Rattle.std.specs.Prelude.{◌≡◌, ◌<◌, ◌≤◌, [], ◌∷◌, ◌++◌, length, nat_le};

const PLACES: usize = 200;

// An array and its length: a job is copied, and ArrayVec is not Copy; a view as a list forgets the places past `len`.
#[derive(Clone, Copy)]
pub struct Trail {
    pub(crate) steps: [u8; PLACES],
    pub(crate) len: usize,
    ghost few: { len ≤ 200 },
}

impl Trail {
    ghost use Rattle.job.specs.Records.{done};

    pub(crate) fn empty() -> Trail
        ensures { done result ≡ [] }
    {
        Trail {
            steps: [0; PLACES],
            len: 0,
        }
    }

    pub(crate) fn is_full(&self) -> bool
        ensures { result ≡ nat_le 200 (length (done self.now)) }
    {
        self.len >= PLACES
    }

    pub(crate) fn push(&mut self, step: u8)
        requires { length (done self.old) < 200 }
        ensures { done self.new ≡ done self.old ++ step ∷ [] }
    {
        self.steps[self.len] = step;
        self.len += 1;
    }
}
