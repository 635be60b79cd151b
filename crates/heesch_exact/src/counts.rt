//! For each point, how many sets have it, and which point is covered next.
ghost use Rattle.std.specs.Prelude.{◌≡◌, ◌-◌, ◌<◌, ℕ, length, All, min, MatchOption};
ghost use Rattle.std.specs.Int.{bit_at};
ghost use Rattle.heesch_exact.specs.Branches.{times};

/// The points that at least one, two and three of some sets have.
#[derive(Clone, Copy)]
pub(crate) struct Counts {
    one: u64,
    two: u64,
    three: u64,
}

impl Counts {
    /// Counts the sets with these numbers.
    pub(crate) fn of(masks: &[u64], numbers: &[u32]) -> Counts
        requires { All (λ i. i < length masks.now) numbers.now }
        ensures one { (k : ℕ) → bit_at result.one k ≡ min 1 (times masks.now numbers.now k) }
        ensures two { (k : ℕ) → bit_at result.two k ≡ min 1 (times masks.now numbers.now k - 1) }
        ensures three { (k : ℕ) → bit_at result.three k ≡ min 1 (times masks.now numbers.now k - 2) }
    {
        let (mut one, mut two, mut three) = (0, 0, 0);
        for number in numbers {
            let mask = masks[*number as usize];
            three |= two & mask;
            two |= one & mask;
            one |= mask;
        }
        Counts { one, two, three }
    }

    /// Of the points that are left, the least that one set has, else the least that two have, else the first. None
    /// where no set has one of them.
    pub(crate) fn rarest(&self, left: u64) -> Option<u32>
        requires { 0 < left }
        ensures { MatchOption result
            ((k : ℕ) × (bit_at left k ≡ 1) × (bit_at self.now.one k ≡ 0))
            (λ k. (k < 64) × (bit_at left k ≡ 1)) }
    {
        if left & !self.one != 0 {
            return None;
        }
        let single = left & !self.two;
        let double = left & !self.three;
        let rare = if single != 0 {
            single
        } else if double != 0 {
            double
        } else {
            left
        };
        Some(rare.trailing_zeros())
    }
}
