// Four of a kind, each for a quarter of all numbers.
ghost use Rattle.std.specs.Prelude.{◌≡◌};
ghost use Rattle.std.specs.Borrow.{sem};
ghost use Rattle.catalog.specs.Fours.{which_of, pick, LendsOne};

/// Four of a kind: the first for the numbers 0, 4, 8 and so on, the second for 1, 5, 9, and so on.
#[derive(Drop)]
pub struct Four<T> {
    pub first: T,
    pub second: T,
    pub third: T,
    pub fourth: T,
}

impl<T> Four<T> {
    /// The one for the number.
    pub fn of(&self, number: u8) -> &T
        ensures { result.now ≡ pick self.now (which_of number) }
    {
        if number % 4 == 0 {
            return &self.first;
        }
        if number % 4 == 1 {
            return &self.second;
        }
        if number % 4 == 2 {
            return &self.third;
        }
        &self.fourth
    }

    /// The one for the number, to be changed; the other three stay.
    pub fn of_mut(&mut self, number: u8) -> &mut T
        ensures* writes_back { sem 𝓛 (LendsOne T.row self.entry number result) }
        ensures value { result.now ≡ pick self.old (which_of number) }
    {
        if number % 4 == 0 {
            return &mut self.first;
        }
        if number % 4 == 1 {
            return &mut self.second;
        }
        if number % 4 == 2 {
            return &mut self.third;
        }
        &mut self.fourth
    }
}
