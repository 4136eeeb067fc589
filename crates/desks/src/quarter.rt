// Which of the four shelves a lock is of.
ghost use Rattle.std.specs.Prelude.{◌≡◌, ◌<◌};
ghost use Rattle.catalog.specs.Fours.{rank, which_of};

/// Which of the four shelves a lock is of: each has a type for it, so that a lock which is taken is
/// known to be that shelf's. No value of these types is made.
pub trait Quarter {
    ghost use Rattle.catalog.specs.Fours.{Which};

    /// The shelf.
    ghost which: { Which };

    /// Its place, from 0 to 3.
    fn place() -> u8
        ensures rank { result ≡ rank which }
        ensures which { which_of result ≡ which }
        ensures small { result < 4 };
}

/// The shelf of the numbers 0, 4, 8 and so on.
pub struct FirstShelf;

/// The shelf of the numbers 1, 5, 9 and so on.
pub struct SecondShelf;

/// The shelf of the numbers 2, 6, 10 and so on.
pub struct ThirdShelf;

/// The shelf of the numbers 3, 7, 11 and so on.
pub struct FourthShelf;

impl Quarter for FirstShelf {
    ghost use Rattle.catalog.specs.Fours.{First};

    ghost which = { First };

    fn place() -> u8 {
        0
    }
}

impl Quarter for SecondShelf {
    ghost use Rattle.catalog.specs.Fours.{Second};

    ghost which = { Second };

    fn place() -> u8 {
        1
    }
}

impl Quarter for ThirdShelf {
    ghost use Rattle.catalog.specs.Fours.{Third};

    ghost which = { Third };

    fn place() -> u8 {
        2
    }
}

impl Quarter for FourthShelf {
    ghost use Rattle.catalog.specs.Fours.{Fourth};

    ghost which = { Fourth };

    fn place() -> u8 {
        3
    }
}
