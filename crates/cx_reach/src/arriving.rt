ghost use Rattle.std.specs.Prelude.{◌≡◌, ◌+◌, ◌^◌, ◌<◌, true, false, pos, ◌+ℤ◌, ◌-ℤ◌};
ghost use Rattle.cx_reach.specs.Joins.{IsJoin, JoinsDepths, moved, IsSmall, target_arrival};

use cx_code::Region;

/// With how many operands a place is reached. (This project's own.)
#[derive(Clone, Copy, Debug, PartialEq, Eq)]
pub enum Depths {
    /// The place isn't reached.
    None,
    /// It is reached with so many; fewer than none where an instruction took what wasn't there.
    One(i128),
    /// It is reached with two different numbers of operands.
    Several,
}

/// How a place is reached. (This project's own.)
#[derive(Clone, Copy, Debug, PartialEq, Eq)]
pub struct Arrival {
    /// With how many operands.
    pub depths: Depths,
    /// From the start of the function, or from the target of a region that isn't a Cleanup.
    pub plain: bool,
    /// From the target of a Cleanup.
    pub cleanup: bool,
}

impl Depths {
    /// What both say.
    fn joined(self, other: Depths) -> Depths
        ensures { JoinsDepths self other result }
    {
        match self {
            Depths::None => other,
            Depths::One(depth) => other.with(depth),
            Depths::Several => Depths::Several,
        }
    }

    /// What these and this one say.
    fn with(self, depth: i128) -> Depths
        ensures { JoinsDepths (Depths.One depth) self result }
    {
        match self {
            Depths::None => Depths::One(depth),
            Depths::One(other) => {
                if depth == other {
                    Depths::One(depth)
                } else {
                    Depths::Several
                }
            }
            Depths::Several => Depths::Several,
        }
    }

    /// Those behind an instruction that takes so many operands and gives so many.
    fn moved(self, taken: u32, given: u32) -> Depths
        requires { IsSmall (2 ^ 100) self }
        ensures { result ≡ moved self taken given }
    {
        match self {
            Depths::One(depth) => Depths::One(depth - i128::from(taken) + i128::from(given)),
            depths => depths,
        }
    }
}

impl Arrival {
    /// Of a place that isn't reached.
    pub fn none() -> Self
        ensures { result ≡ record { depths = Depths.None; plain = false; cleanup = false } }
    {
        Arrival {
            depths: Depths::None,
            plain: false,
            cleanup: false,
        }
    }

    /// That of a function's start.
    pub fn start() -> Self
        ensures { result ≡ record { depths = Depths.One (pos 0); plain = true; cleanup = false } }
    {
        Arrival {
            depths: Depths::One(0),
            plain: true,
            cleanup: false,
        }
    }

    /// That of a region's target.
    pub fn target_of(region: &Region) -> Self
        ensures is { result ≡ target_arrival region.now }
        ensures small { IsSmall (2 ^ 32) result.depths }
    {
        let cleanup = region.kind == 1;
        Arrival {
            depths: Depths::One(i128::from(region.depth)),
            plain: !cleanup,
            cleanup,
        }
    }

    /// What both say.
    pub fn joined(self, other: Arrival) -> Arrival
        ensures { IsJoin self other result }
    {
        Arrival {
            depths: self.depths.joined(other.depths),
            plain: self.plain || other.plain,
            cleanup: self.cleanup || other.cleanup,
        }
    }

    /// That of the next place, behind an instruction that takes so many operands and gives so many.
    pub fn behind(self, taken: u32, given: u32) -> Arrival
        requires { IsSmall (2 ^ 100) self.depths }
        ensures { result ≡ record self { depths = moved self.depths taken given } }
    {
        Arrival {
            depths: self.depths.moved(taken, given),
            ..self
        }
    }
}
