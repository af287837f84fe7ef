// How well concrete holds a bar.
ghost use Rattle.std.specs.Prelude.{◌≡◌};
ghost use Rattle.anchorage.specs.Bonds.{bond_number, bond_numbered};

// By where the bar lies as the concrete is cast.
#[derive(Clone, Copy, Debug, PartialEq, Eq)]
pub enum Bond {
    Good,
    Other,
}

// A number that stands for no bond; a type of its own, as each conversion has.
#[derive(Clone, Copy, Debug, PartialEq, Eq)]
pub struct UnknownBond {
    pub number: u32,
}

// 1 is good, 2 other.
impl TryFrom<u32> for Bond {
    type Error = UnknownBond;

    ghost try_from_gives = { λ number bond. bond ≡ bond_numbered number };

    fn try_from(number: u32) -> Result<Bond, UnknownBond> {
        match number {
            1 => Ok(Bond::Good),
            2 => Ok(Bond::Other),
            _ => Err(UnknownBond { number }),
        }
    }
}

impl From<Bond> for u32 {
    ghost from_gives = { λ bond number. number ≡ bond_number bond };

    fn from(bond: Bond) -> u32 {
        match bond {
            Bond::Good => 1,
            Bond::Other => 2,
        }
    }
}
