// The numbers of an annex.
ghost use Rattle.std.specs.Prelude.{◌≡◌};
ghost use Rattle.annex.specs.Numbers.{fields_of, numbers_of, in_situation};

use eurocode::Situation;

// How many numbers an annex has.
pub const NUMBERS: usize = 21;

// How many of them are multiples, one for each tabled diameter: the last ones.
pub const MULTIPLES: usize = 11;

// A partial factor in each design situation, in hundredths.
#[derive(Clone, Copy)]
pub struct Factor {
    pub persistent: u32,
    pub accidental: u32,
}

impl Factor {
    pub fn in_situation(self, situation: Situation) -> u32
        ensures { result ≡ in_situation self situation }
    {
        match situation {
            Situation::Persistent => self.persistent,
            Situation::Accidental => self.accidental,
        }
    }
}

// γc and γs are factors of concrete and of steel; αct, αcc, km and ks are in hundredths, k1 in tenths, k2 in mm. The
// multiples stand beside the tabled diameters, in fixed memory: a map would need the heap.
#[derive(Clone, Copy)]
pub struct Numbers {
    pub gc: Factor,
    pub gs: Factor,
    pub act: u32,
    pub acc: u32,
    pub k1: u32,
    pub k2: u32,
    pub km: u32,
    pub ks: u32,
    pub multiples: [u32; MULTIPLES],
}

// The recommended numbers.
pub const RECOMMENDED: Numbers = Numbers {
    gc: Factor {
        persistent: 150,
        accidental: 120,
    },
    gs: Factor {
        persistent: 115,
        accidental: 100,
    },
    act: 100,
    acc: 100,
    k1: 10,
    k2: 5,
    km: 4,
    ks: 75,
    multiples: [4, 4, 4, 4, 4, 4, 7, 7, 7, 7, 7],
};

// The numbers from their list by field.
impl From<[u32; NUMBERS]> for Numbers {
    ghost from_gives = { λ fields numbers. numbers ≡ numbers_of fields };

    fn from(fields: [u32; NUMBERS]) -> Numbers {
        let mut multiples = [0; MULTIPLES];
        multiples.copy_from_slice(&fields[NUMBERS - MULTIPLES..]);
        Numbers {
            gc: Factor {
                persistent: fields[0],
                accidental: fields[1],
            },
            gs: Factor {
                persistent: fields[2],
                accidental: fields[3],
            },
            act: fields[4],
            acc: fields[5],
            k1: fields[6],
            k2: fields[7],
            km: fields[8],
            ks: fields[9],
            multiples,
        }
    }
}

// The list of the numbers by field.
impl From<Numbers> for [u32; NUMBERS] {
    ghost from_gives = { λ numbers fields. fields ≡ fields_of numbers };

    fn from(numbers: Numbers) -> [u32; NUMBERS] {
        let Numbers {
            gc,
            gs,
            act,
            acc,
            k1,
            k2,
            km,
            ks,
            multiples,
        } = numbers;
        let [m6, m8, m10, m12, m14, m16, m20, m25, m28, m32, m40] = multiples;
        [
            gc.persistent,
            gc.accidental,
            gs.persistent,
            gs.accidental,
            act,
            acc,
            k1,
            k2,
            km,
            ks,
            m6,
            m8,
            m10,
            m12,
            m14,
            m16,
            m20,
            m25,
            m28,
            m32,
            m40,
        ]
    }
}
