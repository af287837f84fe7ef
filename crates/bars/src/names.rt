// The fields of a bar line: their names and values, which of them admit their numbers, and lines as lists of numbers.
ghost use Rattle.std.specs.Prelude.{◌≡◌, refl};
ghost use Rattle.bars.specs.Tests.{in_range};
ghost use Rattle.reader.proofs.Naming.{well_named};
ghost use Rattle.fields.specs.Fields.{names_of};
ghost use Rattle.fields.specs.Tables.{fields_of};
ghost use Rattle.bars.specs.Lines.{bar_fields, numbers_of};
ghost use Rattle.bars.specs.Listing.{lists};

use crate::books::BarBook;
use crate::lines::BarLine;
use annex::Annex;
use book::{Book, WrittenBook};
use eurocode::{DIAMETERS, STRENGTHS};
use fields::{Field, Values, name_of};
use reader::{Named, number_at};

// How many fields a line has.
const FIELDS: usize = 23;

// The fields of a bar line. Lengths are in mm, areas in tenths of mm², stresses in tenths of MPa, strengths in MPa.

// Anchorage in tension, in compression, lap in tension, in compression.
const KIND: Field = Field {
    name: b"kind",
    values: Values::Between(1, 4),
};

const DIA: Field = Field {
    name: b"dia",
    values: Values::OneOf(&DIAMETERS),
};

const FCK: Field = Field {
    name: b"fck",
    values: Values::OneOf(&STRENGTHS),
};

const FYK: Field = Field {
    name: b"fyk",
    values: Values::Between(400, 600),
};

const STRESS: Field = Field {
    name: b"stress",
    values: Values::UpTo(6000),
};

// Good, other.
const BOND: Field = Field {
    name: b"bond",
    values: Values::Between(1, 2),
};

// Straight, bend or hook, loop.
const SHAPE: Field = Field {
    name: b"shape",
    values: Values::Between(1, 3),
};

const GAP: Field = Field {
    name: b"gap",
    values: Values::UpTo(1000),
};

const SIDE: Field = Field {
    name: b"side",
    values: Values::UpTo(1000),
};

const COVER: Field = Field {
    name: b"cover",
    values: Values::UpTo(1000),
};

const TRANS: Field = Field {
    name: b"trans",
    values: Values::UpTo(500_000),
};

// K, in hundredths.
const EFF: Field = Field {
    name: b"eff",
    values: Values::OneOf(&[0, 5, 10]),
};

// Beam, slab.
const MEMBER: Field = Field {
    name: b"member",
    values: Values::Between(1, 2),
};

// None, or a tabled diameter: no constant joins 0 and a table.
const WELD: Field = Field {
    name: b"weld",
    values: Values::OneOf(&[0, 6, 8, 10, 12, 14, 16, 20, 25, 28, 32, 40]),
};

const PRESS: Field = Field {
    name: b"press",
    values: Values::UpTo(200),
};

const SHARE: Field = Field {
    name: b"share",
    values: Values::UpTo(100),
};

// One, several.
const LAYERS: Field = Field {
    name: b"layers",
    values: Values::Between(1, 2),
};

const APART: Field = Field {
    name: b"apart",
    values: Values::UpTo(1000),
};

// 1 links or U bars, 0 other.
const FORM: Field = Field {
    name: b"form",
    values: Values::UpTo(1),
};

const AGG: Field = Field {
    name: b"agg",
    values: Values::Between(4, 63),
};

const MANDREL: Field = Field {
    name: b"mandrel",
    values: Values::UpTo(2000),
};

const PITCH: Field = Field {
    name: b"pitch",
    values: Values::UpTo(2000),
};

const LENGTH: Field = Field {
    name: b"length",
    values: Values::UpTo(20_000),
};

// All of them, in their order.
const BAR_FIELDS: &[Field] = &[
    KIND, DIA, FCK, FYK, STRESS, BOND, SHAPE, GAP, SIDE, COVER, TRANS, EFF, MEMBER, WELD, PRESS,
    SHARE, LAYERS, APART, FORM, AGG, MANDREL, PITCH, LENGTH,
];

impl<A: Annex> BarBook<A> {
    // The fields of a bar line, in their order.
    #[tactic(auto, unfolding(eurocode::specs::Tables::diameters, eurocode::specs::Tables::strengths))]
    pub fn fields(&self) -> &'static [Field]
        ensures names { names_of (fields_of result.now) ≡ names_of bar_fields }
        ensures fields { fields_of result.now ≡ bar_fields }
    {
        BAR_FIELDS
    }

    // Whether each field admits its number, in their order. One by one: a walk along the table takes three times as long, for
    // it looks up at each field which kind of values it has.
    pub(crate) fn admitted(&self, line: &BarLine) -> [bool; FIELDS]
        ensures { result ≡ in_range line.now }
    {
        [
            KIND.values.admit(line.kind),
            DIA.values.admit(line.dia),
            FCK.values.admit(line.fck),
            FYK.values.admit(line.fyk),
            STRESS.values.admit(line.stress),
            BOND.values.admit(line.bond),
            SHAPE.values.admit(line.shape),
            GAP.values.admit(line.gap),
            SIDE.values.admit(line.side),
            COVER.values.admit(line.cover),
            TRANS.values.admit(line.trans),
            EFF.values.admit(line.eff),
            MEMBER.values.admit(line.member),
            WELD.values.admit(line.weld),
            PRESS.values.admit(line.press),
            SHARE.values.admit(line.share),
            LAYERS.values.admit(line.layers),
            APART.values.admit(line.apart),
            FORM.values.admit(line.form),
            AGG.values.admit(line.agg),
            MANDREL.values.admit(line.mandrel),
            PITCH.values.admit(line.pitch),
            LENGTH.values.admit(line.provided),
        ]
    }

    // The numbers of a line, in the order of the fields.
    pub fn numbers(&self, line: &BarLine) -> [u32; FIELDS]
        ensures { result ≡ numbers_of line.now }
    {
        [
            line.kind,
            line.dia,
            line.fck,
            line.fyk,
            line.stress,
            line.bond,
            line.shape,
            line.gap,
            line.side,
            line.cover,
            line.trans,
            line.eff,
            line.member,
            line.weld,
            line.press,
            line.share,
            line.layers,
            line.apart,
            line.form,
            line.agg,
            line.mandrel,
            line.pitch,
            line.provided,
        ]
    }

    // The line of these numbers.
    pub fn line_of(&self, fields: &[u32; FIELDS]) -> BarLine
        ensures { numbers_of result ≡ fields.now }
    {
        BarLine {
            kind: fields[0],
            dia: fields[1],
            fck: fields[2],
            fyk: fields[3],
            stress: fields[4],
            bond: fields[5],
            shape: fields[6],
            gap: fields[7],
            side: fields[8],
            cover: fields[9],
            trans: fields[10],
            eff: fields[11],
            member: fields[12],
            weld: fields[13],
            press: fields[14],
            share: fields[15],
            layers: fields[16],
            apart: fields[17],
            form: fields[18],
            agg: fields[19],
            mandrel: fields[20],
            pitch: fields[21],
            provided: fields[22],
        }
    }
}

impl<A: Annex> Named for BarBook<A> {
    ghost names = { λ _. names_of bar_fields };

    ghost named = { λ _. well_named (names_of bar_fields) refl };

    fn field_count(&self) -> usize {
        FIELDS
    }

    fn field_name(&self, field: usize) -> &[u8] {
        name_of(self.fields(), field)
    }
}

impl<A: Annex> WrittenBook for BarBook<A> {
    ghost numbers = { λ _ l. numbers_of l };

    ghost listed = { λ _. lists };

    fn number(&self, line: &BarLine, field: usize) -> u32 {
        number_at(&self.numbers(line), field)
    }

    fn line(&self, fields: &[u32]) -> Option<BarLine> {
        let fields = <&[u32; FIELDS]>::try_from(fields).ok()?;
        Some(self.line_of(fields))
    }
}
