// The names of an annex's numbers.
ghost use Rattle.std.specs.Prelude.{◌≡◌, refl};
ghost use Rattle.fields.specs.Fields.{names_of};
ghost use Rattle.fields.specs.Tables.{fields_of};
ghost use Rattle.annex.specs.Numbers.{annex_names};
ghost use Rattle.national.specs.Acceptance.{annex_fields};
ghost use Rattle.reader.proofs.Naming.{well_named};

use annex::NUMBERS;
use fields::{Field, Values, name_of};
use reader::Named;

// The ranges that several numbers share, in the units of the numbers.

// Of γc, in either situation.
const CONCRETE_FACTOR: Values = Values::Between(100, 200);

// Of γs, in either situation.
const STEEL_FACTOR: Values = Values::Between(100, 150);

// Of αct and of αcc.
const LONG_TERM_FACTOR: Values = Values::Between(80, 100);

// Of the least mandrel diameters.
const MULTIPLE: Values = Values::Between(1, 20);

// By field its name, and the least and the greatest number.
const ANNEX_FIELDS: &[Field] = &[
    Field {
        name: b"gc1",
        values: CONCRETE_FACTOR,
    },
    Field {
        name: b"gc2",
        values: CONCRETE_FACTOR,
    },
    Field {
        name: b"gs1",
        values: STEEL_FACTOR,
    },
    Field {
        name: b"gs2",
        values: STEEL_FACTOR,
    },
    Field {
        name: b"act",
        values: LONG_TERM_FACTOR,
    },
    Field {
        name: b"acc",
        values: LONG_TERM_FACTOR,
    },
    Field {
        name: b"k1",
        values: Values::Between(10, 30),
    },
    Field {
        name: b"k2",
        values: Values::Between(0, 20),
    },
    Field {
        name: b"km",
        values: Values::Between(2, 8),
    },
    Field {
        name: b"ks",
        values: Values::Between(50, 100),
    },
    Field {
        name: b"m6",
        values: MULTIPLE,
    },
    Field {
        name: b"m8",
        values: MULTIPLE,
    },
    Field {
        name: b"m10",
        values: MULTIPLE,
    },
    Field {
        name: b"m12",
        values: MULTIPLE,
    },
    Field {
        name: b"m14",
        values: MULTIPLE,
    },
    Field {
        name: b"m16",
        values: MULTIPLE,
    },
    Field {
        name: b"m20",
        values: MULTIPLE,
    },
    Field {
        name: b"m25",
        values: MULTIPLE,
    },
    Field {
        name: b"m28",
        values: MULTIPLE,
    },
    Field {
        name: b"m32",
        values: MULTIPLE,
    },
    Field {
        name: b"m40",
        values: MULTIPLE,
    },
];

// The fields of every annex text.
#[derive(Clone, Copy)]
pub struct AnnexFields;

impl AnnexFields {
    // The fields, in their order.
    pub fn fields(&self) -> &'static [Field]
        ensures names { names_of (fields_of result.now) ≡ annex_names }
        ensures fields { fields_of result.now ≡ annex_fields }
    {
        ANNEX_FIELDS
    }
}

impl Named for AnnexFields {
    ghost names = { λ _. annex_names };

    ghost named = { λ _. well_named annex_names refl };

    fn field_count(&self) -> usize {
        NUMBERS
    }

    fn field_name(&self, field: usize) -> &[u8] {
        name_of(self.fields(), field)
    }
}
