// Fields with names.
ghost use Rattle.std.specs.Prelude.{◌≡◌, List, [], length, slice_index_or};
ghost use Rattle.text.specs.Texts.{Bytes};
ghost use Rattle.reader.specs.Names.{WellNamed};

// What has fields with names, in a fixed order. Fields count from 0 here; a refusal counts them from 1. How many there are is
// the value's to say, and not its type's.
pub trait Named {
    ghost names: { Self → List Bytes };

    fn field_count(&self) -> usize
        ensures { result ≡ length (names self.now) };

    // The name of a field; empty where there is no such field.
    fn field_name(&self, field: usize) -> &[u8]
        ensures { result.now ≡ slice_index_or (names self.now) field [] };

    ghost named: { (x : Self) → WellNamed (names x) };
}
