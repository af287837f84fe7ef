// Numbers by their fields.
ghost use Rattle.std.specs.Prelude.{◌≡◌, slice_index};

// The number at a place, from 0; a missing one counts as 0, so that nothing is asked of the caller.
pub fn number_at(fields: &[u32], place: usize) -> u32
    ensures { result ≡ slice_index fields.now place }
{
    fields.get(place).copied().unwrap_or(0)
}
