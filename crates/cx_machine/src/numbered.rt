ghost use Rattle.std.specs.Prelude.{◌≡◌, ℤ, MatchOption, Some, slice_get};
ghost use Rattle.std.specs.Option.{option_copied};
ghost use Rattle.cx_code.specs.Act.{byte_of, on_natural, on_some, mixed};
ghost use Rattle.cx_machine.specs.Numbered.{IsNoItem, IsItem, IsNoByte, IsByte};

/// The item of this number, counted from 0, if it is one.
pub fn numbered<T>(items: &[T], number: i128) -> Option<&T>
    ensures { MatchOption result (IsNoItem items.now number) (λ item. IsItem items.now number item.now) }
{
    if number < 0 || number >= items.len() as i128 {
        return None;
    }
    items.get(number as usize)
}

/// The byte at this place, or -1 behind the end, if it is a place.
pub fn byte_at(bytes: &[u8], place: i128) -> Option<i128>
    ensures { MatchOption result (IsNoByte bytes.now place) (IsByte bytes.now place) }
{
    if place < 0 {
        return None;
    }
    if place >= bytes.len() as i128 {
        return Some(-1);
    }
    Some(i128::from(bytes[place as usize]))
}
