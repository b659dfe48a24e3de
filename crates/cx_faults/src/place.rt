ghost use Rattle.std.specs.Prelude.{◌≡◌, ◌+◌, ◌<◌, ◌^◌, length, slice_get};
ghost use Rattle.std.specs.List.{All};
ghost use Rattle.cx_includes.specs.Assembled.{IsWithin};
ghost use Rattle.cx_faults.specs.Faults.{end_of, place_of, text_of_file};

use crate::fault::FaultPlace;
use cx_includes::Assembled;

/// The place of a token by its index, or the end of the unit's own file where there is no such token.
pub fn place_at(list: &Assembled, at: usize) -> FaultPlace
    requires some { 0 < length list.now.files }
    requires short { length (text_of_file list.now 0) + 2 < 2 ^ 32 }
    requires within { All (IsWithin list.now.files) list.now.placed }
    ensures place { result ≡ place_of list.now (slice_get list.now.placed at) }
    ensures file { result.file < length list.now.files }
{
    match list.items().get(at) {
        Some(placed) => FaultPlace {
            file: placed.file,
            line: placed.line,
            column: placed.column,
        },
        None => end_of(list),
    }
}

/// The place behind the last byte of the unit's own file.
fn end_of(list: &Assembled) -> FaultPlace
    requires some { 0 < length list.now.files }
    requires short { length (text_of_file list.now 0) + 2 < 2 ^ 32 }
    ensures { result ≡ end_of list.now }
{
    let spot = list.end_spot(0);
    FaultPlace {
        file: 0,
        line: spot.line,
        column: spot.column,
    }
}
