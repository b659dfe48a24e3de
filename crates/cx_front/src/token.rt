ghost use Rattle.std.specs.Prelude.{◌≡◌};
ghost use Rattle.std.specs.List.{All};
ghost use Rattle.cx_includes.specs.Assembled.{bytes_of_placed, IsWithin};
ghost use Rattle.cx_front.specs.Front.{has_short_tokens, word_at};

use cx_includes::{Assembled, Placed};
use cx_lexer::text_of;

/// The most bytes of a token in a unit that is built.
const LONGEST_TOKEN: usize = 1024;

/// The bytes of the token at a place, or none where there is no token.
pub fn word_at(list: &Assembled, at: u32) -> &[u8]
    requires { All (IsWithin list.now.files) list.now.placed }
    ensures { result.now ≡ word_at list.now at }
{
    match list.items().get(at as usize) {
        Some(placed) => bytes_of(list, placed),
        None => &[],
    }
}

/// The bytes of a token.
fn bytes_of<'a>(list: &'a Assembled, placed: &Placed) -> &'a [u8]
    requires { IsWithin list.now.files placed.now }
    ensures { result.now ≡ bytes_of_placed list.now placed.now }
{
    text_of(list.file_text(placed.file), &placed.token)
}

/// Whether no token has more bytes than one of a unit that is built may have. This project's own.
pub fn has_short_tokens(list: &Assembled) -> bool
    requires { All (IsWithin list.now.files) list.now.placed }
    ensures { result ≡ has_short_tokens list.now }
{
    for placed in list.items() {
        if bytes_of(list, placed).len() > LONGEST_TOKEN {
            return false;
        }
    }
    true
}
