ghost use Rattle.std.specs.Prelude.{◌≡◌, map, IfOk};
ghost use Rattle.std.specs.List.{All};
ghost use Rattle.cx_includes.specs.Assembled.{IsWithin};
ghost use Rattle.cx_faults.specs.Faults.{token_at, tokens_of};
ghost use Rattle.cx_faults.specs.Nowhere.{nowhere};

use cx_includes::{Assembled, Placed};
use cx_lexer::text_of;
use cx_marks::Spelled;
use cx_outside::NoMemory;
use std::alloc::Global;

/// The tokens of a list by their classes and their bytes.
pub fn spelled<'a>(alloc: Global, list: &'a Assembled) -> Result<Vec<Spelled<'a>>, NoMemory>
    requires { All (IsWithin list.now.files) list.now.placed }
    ensures { IfOk result (λ tokens. map nowhere tokens.items ≡ tokens_of list.now) }
{
    let mut tokens = Vec::with_capacity(alloc, list.items().len())?;
    for placed in list.items() {
        tokens.push(spelled_token(list, placed))?;
    }
    Ok(tokens)
}

fn spelled_token<'a>(list: &'a Assembled, placed: &Placed) -> Spelled<'a>
    requires { IsWithin list.now.files placed.now }
    ensures { nowhere result ≡ token_at list.now placed.now }
{
    Spelled {
        kind: placed.token.kind,
        bytes: text_of(list.file_text(placed.file), &placed.token),
    }
}
