//! The stack of what is still to come; its last item is the top.

ghost use Rattle.std.specs.Prelude.{◌≡◌, ◌++◌, reverse, IfOk};
ghost use Rattle.cx_table.specs.declared.table.Advance.TheVariants.{Goes, Eats};

use crate::symbol::Symbol;
use crate::table::Advance;
use std::alloc::AllocError;

/// Puts a body on a stack, its first symbol on top.
pub fn put(stack: &mut Vec<Symbol>, body: &[Symbol]) -> Result<(), AllocError>
    ensures { IfOk result (λ _. reverse stack.new.items ≡ body.now ++ reverse stack.old.items) }
{
    let mut i = body.len();
    while i > 0 {
        i -= 1;
        stack.push(body[i])?;
    }
    Ok(())
}

/// A step that takes no token: the body takes the place of the part.
pub fn goes(stack: &mut Vec<Symbol>, body: &[Symbol]) -> Result<Advance, AllocError>
    ensures { IfOk result (λ r. (r ≡ Goes) × (reverse stack.new.items ≡ body.now ++ reverse stack.old.items)) }
{
    put(stack, body)?;
    Ok(Advance::Goes)
}

/// A step that takes the next token: the body takes the place of the part.
pub fn eats(stack: &mut Vec<Symbol>, body: &[Symbol]) -> Result<Advance, AllocError>
    ensures { IfOk result (λ r. (r ≡ Eats) × (reverse stack.new.items ≡ body.now ++ reverse stack.old.items)) }
{
    put(stack, body)?;
    Ok(Advance::Eats)
}
