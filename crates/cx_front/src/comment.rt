ghost use Rattle.std.specs.Prelude.{◌≡◌, ◌∷◌, ◌++◌, IfOk, OnOk, drop};
ghost use Rattle.std.specs.List.{All};
ghost use Rattle.cx_includes.specs.Assembled.{IsWithin};
ghost use Rattle.cx_syntax.specs.View.{expr_of};
ghost use Rattle.cx_front.specs.Front.{comment_in, word_at, words_in};
ghost use Rattle.cx_front.specs.Made.{spelled};

use crate::token::word_at;
use cx_includes::Assembled;
use cx_outside::{NoMemory, Text};
use cx_syntax::tree::Expr;
use std::alloc::Global;

/// The tokens of a predicate with one space between two, as `comment()` of a violation gives them. This project's own.
#[tactic(auto, using(crate::proofs::Words::comment_from))]
pub fn comment_in(alloc: Global, list: &Assembled, tree: &Expr) -> Result<Text, NoMemory>
    requires { All (IsWithin list.now.files) list.now.placed }
    ensures { IfOk result (λ comment. comment ≡ comment_in list.now (expr_of tree.now)) }
{
    let mut words = Text::new(alloc);
    add_words(list, &mut words, tree)?;
    Text::copy_of(alloc, behind_first(words.bytes()))
}

/// Bytes without the first of them.
fn behind_first(bytes: &[u8]) -> &[u8]
    ensures { result.now ≡ drop 1 bytes.now }
{
    match bytes {
        [] => &[],
        [_, behind @ ..] => behind,
    }
}

/// Adds the tokens of an expression that is built, each behind a space.
#[tactic(auto, using(crate::proofs::Words::spelled_append))]
fn add_words(list: &Assembled, words: &mut Text, tree: &Expr) -> Result<(), NoMemory>
    requires { All (IsWithin list.now.files) list.now.placed }
    ensures { OnOk result (words.new ≡ spelled words.old (words_in list.now (expr_of tree.now))) }
{
    match tree {
        Expr::Leaf { at, .. } => add_word(list, words, *at),
        Expr::Paren {
            at,
            inner,
            close,
            ..
        } => {
            add_word(list, words, *at)?;
            add_words(list, words, inner)?;
            add_word(list, words, *close)
        }
        Expr::Unary { at, operand, .. } => {
            add_word(list, words, *at)?;
            add_words(list, words, operand)
        }
        Expr::Binary {
            left,
            operator,
            right,
            ..
        } => {
            add_words(list, words, left)?;
            add_word(list, words, *operator)?;
            add_words(list, words, right)
        }
        Expr::Temporary { .. } => Ok(()),
        Expr::WordCast { .. } => Ok(()),
        Expr::StaticCast { .. } => Ok(()),
        Expr::Standard { .. } => Ok(()),
        Expr::Library { .. } => Ok(()),
        Expr::Member { .. } => Ok(()),
        Expr::Call { .. } => Ok(()),
        Expr::Stepped { .. } => Ok(()),
        Expr::Choose { .. } => Ok(()),
        Expr::Assign { .. } => Ok(()),
    }
}

/// Adds a space and the token at a place.
fn add_word(list: &Assembled, words: &mut Text, at: u32) -> Result<(), NoMemory>
    requires { All (IsWithin list.now.files) list.now.placed }
    ensures { OnOk result (words.new ≡ words.old ++ 32 ∷ word_at list.now at) }
{
    words.push(b' ')?;
    words.append(word_at(list, at))
}
