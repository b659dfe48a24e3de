ghost use Rattle.std.specs.Prelude.{◌≡◌, ℕ, ◌+◌, ◌<◌, ◌-◌, ◌^◌, false, List, Some, if◌then◌else◌, length, slice_get, bytes_eq, codes, IfOk, OnOk};
ghost use Rattle.cx_marks.specs.Marks.{is_after_key, is_class_key, mark_at, marks, name_mark};
ghost use Rattle.cx_marks.specs.Seen.{fixed, known_name, mark_by, noted, Knows};

use crate::spelled::Spelled;
use crate::words::{punct_of, word_of};
use cx_syntax::{Mark, NoMemory, TokenKind, mark};
use std::alloc::Global;
use std::collections::BTreeMap;

/// What is known of a name: its number, and whether it is a class name from here on.
#[derive(Clone, Copy, Debug)]
pub struct Known {
    number: u32,
    is_class: bool,
}

/// What is known of each name so far.
pub type Names<'a> = BTreeMap<&'a [u8], Known>;

/// The marks of a list of tokens.
///
/// Arguments: the allocator, and the tokens, of which there are fewer than 2^32 - 3.
///
/// Result: a mark for each token, in their order. A name is a class name from its first place directly after `class`
/// or `struct` on; its number is 3 more than the index of the first token with these bytes. `NoMemory` comes for want of
/// memory alone.
///
/// Source: [class.name], narrowed to the names of the language; the numbers are this project's own.
pub fn marks_of<'a>(alloc: Global, tokens: &[Spelled<'a>]) -> Result<Vec<Mark>, NoMemory>
    requires { length tokens.now < 2 ^ 32 - 3 }
    ensures { IfOk result (λ told. told.items ≡ marks tokens.now) }
{
    let mut names = fixed_names(alloc)?;
    let mut told = Vec::with_capacity(alloc, tokens.len())?;
    let mut after_key = false;
    for at in 0..tokens.len() {
        let mark = token_mark(&mut names, tokens, at, after_key)?;
        told.push(mark)?;
        after_key = is_class_key(&tokens[at]);
    }
    Ok(told)
}

// The mark of the token at a place.
fn token_mark<'a>(
    names: &mut Names<'a>,
    tokens: &[Spelled<'a>],
    at: usize,
    after_key: bool,
) -> Result<Mark, NoMemory>
    requires few { length tokens.now < 2 ^ 32 - 3 }
    requires within { at < length tokens.now }
    requires knows { Knows names.old tokens.now at }
    requires key { after_key ≡ is_after_key tokens.now at }
    ensures told { IfOk result (λ told. (t : Spelled) → slice_get tokens.now at ≡ Some t → told ≡ mark_at tokens.now at t.kind t.bytes.now) }
    ensures knows { OnOk result (Knows names.new tokens.now (at + 1)) }
{
    let token = tokens[at];
    match token.kind {
        TokenKind::Name => told_name(names, tokens, at, after_key),
        TokenKind::Word => Ok(Mark::Word(word_of(token.bytes))),
        TokenKind::Number => Ok(Mark::Number),
        TokenKind::Char => Ok(Mark::Char),
        TokenKind::Text => Ok(Mark::Text),
        TokenKind::Punct => Ok(Mark::Punct(punct_of(token.bytes))),
    }
}

// The mark of the name at a place.
fn told_name<'a>(
    names: &mut Names<'a>,
    tokens: &[Spelled<'a>],
    at: usize,
    after_key: bool,
) -> Result<Mark, NoMemory>
    requires few { length tokens.now < 2 ^ 32 - 3 }
    requires within { at < length tokens.now }
    requires name { (t : Spelled) → slice_get tokens.now at ≡ Some t → t.kind ≡ TokenKind.Name }
    requires knows { Knows names.old tokens.now at }
    requires key { after_key ≡ is_after_key tokens.now at }
    ensures told { IfOk result (λ told. (t : Spelled) → slice_get tokens.now at ≡ Some t → told ≡ name_mark tokens.now at t.bytes.now) }
    ensures knows { OnOk result (Knows names.new tokens.now (at + 1)) }
{
    let name = tokens[at].bytes;
    if name == b"std".as_slice() {
        return Ok(Mark::Std);
    }
    let known = note(names, name, at as u32, after_key)?;
    Ok(mark_by(known))
}

// The mark of a name by what is known of it.
fn mark_by(known: Known) -> Mark
    ensures { result ≡ mark_by known }
{
    if known.is_class {
        Mark::Class(known.number)
    } else {
        Mark::Name(known.number)
    }
}

// Takes note of a name: it gets a number where it has none, and is a class name from here on where it stands after
// `class` or `struct`.
#[tactic(auto, using(std::proofs::lemmas::Map::Text::btree_map_updates_str))]
fn note<'a>(
    names: &mut Names<'a>,
    name: &'a [u8],
    at: u32,
    after_key: bool,
) -> Result<Known, NoMemory>
    requires { at < 2 ^ 32 - 3 }
    ensures told { IfOk result (λ told. told ≡ noted (known_name names.old name.now) at after_key) }
    ensures names { OnOk result ((q : List ℕ) → known_name names.new q ≡ (if bytes_eq name.now q then Some (noted (known_name names.old name.now) at after_key) else known_name names.old q)) }
{
    let known = noted(names.get(&name).copied(), at, after_key);
    names.insert(name, known)?;
    Ok(known)
}

// What is known of a name with this place, which stands directly after `class` or `struct` or not.
#[tactic(auto, unfolding(crate::specs::Seen::noted))]
fn noted(known: Option<Known>, at: u32, after_key: bool) -> Known
    requires { at < 2 ^ 32 - 3 }
    ensures { result ≡ noted known at after_key }
{
    match known {
        Some(known) => Known {
            number: known.number,
            is_class: after_key || known.is_class,
        },
        None => Known {
            number: at + 3,
            is_class: after_key,
        },
    }
}

// The names that have a number wherever they stand.
#[tactic(auto, using(std::proofs::lemmas::Map::Text::btree_map_updates_str), unfolding(crate::specs::Seen::fixed))]
fn fixed_names<'a>(alloc: Global) -> Result<Names<'a>, NoMemory>
    ensures { IfOk result (λ names. (q : List ℕ) → known_name names q ≡ fixed q) }
{
    let mut names = Names::new(alloc);
    names.insert(b"contracts".as_slice(), fixed_name(mark::CONTRACTS))?;
    names.insert(b"pre".as_slice(), fixed_name(mark::PRE))?;
    names.insert(b"post".as_slice(), fixed_name(mark::POST))?;
    Ok(names)
}

// A name with this number, which isn't a class name yet.
fn fixed_name(number: u32) -> Known
    ensures { result ≡ record { number = number; is_class = false } }
{
    Known {
        number,
        is_class: false,
    }
}

// The token is `class` or `struct`.
fn is_class_key(token: &Spelled) -> bool
    ensures { result ≡ is_class_key token.now }
{
    match token.kind {
        TokenKind::Word => token.bytes == b"class".as_slice()
            || token.bytes == b"struct".as_slice(),
        _ => false,
    }
}
