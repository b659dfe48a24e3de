//! What stands on the parser's second stack.

use cx_syntax::tree::{
    Args, Base, Block, Catching, Constant, Expr, GlobalInit, Handler, Handlers, Init, InitRow,
    Inits, Item, Local, Making, Member, MemberInit, OptionalName, Param, ParamRow, Params, Several,
    Spec, Star, Stmt, Suffix, Tail, TypeTree, UnitTree,
};
use cx_syntax::{Mark, Punct, Word};

/// A mark with its place in the list.
#[derive(Clone, Copy)]
pub struct PlacedMark {
    pub mark: Mark,
    pub at: u32,
}

/// A name with its place in the list.
#[derive(Clone, Copy)]
pub struct PlacedName {
    pub name: u32,
    pub at: u32,
}

/// A word of the language with its place in the list.
#[derive(Clone, Copy)]
pub struct PlacedWord {
    pub word: Word,
    pub at: u32,
}

/// An operator or a punctuator with its place in the list.
#[derive(Clone, Copy)]
pub struct PlacedPunct {
    pub punct: Punct,
    pub at: u32,
}

/// A type as far as its last `*`.
#[derive(Drop)]
pub struct Pointers {
    pub constant: Option<u32>,
    pub base: Base,
    pub stars: Vec<Star>,
}

/// A token that was taken, or the tree of a part of the grammar that was read.
#[derive(Drop)]
pub enum Value {
    Mark(PlacedMark),
    Expression(Expr),
    Arguments(Args),
    List(Several),
    Base(Base),
    /// The place of a word or sign that may be absent.
    Flag(Option<u32>),
    Pointers(Pointers),
    Type(TypeTree),
    Init(Init),
    Local(Local),
    /// An expression that may be absent.
    Maybe(Option<Expr>),
    Block(Block),
    Statement(Stmt),
    Statements(Vec<Stmt>),
    Handler(Handler),
    Handlers(Handlers),
    Catching(Catching),
    Name(OptionalName),
    Param(Param),
    ParamRow(ParamRow),
    Params(Params),
    Spec(Spec),
    Specs(Vec<Spec>),
    Suffix(Suffix),
    Tail(Tail),
    Making(Making),
    MemberInit(MemberInit),
    InitRow(InitRow),
    Inits(Inits),
    Constant(Constant),
    GlobalInit(GlobalInit),
    Member(Member),
    Members(Vec<Member>),
    Item(Item),
    Unit(UnitTree),
}
