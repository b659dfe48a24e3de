//! What the parser has still to read and to make.

use cx_syntax::{Punct, Word};

/// What is made of the values on top: one for each production, in the order of the trees.
#[derive(Clone, Copy)]
pub enum Act {
    DoLeaf,
    DoParen,
    DoTemporary,
    DoWordCast,
    DoStaticCast,
    DoStandard,
    DoLibrary,
    DoMember,
    DoCall,
    DoStepped,
    DoUnary,
    DoBinary,
    DoChoose,
    DoAssign,
    DoNoArgs,
    DoArgs,
    DoOne,
    DoAlso,
    DoWordBase,
    DoUnsignedInt,
    DoLongLong,
    DoUnsignedLongLong,
    DoClassBase,
    DoLibraryBase,
    DoPointers,
    DoPlain,
    DoStar,
    DoType,
    DoFlag,
    DoNoFlag,
    DoBare,
    DoEquals,
    DoParens,
    DoLocal,
    DoAbsent,
    DoPresent,
    DoEmpty,
    DoEvaluate,
    DoDeclare,
    DoBlock,
    DoCompound,
    DoBranch,
    DoBranches,
    DoWhile,
    DoFor,
    DoReturn,
    DoThrow,
    DoBreak,
    DoContinue,
    DoTry,
    DoAssert,
    DoNoStmts,
    DoMoreStmts,
    DoHandler,
    DoOneHandler,
    DoMoreHandlers,
    DoAnyCatch,
    DoTypedCatch,
    DoUnnamed,
    DoNamed,
    DoParam,
    DoOneParam,
    DoMoreParams,
    DoNoParams,
    DoParams,
    DoNoSpecs,
    DoMoreSpecs,
    DoPre,
    DoPost,
    DoPostNamed,
    DoSuffix,
    DoDeclared,
    DoDefined,
    DoUnmade,
    DoMade,
    DoNoInits,
    DoInits,
    DoMemberInit,
    DoOneInit,
    DoMoreInits,
    DoAccess,
    DoField,
    DoMethod,
    DoConstructor,
    DoDestructor,
    DoNoMembers,
    DoMoreMembers,
    DoPlainConstant,
    DoNegative,
    DoWithout,
    DoWithValue,
    DoClassNamed,
    DoClassDefined,
    DoExternal,
    DoGlobal,
    DoFunction,
    DoOuterMethod,
    DoOuterConstructor,
    DoOuterDestructor,
    DoNoItems,
    DoMoreItems,
}

/// A token that has to come.
#[derive(Clone, Copy)]
pub enum Kind {
    Sign(Punct),
    Keyword(Word),
    AName,
    AClass,
    ANumber,
    /// The name `contracts`, a class name or not.
    TheContracts,
}

/// A part of the grammar. A `Tail` is what may go on, a `Rest` what follows a token that was taken.
#[derive(Clone, Copy)]
pub enum Part {
    Assign,
    AssignTail,
    Cond,
    CondTail,
    /// An operand of a level: 0 is unary, 1 to 10 are the binary ones, `||` the last.
    Operand(u8),
    /// What may go on after an operand of a level.
    LevelTail(u8),
    Primary,
    PostTail,
    StdRest,
    StdMore,
    ArgsRest,
    SeveralTail,
    TypePart,
    BasePart,
    UnsignedTail,
    /// At most so many `*`.
    StarTail(u8),
    OptWord(Word),
    OptSign(Punct),
    LocalPart,
    InitPart,
    OptExpr,
    SimplePart,
    SimpleStd,
    StmtPart,
    BlockPart,
    StmtsPart,
    ElseTail,
    HandlerPart,
    HandlersTail,
    CatchPart,
    ParamPart,
    OptName,
    ParamsRest,
    ParamsTail,
    SuffixPart,
    SpecsPart,
    PostRest,
    PostName,
    TailPart,
    MakingPart,
    InitsPart,
    MemberInitPart,
    InitsTail,
    MembersPart,
    MemberPart,
    MemberRest,
    MemberClass,
    MemberName,
    VirtualRest,
    ItemsPart,
    ItemPart,
    ClassRest,
    /// A type, or a class name with `::`; true where a global may be declared.
    Declaration(bool),
    AfterClass(bool),
    Special,
    AfterType(bool),
    AfterName(bool),
    ConstantPart,
}

/// What stands on the parser's stack.
#[derive(Clone, Copy)]
pub enum Symbol {
    Expect(Kind),
    Make(Act),
    Read(Part),
}

pub const OPEN_PAREN: Symbol = Symbol::Expect(Kind::Sign(Punct::OpenParen));

pub const CLOSE_PAREN: Symbol = Symbol::Expect(Kind::Sign(Punct::CloseParen));

pub const OPEN_BRACE: Symbol = Symbol::Expect(Kind::Sign(Punct::OpenBrace));

pub const CLOSE_BRACE: Symbol = Symbol::Expect(Kind::Sign(Punct::CloseBrace));

pub const SEMICOLON: Symbol = Symbol::Expect(Kind::Sign(Punct::Semicolon));

pub const COLON: Symbol = Symbol::Expect(Kind::Sign(Punct::Colon));

pub const SCOPE: Symbol = Symbol::Expect(Kind::Sign(Punct::Scope));

pub const LESS: Symbol = Symbol::Expect(Kind::Sign(Punct::Less));

pub const GREATER: Symbol = Symbol::Expect(Kind::Sign(Punct::Greater));

pub const NAME: Symbol = Symbol::Expect(Kind::AName);
