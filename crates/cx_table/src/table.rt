//! One step of a part of the grammar: what takes its place on the stack, by the token that comes next.

ghost use Rattle.std.specs.Prelude.{◌≡◌, ◌++◌, reverse, IfOk};
ghost use Rattle.cx_table.specs.Steps.{Expands};

use crate::stack::goes;
use crate::symbol::Act::*;
use crate::symbol::Kind::*;
use crate::symbol::Part::*;
use crate::symbol::Symbol::*;
use crate::symbol::{CLOSE_BRACE, CLOSE_PAREN, NAME, OPEN_BRACE, OPEN_PAREN, Part, Symbol};
use crate::{expression, function, item, member, statement, types};
use cx_syntax::{Mark, Punct, Word};
use std::alloc::AllocError;

/// What a step does: it takes no token, or one, or it can't be made.
#[derive(Clone, Copy)]
pub enum Advance {
    Goes,
    Eats,
    Stays,
}

/// A step of a part that doesn't look at the next token, or of one of the others.
pub fn expand(
    stack: &mut Vec<Symbol>,
    part: Part,
    look: Option<Mark>,
) -> Result<Advance, AllocError>
    ensures { IfOk result (λ r. Expands r part look (reverse stack.old.items) (reverse stack.new.items)) }
{
    match part {
        Assign => goes(stack, &[Read(Operand(10)), Read(AssignTail)]),
        Cond => goes(stack, &[Read(Operand(10)), Read(CondTail)]),
        TypePart => goes(
            stack,
            &[
                Read(OptWord(Word::Const)),
                Read(BasePart),
                Make(DoPointers),
                Read(StarTail(8)),
                Read(OptSign(Punct::And)),
                Make(DoType),
            ],
        ),
        LocalPart => goes(
            stack,
            &[Read(TypePart), NAME, Read(InitPart), Make(DoLocal)],
        ),
        BlockPart => goes(
            stack,
            &[
                OPEN_BRACE,
                Make(DoNoStmts),
                Read(StmtsPart),
                CLOSE_BRACE,
                Make(DoBlock),
            ],
        ),
        HandlerPart => goes(
            stack,
            &[
                Expect(Keyword(Word::Catch)),
                OPEN_PAREN,
                Read(CatchPart),
                CLOSE_PAREN,
                Read(BlockPart),
                Make(DoHandler),
            ],
        ),
        ParamPart => goes(stack, &[Read(TypePart), Read(OptName), Make(DoParam)]),
        SuffixPart => goes(
            stack,
            &[
                Read(OptWord(Word::Noexcept)),
                Make(DoNoSpecs),
                Read(SpecsPart),
                Make(DoSuffix),
            ],
        ),
        MemberInitPart => goes(
            stack,
            &[NAME, OPEN_PAREN, Read(ArgsRest), Make(DoMemberInit)],
        ),
        ItemsPart => match look {
            None => goes(stack, &[]),
            Some(_) => goes(stack, &[Read(ItemPart), Make(DoMoreItems), Read(ItemsPart)]),
        },
        AssignTail => expression::assign_tail(stack, look),
        CondTail => expression::cond_tail(stack, look),
        Operand(level) => expression::operand(stack, level, look),
        LevelTail(level) => expression::level_tail(stack, level, look),
        Primary => expression::primary(stack, look),
        PostTail => expression::post_tail(stack, look),
        StdRest => expression::std_rest(stack, look),
        StdMore => expression::std_more(stack, look),
        ArgsRest => expression::args_rest(stack, look),
        SeveralTail => expression::several_tail(stack, look),
        OptExpr => expression::opt_expr(stack, look),
        BasePart => types::base_part(stack, look),
        UnsignedTail => types::unsigned_tail(stack, look),
        StarTail(left) => types::star_tail(stack, left, look),
        OptWord(keyword) => types::opt_word(stack, keyword, look),
        OptSign(sign) => types::opt_sign(stack, sign, look),
        InitPart => statement::init_part(stack, look),
        SimplePart => statement::simple_part(stack, look),
        SimpleStd => statement::simple_std(stack, look),
        StmtPart => statement::stmt_part(stack, look),
        StmtsPart => statement::stmts_part(stack, look),
        ElseTail => statement::else_tail(stack, look),
        HandlersTail => statement::handlers_tail(stack, look),
        CatchPart => statement::catch_part(stack, look),
        OptName => function::opt_name(stack, look),
        ParamsRest => function::params_rest(stack, look),
        ParamsTail => function::params_tail(stack, look),
        SpecsPart => function::specs_part(stack, look),
        PostRest => function::post_rest(stack, look),
        PostName => function::post_name(stack, look),
        TailPart => function::tail_part(stack, look),
        MakingPart => function::making_part(stack, look),
        InitsPart => function::inits_part(stack, look),
        InitsTail => function::inits_tail(stack, look),
        MembersPart => member::members_part(stack, look),
        MemberPart => member::member_part(stack, look),
        MemberRest => member::member_rest(stack, look),
        MemberClass => member::member_class(stack, look),
        MemberName => member::member_name(stack, look),
        VirtualRest => member::virtual_rest(stack, look),
        ItemPart => item::item_part(stack, look),
        ClassRest => item::class_rest(stack, look),
        Declaration(global) => item::declaration(stack, global, look),
        AfterClass(global) => item::after_class(stack, global, look),
        Special => item::special(stack, look),
        AfterType(global) => item::after_type(stack, global, look),
        AfterName(global) => item::after_name(stack, global, look),
        ConstantPart => item::constant_part(stack, look),
    }
}
