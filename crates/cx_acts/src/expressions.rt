//! Expressions, after [expr].

ghost use Rattle.std.specs.Prelude.{◌≡◌, OnOk, Some};
ghost use Rattle.cx_table.specs.declared.symbol.Act.TheVariants.{DoLeaf, DoParen, DoTemporary, DoWordCast, DoStaticCast, DoStandard, DoLibrary, DoMember, DoCall, DoStepped, DoUnary, DoBinary, DoChoose, DoAssign};
ghost use Rattle.cx_values.specs.Needs.{needs};
ghost use Rattle.cx_values.specs.Sorts.{Tops};
ghost use Rattle.cx_values.specs.Values.{reduce};
ghost use Rattle.cx_values.specs.View.{values_of};

use cx_syntax::tree::Expr;
use cx_values::Value;
use cx_values::pop::{
    pop_arguments, pop_class, pop_expression, pop_mark, pop_name, pop_punct, pop_type, pop_word,
    push,
};
use std::alloc::{AllocError, Global};

/// Makes a literal or a name of the values on top. It fails for want of memory alone; this project's own.
pub fn make_leaf(stack: &mut Vec<Value>) -> Result<(), AllocError>
    requires { Tops (needs DoLeaf) (values_of stack.old.items) }
    ensures { OnOk result (reduce DoLeaf (values_of stack.old.items) ≡ Some (values_of stack.new.items)) }
{
    let token = pop_mark(stack);
    push(
        stack,
        Value::Expression(Expr::Leaf {
            at: token.at,
            mark: token.mark,
        }),
    )?;
    Ok(())
}

/// Makes an expression in parentheses of the values on top. It fails for want of memory alone; this project's own.
pub fn make_paren(alloc: Global, stack: &mut Vec<Value>) -> Result<(), AllocError>
    requires { Tops (needs DoParen) (values_of stack.old.items) }
    ensures { OnOk result (reduce DoParen (values_of stack.old.items) ≡ Some (values_of stack.new.items)) }
{
    let close = pop_mark(stack).at;
    let inner = Box::new(alloc, pop_expression(stack))?;
    let at = pop_mark(stack).at;
    push(stack, Value::Expression(Expr::Paren { at, inner, close }))?;
    Ok(())
}

/// Makes a class name and arguments of the values on top. It fails for want of memory alone; this project's own.
pub fn make_temporary(stack: &mut Vec<Value>) -> Result<(), AllocError>
    requires { Tops (needs DoTemporary) (values_of stack.old.items) }
    ensures { OnOk result (reduce DoTemporary (values_of stack.old.items) ≡ Some (values_of stack.new.items)) }
{
    let arguments = pop_arguments(stack);
    let name = pop_class(stack);
    push(
        stack,
        Value::Expression(Expr::Temporary {
            at: name.at,
            name: name.name,
            arguments,
        }),
    )?;
    Ok(())
}

/// Makes a word of a type and its operand of the values on top. It fails for want of memory alone; this project's own.
pub fn make_word_cast(alloc: Global, stack: &mut Vec<Value>) -> Result<(), AllocError>
    requires { Tops (needs DoWordCast) (values_of stack.old.items) }
    ensures { OnOk result (reduce DoWordCast (values_of stack.old.items) ≡ Some (values_of stack.new.items)) }
{
    let close = pop_mark(stack).at;
    let operand = Box::new(alloc, pop_expression(stack))?;
    let open_at = pop_mark(stack).at;
    let word = pop_word(stack);
    push(
        stack,
        Value::Expression(Expr::WordCast {
            at: word.at,
            word: word.word,
            open_at,
            operand,
            close,
        }),
    )?;
    Ok(())
}

/// Makes a `static_cast` of the values on top. It fails for want of memory alone; this project's own.
pub fn make_static_cast(alloc: Global, stack: &mut Vec<Value>) -> Result<(), AllocError>
    requires { Tops (needs DoStaticCast) (values_of stack.old.items) }
    ensures { OnOk result (reduce DoStaticCast (values_of stack.old.items) ≡ Some (values_of stack.new.items)) }
{
    let close = pop_mark(stack).at;
    let operand = Box::new(alloc, pop_expression(stack))?;
    let open_at = pop_mark(stack).at;
    let greater = pop_mark(stack).at;
    let to = Box::new(alloc, pop_type(stack))?;
    let less = pop_mark(stack).at;
    let at = pop_mark(stack).at;
    push(
        stack,
        Value::Expression(Expr::StaticCast {
            at,
            less,
            to,
            greater,
            open_at,
            operand,
            close,
        }),
    )?;
    Ok(())
}

/// Makes a name of `std` of the values on top. It fails for want of memory alone; this project's own.
pub fn make_standard(stack: &mut Vec<Value>) -> Result<(), AllocError>
    requires { Tops (needs DoStandard) (values_of stack.old.items) }
    ensures { OnOk result (reduce DoStandard (values_of stack.old.items) ≡ Some (values_of stack.new.items)) }
{
    let name = pop_name(stack);
    let scope = pop_mark(stack).at;
    let at = pop_mark(stack).at;
    push(
        stack,
        Value::Expression(Expr::Standard {
            at,
            scope,
            name: name.name,
            name_at: name.at,
        }),
    )?;
    Ok(())
}

/// Makes a name of a type of `std :: contracts` of the values on top. It fails for want of memory alone; this project's own.
pub fn make_library(stack: &mut Vec<Value>) -> Result<(), AllocError>
    requires { Tops (needs DoLibrary) (values_of stack.old.items) }
    ensures { OnOk result (reduce DoLibrary (values_of stack.old.items) ≡ Some (values_of stack.new.items)) }
{
    let name = pop_name(stack);
    let third = pop_mark(stack).at;
    let of = pop_name(stack);
    let second = pop_mark(stack).at;
    let contracts = pop_mark(stack);
    let scope = pop_mark(stack).at;
    let at = pop_mark(stack).at;
    push(
        stack,
        Value::Expression(Expr::Library {
            at,
            scope,
            mark: contracts.mark,
            contracts: contracts.at,
            second,
            type_name: of.name,
            type_at: of.at,
            third,
            name: name.name,
            name_at: name.at,
        }),
    )?;
    Ok(())
}

/// Makes a member of an object of the values on top. It fails for want of memory alone; this project's own.
pub fn make_member(alloc: Global, stack: &mut Vec<Value>) -> Result<(), AllocError>
    requires { Tops (needs DoMember) (values_of stack.old.items) }
    ensures { OnOk result (reduce DoMember (values_of stack.old.items) ≡ Some (values_of stack.new.items)) }
{
    let name = pop_name(stack);
    let operator = pop_punct(stack);
    let object = pop_expression(stack);
    let at = object.at();
    let object = Box::new(alloc, object)?;
    push(
        stack,
        Value::Expression(Expr::Member {
            at,
            object,
            punct: operator.punct,
            operator: operator.at,
            name: name.name,
            name_at: name.at,
        }),
    )?;
    Ok(())
}

/// Makes a call of the values on top. It fails for want of memory alone; this project's own.
pub fn make_call(alloc: Global, stack: &mut Vec<Value>) -> Result<(), AllocError>
    requires { Tops (needs DoCall) (values_of stack.old.items) }
    ensures { OnOk result (reduce DoCall (values_of stack.old.items) ≡ Some (values_of stack.new.items)) }
{
    let arguments = pop_arguments(stack);
    let callee = pop_expression(stack);
    let at = callee.at();
    let callee = Box::new(alloc, callee)?;
    push(
        stack,
        Value::Expression(Expr::Call {
            at,
            callee,
            arguments,
        }),
    )?;
    Ok(())
}

/// Makes an operand and a `++` or `--` of the values on top. It fails for want of memory alone; this project's own.
pub fn make_stepped(alloc: Global, stack: &mut Vec<Value>) -> Result<(), AllocError>
    requires { Tops (needs DoStepped) (values_of stack.old.items) }
    ensures { OnOk result (reduce DoStepped (values_of stack.old.items) ≡ Some (values_of stack.new.items)) }
{
    let operator = pop_punct(stack);
    let operand = pop_expression(stack);
    let at = operand.at();
    let operand = Box::new(alloc, operand)?;
    push(
        stack,
        Value::Expression(Expr::Stepped {
            at,
            operand,
            punct: operator.punct,
            operator: operator.at,
        }),
    )?;
    Ok(())
}

/// Makes an operator and its operand of the values on top. It fails for want of memory alone; this project's own.
pub fn make_unary(alloc: Global, stack: &mut Vec<Value>) -> Result<(), AllocError>
    requires { Tops (needs DoUnary) (values_of stack.old.items) }
    ensures { OnOk result (reduce DoUnary (values_of stack.old.items) ≡ Some (values_of stack.new.items)) }
{
    let operand = Box::new(alloc, pop_expression(stack))?;
    let operator = pop_punct(stack);
    push(
        stack,
        Value::Expression(Expr::Unary {
            at: operator.at,
            punct: operator.punct,
            operand,
        }),
    )?;
    Ok(())
}

/// Makes two operands and the operator between them of the values on top. It fails for want of memory alone; this project's own.
pub fn make_binary(alloc: Global, stack: &mut Vec<Value>) -> Result<(), AllocError>
    requires { Tops (needs DoBinary) (values_of stack.old.items) }
    ensures { OnOk result (reduce DoBinary (values_of stack.old.items) ≡ Some (values_of stack.new.items)) }
{
    let right = Box::new(alloc, pop_expression(stack))?;
    let operator = pop_punct(stack);
    let left = pop_expression(stack);
    let at = left.at();
    let left = Box::new(alloc, left)?;
    push(
        stack,
        Value::Expression(Expr::Binary {
            at,
            left,
            punct: operator.punct,
            operator: operator.at,
            right,
        }),
    )?;
    Ok(())
}

/// Makes a condition and what it chooses from of the values on top. It fails for want of memory alone; this project's own.
pub fn make_choose(alloc: Global, stack: &mut Vec<Value>) -> Result<(), AllocError>
    requires { Tops (needs DoChoose) (values_of stack.old.items) }
    ensures { OnOk result (reduce DoChoose (values_of stack.old.items) ≡ Some (values_of stack.new.items)) }
{
    let other = Box::new(alloc, pop_expression(stack))?;
    let colon = pop_mark(stack).at;
    let chosen = Box::new(alloc, pop_expression(stack))?;
    let question = pop_mark(stack).at;
    let condition = pop_expression(stack);
    let at = condition.at();
    let condition = Box::new(alloc, condition)?;
    push(
        stack,
        Value::Expression(Expr::Choose {
            at,
            condition,
            question,
            chosen,
            colon,
            other,
        }),
    )?;
    Ok(())
}

/// Makes an assignment of the values on top. It fails for want of memory alone; this project's own.
pub fn make_assign(alloc: Global, stack: &mut Vec<Value>) -> Result<(), AllocError>
    requires { Tops (needs DoAssign) (values_of stack.old.items) }
    ensures { OnOk result (reduce DoAssign (values_of stack.old.items) ≡ Some (values_of stack.new.items)) }
{
    let right = Box::new(alloc, pop_expression(stack))?;
    let operator = pop_punct(stack);
    let left = pop_expression(stack);
    let at = left.at();
    let left = Box::new(alloc, left)?;
    push(
        stack,
        Value::Expression(Expr::Assign {
            at,
            left,
            punct: operator.punct,
            operator: operator.at,
            right,
        }),
    )?;
    Ok(())
}
