ghost use Rattle.cx_emit.specs.Units.{ImagesOfMainAreFaithful};
ghost use Rattle.cx_emit.specs.Laws.{ChecksAreFollowed, ExpressionsAreFollowed, OperandsAreFollowed};

/// Where code stands for an expression without calls of the program's own functions, the machine follows its meaning
/// there: it comes to the end of the code with the value on top of the operands, or both end alike by the same undefined
/// behaviour. Each unit of the budget has an instruction, and at most 16 instructions fewer than a unit pays for are left
/// over.
///
/// Source: this project's own, for [expr.mul] to [expr.cond], [expr.unary.op], [expr.cast] and [expr.prim.id] of the C++
/// draft.
pub fn expressions_are_followed()
    ensures { ExpressionsAreFollowed }
{}

/// The same for an operand, which is read [conv.lval] and converted [conv.integral].
///
/// Source: this project's own, for [conv] of the C++ draft.
pub fn operands_are_followed()
    ensures { OperandsAreFollowed }
{}

/// Where code stands for a contract assertion that a party evaluates once, or not at all, the machine follows what the
/// meaning does of it under each of the four semantics: the evaluation begins, the predicate gives its verdict, and where
/// that is false the default handler is called under `observe` and `enforce`, and the run ends under `enforce` and
/// `quick_enforce`. Under `ignore` nothing is done.
///
/// Source: P2900R14 [basic.contract.eval] and [basic.contract.handler].
pub fn checks_are_followed()
    ensures { ChecksAreFollowed }
{}

/// An image that stands for a well made program of `main` alone has only runs that the program permits: blocks, variables
/// of scalar and pointer types, references, `if`, loops with `break` and `continue`, `return` with a value, assignments,
/// `++`, `--` and other expressions whose value is discarded, and contract assertions that are evaluated once or not at
/// all, of the expressions of the other laws. The image's first function calls another one, which has the code of the
/// body.
///
/// Source: this project's own, for [stmt] and [basic.start.main] of the C++ draft and [basic.contract.eval] of P2900R14.
pub fn images_of_main_are_faithful()
    ensures { ImagesOfMainAreFaithful }
{}
