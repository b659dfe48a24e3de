use crate::programs::{By, Worked};
use crate::rows::{PLAIN, Row};
use cx_code::Semantic;

/// A program without input, the units of budget that its run spends, and the run under each larger budget. Under the
/// budget of these units, and each smaller one, it goes on.
#[derive(Clone, Copy)]
pub struct Spent {
    pub of: Worked,
    pub units: u64,
    /// A line for each event, and one for the answer.
    pub told: &'static str,
}

/// Runs with all their units; the call of `main` is the first of each.
pub const SPENT: &[Spent] = &[
    // the evaluation, two literals, the operator, the literal that is returned
    Spent {
        of: Worked::Holding,
        units: 6,
        told: "begin main#assert1 definer enforce\n\
               verdict holds\n\
               returned 7\n",
    },
    // the evaluation, its literal, the default handler's call, the literal that is returned
    Spent {
        of: Worked::Failing(Semantic::Observe, 1),
        units: 5,
        told: "begin main#assert1 definer observe\n\
               verdict false\n\
               handler assert predicate_false observe a.cpp:1:13 main#assert1: false\n\
               returned 3\n",
    },
    // `k` is made, a literal, its name, its end
    Spent {
        of: Worked::OneVariable,
        units: 5,
        told: "returned 1\n",
    },
    // the parameter is made, a literal, the call, its name, its end
    Spent {
        of: Worked::Calling(By::Name),
        units: 6,
        told: "returned 4\n",
    },
    // `p` is made, the function's name, the name of `p`, the result is made, those five, the ends of the result and of
    // `p`
    Spent {
        of: Worked::Calling(By::Pointer),
        units: 12,
        told: "returned 4\n",
    },
    // `p` is made, a literal, its name, the result and the parameter are made, the argument
    Spent {
        of: Worked::CallingNull,
        units: 7,
        told: "undefined: null\n",
    },
    // a literal, `putchar`, the byte, the operator, the function's name; the result and the parameter are made, a literal,
    // the call, its name, the ends of the parameter and of the result
    Spent {
        of: Worked::ChoosingWhatIsCalled,
        units: 13,
        told: "out 97\n\
               returned 4\n",
    },
    // the temporary is made, its leaf and the object are zeroed, the constructor, the operator, the destructor, the end
    Spent {
        of: Worked::ZeroedTemporary,
        units: 8,
        told: "destroyed S 1 0\n\
               returned 0\n",
    },
    // `s` is made, its constructor; `t` is made, the name of `s`, the copy constructor, the leaf; a literal; twice the
    // destructor and the end
    Spent {
        of: Worked::CopyingWhatIsUnset,
        units: 12,
        told: "destroyed S 2 0\n\
               destroyed S 1 0\n\
               returned 4\n",
    },
    // `s` is made, its constructor; the name of `s`, `.`, the call of `g`; `this`, `*`, `.`, the call of `f`, a literal;
    // the destructor, the end
    Spent {
        of: Worked::NamingAMemberAlone,
        units: 13,
        told: "destroyed S 1 0\n\
               returned 1\n",
    },
    // the text, the call, each byte and the newline; the literal that is returned
    Spent {
        of: Worked::Putting(b"hi"),
        units: 7,
        told: "out 104\n\
               out 105\n\
               out 10\n\
               returned 0\n",
    },
    Spent {
        of: Worked::Putting(b""),
        units: 5,
        told: "out 10\n\
               returned 0\n",
    },
    // the bytes before the first 0 alone
    Spent {
        of: Worked::Putting(b"a\0bc"),
        units: 6,
        told: "out 97\n\
               out 10\n\
               returned 0\n",
    },
    // the exception is made, a literal, the throw; a handler is tried, its parameter made, the throw, the end of the
    // parameter; a handler is tried, its parameter made, the name, a literal, the operator, the ends of the parameter
    // and of the exception
    Spent {
        of: Worked::Rethrowing,
        units: 15,
        told: "throw int\n\
               catch int\n\
               throw int\n\
               catch int\n\
               returned 2\n",
    },
    // the evaluation, its literal, the handler's call; six for each of three enumerators: the name, `.`, the call, the
    // cast, `putchar`, the byte; seven for each of two numbers: the name, two `.` and two calls, `putchar`, the byte; the
    // literal that is returned
    Spent {
        of: Worked::HandlerAsks,
        units: 37,
        told: "begin main#assert1 definer observe\n\
               verdict false\n\
               handler assert predicate_false observe a.cpp:6:13 main#assert1: false\n\
               out 3\n\
               out 2\n\
               out 1\n\
               out 6\n\
               out 13\n\
               returned 3\n",
    },
    // `p` is made, a literal, 330 parameters are made, the name of `p`, the operator
    Spent {
        of: Worked::CallsRoundNull(330),
        units: 335,
        told: "undefined: null\n",
    },
];

/// How far runs have come under budgets that are spent.
pub const ROWS: &[Row] = &[
    // the unit of a byte comes before its event
    Row {
        of: Worked::Putting(b"hi"),
        budget: 4,
        told: "going\n",
        ..PLAIN
    },
    Row {
        of: Worked::Putting(b"hi"),
        budget: 5,
        told: "out 104\n\
               going\n",
        ..PLAIN
    },
    Row {
        of: Worked::Putting(b"hi"),
        budget: 7,
        told: "out 104\n\
               out 105\n\
               out 10\n\
               going\n",
        ..PLAIN
    },
    // the end of an object comes behind its destruction
    Row {
        of: Worked::ZeroedTemporary,
        budget: 8,
        told: "destroyed S 1 0\n\
               going\n",
        ..PLAIN
    },
];
