use crate::build::{Build, Made};
use cx_code::{AssertionKind, Semantic};
use cx_core::{Assertion, Constant, Specifier};
use cx_mean::{CallerChecks, Class, Function, PlannedAssertion, Program};
use cx_outside::Text;

/// An assertion, as its violation tells it.
#[derive(Clone, Copy)]
pub struct Stated {
    pub kind: AssertionKind,
    pub name: &'static [u8],
    pub file: &'static [u8],
    pub line: u32,
    pub column: u32,
    pub comment: &'static [u8],
}

/// An assertion as one party evaluates it: under which semantic, and how often.
#[derive(Clone, Copy)]
pub struct Under(pub Stated, pub Semantic, pub u16);

/// Programs.
impl Build {
    /// A program of one unit, in which function 0 is `main`, without classes, globals and assertions.
    pub fn program(self, functions: Made<Vec<Function>>) -> Made<Program> {
        Ok(Program {
            functions: functions?,
            classes: Vec::new(self.alloc),
            globals: Vec::new(self.alloc),
            assertions: Vec::new(self.alloc),
            callers: Vec::new(self.alloc),
            main: 0,
            handler: None,
        })
    }

    /// With these classes.
    pub fn with_classes(self, classes: Made<Vec<Class>>, program: Made<Program>) -> Made<Program> {
        let mut program = program?;
        program.classes = classes?;
        Ok(program)
    }

    /// With one global, of this value.
    pub fn with_global(self, value: i128, program: Made<Program>) -> Made<Program> {
        let mut program = program?;
        program.globals.push(Constant::Number(value))?;
        Ok(program)
    }

    fn planned(self, planned: Under) -> Made<PlannedAssertion> {
        let Under(stated, semantic, times) = planned;
        Ok(PlannedAssertion {
            assertion: Assertion {
                kind: stated.kind,
                name: Text::copy_of(self.alloc, stated.name)?,
                file: Text::copy_of(self.alloc, stated.file)?,
                line: stated.line,
                column: stated.column,
                comment: Text::copy_of(self.alloc, stated.comment)?,
            },
            semantic,
            times,
        })
    }

    /// With this table of assertions.
    pub fn with_assertions(self, planned: &[Under], program: Made<Program>) -> Made<Program> {
        let mut program = program?;
        for under in planned {
            program.assertions.push(self.planned(*under)?)?;
        }
        Ok(program)
    }

    /// With the function that handles violations.
    pub fn with_handler(self, function: u32, program: Made<Program>) -> Made<Program> {
        let mut program = program?;
        program.handler = Some(function);
        Ok(program)
    }

    /// What a unit checks as Caller where it calls a function.
    pub fn checks(
        self,
        preconditions: Made<Vec<Specifier>>,
        postconditions: Made<Vec<Specifier>>,
    ) -> Made<CallerChecks> {
        Ok(CallerChecks {
            preconditions: preconditions?,
            postconditions: postconditions?,
        })
    }

    /// Nothing.
    pub fn no_checks(self) -> Made<CallerChecks> {
        self.checks(self.list([]), self.list([]))
    }

    /// With what the first unit checks as Caller, by function.
    pub fn with_caller(
        self,
        checks: Made<Vec<CallerChecks>>,
        program: Made<Program>,
    ) -> Made<Program> {
        let mut program = program?;
        program.callers.push(checks?)?;
        Ok(program)
    }
}
