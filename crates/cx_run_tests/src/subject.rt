use crate::compiled::compile;
use crate::copies::{NoCopy, statements};
use cx_code::{BlockMap, Run, Semantic};
use cx_core::{Assertion, Body, CoreUnit};
use cx_image::Valid;
use cx_machine::run;
use cx_mean::{CallerChecks, Function, Meaning, PlannedAssertion, Program, mean_of};
use cx_outside::{MemSink, MemSource, Text};
use cx_plain_state::Evaluation;
use std::alloc::Global;
use std::test::Fail;

/// A unit as the machine has it and as the meaning has it.
#[derive(Drop)]
pub struct Subject {
    alloc: Global,
    pub image: Valid,
    program: Program,
}

impl Subject {
    /// That of a text, whose assertions all have this semantic.
    pub fn new(alloc: Global, semantic: Semantic, text: &[u8]) -> Result<Subject, Fail> {
        let compiled = compile(alloc, semantic, text)?;
        let program = program_of(alloc, semantic, &compiled.unit)?;
        Ok(Subject {
            alloc,
            image: compiled.image,
            program,
        })
    }

    /// The machine's run in at most so many steps, without input.
    pub fn run(&self, limit: u32) -> Result<Run, Fail> {
        let alloc = self.alloc;
        let mut memory = BlockMap::new(alloc);
        let mut input = MemSource::new(alloc, b"", &[])?;
        let mut out = MemSink::new(alloc, &[])?;
        let mut err = MemSink::new(alloc, &[])?;
        Ok(run(
            alloc,
            &self.image,
            &mut memory,
            &mut input,
            &mut out,
            &mut err,
            limit,
        ))
    }

    /// What the program means where these evaluations are told, without input.
    pub fn meaning<'p>(
        &'p self,
        begins: &'p [Evaluation],
        budget: u64,
    ) -> Result<Meaning<'p>, Fail> {
        Ok(mean_of(self.alloc, &self.program, begins, b"", budget)?)
    }
}

/// The program of a unit alone: each assertion has the one semantic, and its definer evaluates it once, or not at all
/// where it is ignored.
fn program_of(alloc: Global, semantic: Semantic, unit: &CoreUnit) -> Result<Program, NoCopy> {
    let mut functions = Vec::new(alloc);
    let mut checks = Vec::new(alloc);
    for function in unit.functions.items() {
        functions.push(definition_of(alloc, function)?)?;
        checks.push(CallerChecks {
            preconditions: Vec::new(alloc),
            postconditions: Vec::new(alloc),
        })?;
    }
    let mut callers = Vec::new(alloc);
    callers.push(checks)?;
    Ok(Program {
        functions,
        classes: Vec::new(alloc),
        globals: Vec::new(alloc),
        assertions: planned(alloc, semantic, unit.assertions.items())?,
        callers,
        main: 0,
        handler: None,
    })
}

/// A function without contracts.
fn definition_of(alloc: Global, function: &cx_core::Function) -> Result<Function, NoCopy> {
    let Some(Body::Function(body)) = &function.body else {
        return Err(NoCopy::Form);
    };
    Ok(Function {
        definer: 0,
        noexcept: function.noexcept,
        result: function.result,
        preconditions: Vec::new(alloc),
        postconditions: Vec::new(alloc),
        body: Body::Function(statements(alloc, body)?),
    })
}

/// The table of assertions.
fn planned(
    alloc: Global,
    semantic: Semantic,
    assertions: &[Assertion],
) -> Result<Vec<PlannedAssertion>, NoCopy> {
    let times = match semantic {
        Semantic::Ignore => 0,
        Semantic::Observe | Semantic::Enforce | Semantic::QuickEnforce => 1,
    };
    let mut planned = Vec::new(alloc);
    for assertion in assertions {
        planned.push(PlannedAssertion {
            assertion: copy_of(alloc, assertion)?,
            semantic,
            times,
        })?;
    }
    Ok(planned)
}

fn copy_of(alloc: Global, assertion: &Assertion) -> Result<Assertion, NoCopy> {
    Ok(Assertion {
        kind: assertion.kind,
        name: Text::copy_of(alloc, assertion.name.bytes())?,
        file: Text::copy_of(alloc, assertion.file.bytes())?,
        line: assertion.line,
        column: assertion.column,
        comment: Text::copy_of(alloc, assertion.comment.bytes())?,
    })
}

/// The budget of a run of so many steps.
pub fn budget_of(steps: u32) -> u64 {
    64 * (u64::from(steps) + 1)
}
