ghost use Rattle.std.specs.Prelude.{◌≡◌, [], ◌∷◌};
ghost use Rattle.cx_core.specs.Event.{semantic_number};
ghost use Rattle.cx_core.specs.Library.{byte_of, kind_number, mode_number, told_number, query_units, write_bytes, next_byte, getchar_call, puts_bytes, puts_call};
ghost use Rattle.cx_core.specs.Outcome.{spend_all};
ghost use Rattle.cx_plain_state.specs.Library.{write_byte, number_in, putchar_of, write_line, violation_or_mixed, query_of, puts_comment_of};
ghost use Rattle.cx_plain_state.specs.Seen.{state_of, value_of, violation_of};
ghost use Rattle.cx_plain_state.specs.Ran.{Ran, itself, unit_of};

use crate::operators::undefined;
use crate::{Event, Halt, Report, State, Value};
use cx_code::{AssertionKind, DetectionMode, Kind, Semantic};
use cx_core::Query;

fn byte_of(n: i128) -> u8
    ensures { result ≡ byte_of n }
{
    n.rem_euclid(0x100).unsigned_abs() as u8
}

fn kind_number(kind: AssertionKind) -> u32
    ensures { result ≡ kind_number kind }
{
    match kind {
        AssertionKind::Pre => 1,
        AssertionKind::Post => 2,
        AssertionKind::Assert => 3,
    }
}

fn mode_number(mode: DetectionMode) -> u32
    ensures { result ≡ mode_number mode }
{
    match mode {
        DetectionMode::PredicateFalse => 1,
        DetectionMode::EvaluationException => 2,
    }
}

fn semantic_number(semantic: Semantic) -> u32
    ensures { result ≡ semantic_number semantic }
{
    match semantic {
        Semantic::Ignore => 1,
        Semantic::Observe => 2,
        Semantic::Enforce => 3,
        Semantic::QuickEnforce => 4,
    }
}

/// What a violation answers to a query [support.contract.violation].
fn told_number(query: Query, report: Report<'_>) -> u32
    ensures { result ≡ told_number query (violation_of report.entry) }
{
    match query {
        Query::Kind => kind_number(report.assertion.kind),
        Query::Semantic => semantic_number(report.semantic),
        Query::DetectionMode => mode_number(report.mode),
        Query::Line => report.assertion.line,
        Query::Column => report.assertion.column,
    }
}

fn query_units(query: Query) -> u32
    ensures { result ≡ query_units query }
{
    match query {
        Query::Kind | Query::Semantic | Query::DetectionMode => 2,
        Query::Line | Query::Column => 4,
    }
}

#[tactic(auto, unfolding(crate::specs::Seen::state_of, cx_core::specs::Library::next_byte))]
impl<'p> State<'p> {
    fn next_byte(&mut self) -> Result<Value<'p>, Halt>
        ensures { Ran value_of (next_byte (state_of self.old)) result (state_of self.new) }
    {
        match self.input.split_first() {
            None => {
                self.trace.push(Event::InputEnd)?;
                Ok(Value::Number(-1))
            }
            Some((byte, rest)) => {
                self.trace.push(Event::Input(*byte))?;
                self.input = rest;
                Ok(Value::Number(i128::from(*byte)))
            }
        }
    }
}

#[tactic(auto, unfolding(cx_core::specs::Outcome::either, cx_core::specs::Outcome::gives, cx_core::specs::Outcome::ends))]
impl<'p> State<'p> {
    /// So many units of the budget are spent.
    pub fn spend_all(&mut self, units: u32) -> Result<(), Halt>
        ensures { Ran unit_of (spend_all units (state_of self.old)) result (state_of self.new) }
    {
        if units == 0 {
            return Ok(());
        }
        self.spend()?;
        self.spend_all(units - 1)
    }

    fn write_byte(&mut self, byte: u8) -> Result<(), Halt>
        ensures { Ran unit_of (write_byte byte (state_of self.old)) result (state_of self.new) }
    {
        self.spend()?;
        self.append(Event::Out(byte))
    }

    /// The byte of a number is written.
    fn write_number(&mut self, n: i128) -> Result<(), Halt>
        ensures { Ran unit_of (write_bytes (byte_of n ∷ []) (state_of self.old)) result (state_of self.new) }
    {
        self.write_byte(byte_of(n))?;
        Ok(())
    }

    fn number_of(&self, value: Value<'p>) -> Result<i128, Halt>
        ensures { Ran itself (number_in (value_of value.entry) (state_of self.now)) result (state_of self.now) }
    {
        match value {
            Value::Number(n) => Ok(n),
            _ => Err(undefined(Kind::Mixed)),
        }
    }

    /// `putchar` of a value.
    pub fn putchar(&mut self, value: Value<'p>) -> Result<Value<'p>, Halt>
        ensures { Ran value_of (putchar_of (value_of value.entry) (state_of self.old)) result (state_of self.new) }
    {
        let n = self.number_of(value)?;
        self.spend()?;
        self.write_number(n)?;
        Ok(Value::Number(i128::from(byte_of(n))))
    }

    /// `getchar`.
    pub fn getchar(&mut self) -> Result<Value<'p>, Halt>
        ensures { Ran value_of (getchar_call (state_of self.old)) result (state_of self.new) }
    {
        self.spend()?;
        self.next_byte()
    }

    fn write_newline(&mut self) -> Result<(), Halt>
        ensures { Ran unit_of (write_bytes (10 ∷ []) (state_of self.old)) result (state_of self.new) }
    {
        self.write_byte(b'\n')?;
        Ok(())
    }

    /// The bytes before the first 0 are written, and a newline.
    fn write_line(&mut self, text: &[u8]) -> Result<(), Halt>
        ensures { Ran unit_of (write_line text.now (state_of self.old)) result (state_of self.new) }
    {
        match text.split_first() {
            None => self.write_newline(),
            Some((0, _)) => self.write_newline(),
            Some((byte, rest)) => {
                self.write_byte(*byte)?;
                self.write_line(rest)
            }
        }
    }

    /// `puts` of a text that is there.
    #[tactic(auto, unfolding(crate::specs::Library::write_line, cx_core::specs::Outcome::either, cx_core::specs::Outcome::gives))]
    pub fn puts(&mut self, text: &[u8]) -> Result<Value<'p>, Halt>
        ensures { Ran value_of (puts_bytes text.now (state_of self.old)) result (state_of self.new) }
    {
        self.spend()?;
        self.write_line(text)?;
        Ok(Value::Number(0))
    }

    /// `puts` of a literal, whose evaluation is of it.
    pub fn puts_literal(&mut self, text: &[u8]) -> Result<Value<'p>, Halt>
        ensures { Ran value_of (puts_call text.now (state_of self.old)) result (state_of self.new) }
    {
        self.spend()?;
        self.puts(text)
    }

    fn report_in(&self, value: Value<'p>) -> Result<Report<'p>, Halt>
        ensures { Ran violation_of (violation_or_mixed (value_of value.entry) (state_of self.now)) result (state_of self.now) }
    {
        match value {
            Value::Violation(report) => Ok(report),
            _ => Err(undefined(Kind::Mixed)),
        }
    }

    /// What the violation that a value refers to answers to a query.
    pub fn query(&mut self, query: Query, value: Value<'p>) -> Result<Value<'p>, Halt>
        ensures { Ran value_of (query_of query (value_of value.entry) (state_of self.old)) result (state_of self.new) }
    {
        let report = self.report_in(value)?;
        self.spend_all(query_units(query))?;
        Ok(Value::Number(i128::from(told_number(query, report))))
    }

    /// `puts` of the comment of the violation that a value refers to.
    pub fn puts_comment(&mut self, value: Value<'p>) -> Result<Value<'p>, Halt>
        ensures { Ran value_of (puts_comment_of (value_of value.entry) (state_of self.old)) result (state_of self.new) }
    {
        let report = self.report_in(value)?;
        self.spend_all(2)?;
        self.puts(report.assertion.comment.bytes())
    }
}
