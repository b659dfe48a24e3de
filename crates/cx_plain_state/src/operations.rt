ghost use Rattle.std.specs.Prelude.{Some};
ghost use Rattle.std.specs.Option.{option_map};
ghost use Rattle.cx_core.specs.Check.{truth};
ghost use Rattle.cx_core.specs.Number.{unary_number};
ghost use Rattle.cx_core.specs.Operators.{fitting, read_as, converted_to, number_given, numbers_operated, pointers_operated, operated, of_type, unary_operated, stored, updated, step};
ghost use Rattle.cx_core.specs.Outcome.{place_of};
ghost use Rattle.cx_core.specs.Store.{number};
ghost use Rattle.cx_plain_state.specs.Library.{number_at};
ghost use Rattle.cx_plain_state.specs.Seen.{state_of, value_of, address_of, type_of};
ghost use Rattle.cx_plain_state.specs.Ran.{Ran, itself, unit_of};

use crate::arithmetic::{binary_number, unary_number};
use crate::number::{converted_number, in_range, promoted};
use crate::operators::{
    fits, operands_fit, pointers_compared, same_pointer, undefined, value_number,
};
use crate::{Address, Halt, ObjectType, State, Value};
use cx_code::Kind;
use cx_core::{BinaryOperator, IntegerType, UnaryOperator};

#[tactic(auto, unfolding(cx_core::specs::Outcome::either, cx_core::specs::Outcome::gives, cx_core::specs::Outcome::ends))]
impl<'p> State<'p> {
    /// A value that is contextually converted to `bool` [conv.general].
    pub fn truth(&self, value: Value<'p>) -> Result<bool, Halt>
        ensures { Ran itself (truth (value_of value.entry) (state_of self.now)) result (state_of self.now) }
    {
        match value {
            Value::Number(n) => Ok(n != 0),
            Value::Address(_) => Ok(true),
            Value::Null => Ok(false),
            Value::Function(_) => Ok(true),
            Value::Violation(_) => Err(undefined(Kind::Mixed)),
        }
    }

    /// The place that a reference or pointer denotes.
    pub fn place_of(&self, value: Value<'p>) -> Result<Address, Halt>
        ensures { Ran address_of (place_of (value_of value.entry) (state_of self.now)) result (state_of self.now) }
    {
        match value {
            Value::Address(a) => Ok(a),
            Value::Null => Err(undefined(Kind::Null)),
            Value::Number(_) => Err(undefined(Kind::Mixed)),
            Value::Function(_) => Err(undefined(Kind::Mixed)),
            Value::Violation(_) => Err(undefined(Kind::Mixed)),
        }
    }

    /// The value, where an object of the type may hold it.
    fn fitting(&self, of: ObjectType, value: Value<'p>) -> Result<Value<'p>, Halt>
        ensures { Ran value_of (fitting (type_of of) (value_of value.entry) (state_of self.now)) result (state_of self.now) }
    {
        if fits(of, value) {
            Ok(value)
        } else {
            Err(undefined(Kind::Mixed))
        }
    }

    /// What the object of the type holds at the place that the value denotes.
    fn read_object(&self, of: ObjectType, value: Value<'p>) -> Result<Value<'p>, Halt>
        ensures { Ran value_of (read_as (Some (type_of of)) (value_of value.entry) (state_of self.now)) result (state_of self.now) }
    {
        let a = self.place_of(value)?;
        let x = self.read(a)?;
        self.fitting(of, x)
    }

    /// The lvalue-to-rvalue conversion to a type, where there is one [conv.lval].
    pub fn read_as(&self, of: Option<ObjectType>, value: Value<'p>) -> Result<Value<'p>, Halt>
        ensures { Ran value_of (read_as (option_map type_of of) (value_of value.entry) (state_of self.now)) result (state_of self.now) }
    {
        match of {
            None => Ok(value),
            Some(of) => self.read_object(of, value),
        }
    }

    fn converted_to_number(&self, to: IntegerType, value: Value<'p>) -> Result<Value<'p>, Halt>
        ensures { Ran value_of (converted_to (Some to) (value_of value.entry) (state_of self.now)) result (state_of self.now) }
    {
        match value_number(to, value) {
            Some(n) => Ok(Value::Number(n)),
            None => Err(undefined(Kind::Mixed)),
        }
    }

    /// The conversion to an integer type, where there is one.
    pub fn converted_to(&self, to: Option<IntegerType>, value: Value<'p>) -> Result<Value<'p>, Halt>
        ensures { Ran value_of (converted_to to (value_of value.entry) (state_of self.now)) result (state_of self.now) }
    {
        match to {
            None => Ok(value),
            Some(to) => self.converted_to_number(to, value),
        }
    }

    fn numbers_operated(
        &self,
        operator: BinaryOperator,
        of: IntegerType,
        x: i128,
        y: i128,
    ) -> Result<Value<'p>, Halt>
        ensures { Ran value_of (numbers_operated operator of x y (state_of self.now)) result (state_of self.now) }
    {
        if operands_fit(operator, of, x, y) {
            match binary_number(operator, of, x, y) {
                None => Err(Halt::Want),
                Some(Ok(n)) => Ok(Value::Number(n)),
                Some(Err(kind)) => Err(undefined(kind)),
            }
        } else {
            Err(undefined(Kind::Mixed))
        }
    }

    fn pointers_operated(
        &self,
        operator: BinaryOperator,
        x: Value<'p>,
        y: Value<'p>,
    ) -> Result<Value<'p>, Halt>
        ensures { Ran value_of (pointers_operated operator (value_of x.entry) (value_of y.entry) (state_of self.now)) result (state_of self.now) }
    {
        let Some(same) = same_pointer(x, y) else {
            return Err(undefined(Kind::Mixed));
        };
        match pointers_compared(operator, same) {
            Some(n) => Ok(Value::Number(n)),
            None => Err(undefined(Kind::Mixed)),
        }
    }

    /// What an operator with two operands gives.
    pub fn operated(
        &self,
        operator: BinaryOperator,
        of: IntegerType,
        x: Value<'p>,
        y: Value<'p>,
    ) -> Result<Value<'p>, Halt>
        ensures { Ran value_of (operated operator of (value_of x.entry) (value_of y.entry) (state_of self.now)) result (state_of self.now) }
    {
        match (x, y) {
            (Value::Number(x), Value::Number(y)) => self.numbers_operated(operator, of, x, y),
            _ => self.pointers_operated(operator, x, y),
        }
    }

    /// A number of the type.
    fn of_type(&self, of: IntegerType, value: Value<'p>) -> Result<i128, Halt>
        ensures { Ran itself (of_type of (value_of value.entry) (state_of self.now)) result (state_of self.now) }
    {
        match value {
            Value::Number(n) if in_range(of, n) => Ok(n),
            _ => Err(undefined(Kind::Mixed)),
        }
    }

    /// The number of the type that stands at an address.
    fn number_at(&self, of: IntegerType, a: Address) -> Result<i128, Halt>
        ensures { Ran itself (number_at of (address_of a) (state_of self.now)) result (state_of self.now) }
    {
        let held = self.read(a)?;
        self.of_type(of, held)
    }

    /// A number converted to the type.
    fn number_converted(&self, to: IntegerType, n: i128) -> Result<Value<'p>, Halt>
        ensures { Ran value_of (converted_to (Some to) (number n) (state_of self.now)) result (state_of self.now) }
    {
        Ok(Value::Number(converted_number(to, n)))
    }

    fn number_operated(
        &self,
        operator: UnaryOperator,
        of: IntegerType,
        x: i128,
    ) -> Result<Value<'p>, Halt>
        ensures { Ran value_of (number_given (unary_number operator of x) (state_of self.now)) result (state_of self.now) }
    {
        match unary_number(operator, of, x) {
            None => Err(Halt::Want),
            Some(Ok(n)) => Ok(Value::Number(n)),
            Some(Err(kind)) => Err(undefined(kind)),
        }
    }

    /// What an operator with one operand gives.
    pub fn unary_operated(
        &self,
        operator: UnaryOperator,
        of: IntegerType,
        value: Value<'p>,
    ) -> Result<Value<'p>, Halt>
        ensures { Ran value_of (unary_operated operator of (value_of value.entry) (state_of self.now)) result (state_of self.now) }
    {
        let x = self.of_type(of, value)?;
        self.number_operated(operator, of, x)
    }

    /// A value is stored at the place that another one denotes.
    pub fn stored(&mut self, place: Value<'p>, value: Value<'p>) -> Result<(), Halt>
        ensures { Ran unit_of (stored (value_of place.entry) (value_of value.entry) (state_of self.old)) result (state_of self.new) }
    {
        let a = self.place_of(place)?;
        self.write(a, Some(value))
    }

    /// What a place holds is replaced by the result of an operator, computed in one type and kept as another; the old
    /// value is given.
    pub fn updated(
        &mut self,
        operator: BinaryOperator,
        computed: IntegerType,
        kept: IntegerType,
        place: Value<'p>,
        value: Value<'p>,
    ) -> Result<Value<'p>, Halt>
        ensures { Ran value_of (updated operator computed kept (value_of place.entry) (value_of value.entry) (state_of self.old)) result (state_of self.new) }
    {
        let a = self.place_of(place)?;
        let old = self.number_at(kept, a)?;
        let x = self.number_converted(computed, old)?;
        let y = self.operated(operator, computed, x, value)?;
        let z = self.converted_to(Some(kept), y)?;
        self.write(a, Some(z))?;
        Ok(Value::Number(old))
    }

    /// `++` or `--` by its operator; the old value is given.
    pub fn step(
        &mut self,
        operator: BinaryOperator,
        of: IntegerType,
        place: Value<'p>,
    ) -> Result<Value<'p>, Halt>
        ensures { Ran value_of (step operator of (value_of place.entry) (state_of self.old)) result (state_of self.new) }
    {
        self.updated(operator, promoted(of), of, place, Value::Number(1))
    }
}
