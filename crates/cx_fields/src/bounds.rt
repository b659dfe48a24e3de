ghost use Rattle.std.specs.Prelude.{◌≡◌, ◌<◌, ◌^◌};
ghost use Rattle.cx_fields.specs.Parts.{unbounded, bounds_of, operand_end, caught_end};

/// For each kind of index field the first number that is out of its table. The fields that may also name no entry hold
/// an index plus 1, or 0. (This project's own.)
#[derive(Clone, Copy, Debug)]
pub struct Bounds {
    /// Of a text.
    pub texts: u64,
    /// Of a text, or none.
    pub texts_or_none: u64,
    /// Of a type.
    pub types: u64,
    /// Of a type, or none.
    pub types_or_none: u64,
    /// Of a global.
    pub globals: u64,
    /// Of a function.
    pub functions: u64,
    /// Of a function, or none.
    pub functions_or_none: u64,
    /// Of an assertion.
    pub assertions: u64,
}

/// How many numbers 32 bits hold.
const WORDS: u64 = 1 << 32;

impl Bounds {
    /// Bounds that no number of 32 bits passes, for a first reading, when the tables aren't known yet, and where no
    /// index is judged. (This project's own.)
    pub fn none() -> Self
        ensures { result ≡ unbounded }
    {
        Bounds {
            texts: WORDS,
            texts_or_none: WORDS,
            types: WORDS,
            types_or_none: WORDS,
            globals: WORDS,
            functions: WORDS,
            functions_or_none: WORDS,
            assertions: WORDS,
        }
    }

    /// The bounds of tables of these lengths, which memory holds. (This project's own.)
    pub fn of(
        texts: usize,
        types: usize,
        globals: usize,
        functions: usize,
        assertions: usize,
    ) -> Self
        requires { (texts < 2 ^ 63) × (types < 2 ^ 63) × (functions < 2 ^ 63) }
        ensures { result ≡ bounds_of texts types globals functions assertions }
    {
        Bounds {
            texts: texts as u64,
            texts_or_none: texts as u64 + 1,
            types: types as u64,
            types_or_none: types as u64 + 1,
            globals: globals as u64,
            functions: functions as u64,
            functions_or_none: functions as u64 + 1,
            assertions: assertions as u64,
        }
    }

    /// What an instruction's first number must be below: by its code, of `call`, `global`, `text_at`, `begin`, `verdict`,
    /// `violate`, `throw` and `destroyed`.
    pub(crate) fn operand_end(&self, code: u8) -> u64
        ensures { result ≡ operand_end self.now code }
    {
        match code {
            38 => self.functions,
            40 => self.globals,
            43 => self.texts_or_none,
            44 | 45 | 46 => self.assertions,
            49 | 54 => self.types,
            _ => WORDS,
        }
    }

    /// What the type of a region of this kind must be below.
    pub(crate) fn caught_end(&self, kind: u8) -> u64
        ensures { result ≡ caught_end self.now kind }
    {
        if kind == 2 { self.types_or_none } else { WORDS }
    }
}
