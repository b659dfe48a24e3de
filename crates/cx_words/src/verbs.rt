ghost use Rattle.std.specs.Prelude.{◌≡◌};
ghost use Rattle.cx_words.specs.Verbs.{verb_in, columns, row_of, fits_place, fits_number};

/// What the program is to do: the first word that is no option. This project's own.
#[derive(Clone, Copy, Debug, PartialEq, Eq)]
pub enum Verb {
    /// `exec`: compile and link units, and run the image.
    Exec,
    /// `compile`: make the object of one unit.
    Compile,
    /// `link`: make the image of objects.
    Link,
    /// `run`: run an image.
    Run,
    /// `explain`: list the checks of units.
    Explain,
    /// `make`: generate so many units, and do with them as `exec` does.
    Make,
}

/// Where an option stands in the row of a verb.
#[derive(Clone, Copy, Debug, PartialEq, Eq)]
pub enum Place {
    Required,
    Allowed,
    Absent,
}

/// How many names a verb takes.
#[derive(Clone, Copy, Debug, PartialEq, Eq)]
pub enum Number {
    One,
    Several,
}

/// The row of a verb in the table of verbs.
#[derive(Clone, Copy, Debug)]
pub struct Row {
    pub output: Place,
    pub plan: Place,
    pub steps: Place,
    pub semantic: Place,
    pub journal: Place,
    pub names: Number,
}

/// The verb that a word names.
pub fn verb_in(word: &str) -> Option<Verb>
    ensures { result ≡ verb_in word.now }
{
    match word {
        "exec" => Some(Verb::Exec),
        "compile" => Some(Verb::Compile),
        "link" => Some(Verb::Link),
        "run" => Some(Verb::Run),
        "explain" => Some(Verb::Explain),
        "make" => Some(Verb::Make),
        _ => None,
    }
}

/// The row of a verb.
pub fn row_of(verb: Verb) -> Row
    ensures { result ≡ row_of verb }
{
    use Number::{One, Several};
    use Place::{Absent, Allowed, Required};
    match verb {
        Verb::Exec => columns(Required, Allowed, Allowed, Allowed, Allowed, Several),
        Verb::Compile => columns(Required, Allowed, Absent, Allowed, Absent, One),
        Verb::Link => columns(Required, Absent, Absent, Absent, Absent, Several),
        Verb::Run => columns(Absent, Absent, Allowed, Absent, Allowed, One),
        Verb::Explain => columns(Absent, Allowed, Absent, Allowed, Absent, Several),
        Verb::Make => columns(Required, Absent, Allowed, Absent, Absent, One),
    }
}

/// The row of these columns.
fn columns(
    output: Place,
    plan: Place,
    steps: Place,
    semantic: Place,
    journal: Place,
    names: Number,
) -> Row
    ensures { result ≡ columns output plan steps semantic journal names }
{
    Row {
        output,
        plan,
        steps,
        semantic,
        journal,
        names,
    }
}

/// Whether an option that is given, or isn't, fits its place in a row.
pub fn fits_place(place: Place, given: bool) -> bool
    ensures { result ≡ fits_place place given }
{
    match place {
        Place::Required => given,
        Place::Allowed => true,
        Place::Absent => !given,
    }
}

/// Whether so many names fit.
pub fn fits_number(number: Number, count: usize) -> bool
    ensures { result ≡ fits_number number count }
{
    match number {
        Number::One => count == 1,
        Number::Several => count >= 1,
    }
}
