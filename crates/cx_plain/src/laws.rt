//! Laws of the machine for the meaning. Each function does nothing: its contract is the law.
ghost use Rattle.cx_plain.specs.Laws.{ValueIsTheMeaning, ExceptionIsTheMeaning, EndIsTheMeaning};

/// Where the steps of the machine leave the value of `main` and no frame, it is what the program means.
pub fn value_is_the_meaning()
    ensures { ValueIsTheMeaning }
{}

/// Where the steps of the machine leave an exception and no frame, it is what the program means.
pub fn exception_is_the_meaning()
    ensures { ExceptionIsTheMeaning }
{}

/// Where a step of the machine ends the run, the end is what the program means.
pub fn end_is_the_meaning()
    ensures { EndIsTheMeaning }
{}
