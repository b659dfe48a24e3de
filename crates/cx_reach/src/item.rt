/// What is judged in an image: of each function its instructions, the count of them and its regions;
/// then the droppers of the types, `main` and the handler. (This project's own.)
#[derive(Clone, Copy, Debug, PartialEq, Eq)]
pub enum Item {
    /// An instruction, by the index of the function and the place in its code.
    Instruction(usize, usize),
    /// How many instructions a function has, by its index.
    Count(usize),
    /// An entry of an unwind table, by the index of the function and its own.
    Region(usize, usize),
    /// The dropper of a type, by the index of the type.
    Dropper(usize),
    /// The first function.
    Main,
    /// The contract-violation handler.
    Handler,
}
