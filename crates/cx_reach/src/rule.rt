/// The rules of a valid image, which say that a run of it lacks no operand, index or place.
/// (This project's own.)
#[derive(Clone, Copy, Debug, PartialEq, Eq)]
pub enum Rule {
    /// The numbers and the indices of instructions and regions are in range.
    V1,
    /// Places and slots are the function's.
    V2,
    /// Each reached instruction has one depth, with the operands that it takes, and at most 4,096.
    V3,
    /// Regions cover some of the code, keep what is there, and lie within or apart from each other.
    V4,
    /// A call passes as many arguments as there are parameters.
    V5,
    /// The code is there, isn't left at its end, and stands where it may.
    V6,
    /// `main`, the handler and the droppers are such as the machine calls.
    V7,
}
