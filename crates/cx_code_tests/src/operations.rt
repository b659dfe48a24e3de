use cx_code::{DetectionMode, Instruction, Operation, Party, Scalar, Semantic, Verdict};

/// The codes and numbers are those of the format.
#[test]
fn instructions_do_what_their_numbers_say(rt: HostRuntime) {
    let rows = [
        (1, u32::MAX, 0xffff_fffe, Operation::Push(-2)),
        (30, 0, 0, Operation::Less),
        (34, 6, 0, Operation::Convert(Scalar::UnsignedLongLong)),
        (35, 7, 0, Operation::Jump(7)),
        (36, 7, 0, Operation::JumpZero(7)),
        (37, 7, 0, Operation::JumpNonzero(7)),
        (39, 0, 0, Operation::Return),
        (
            44,
            5,
            12,
            Operation::Begin(5, Party::Caller, Semantic::QuickEnforce),
        ),
        (45, 5, 0, Operation::Verdict(5)),
        (
            46,
            5,
            19,
            Operation::Violate(5, DetectionMode::EvaluationException, Semantic::Enforce),
        ),
        (48, 0, 0, Operation::ContractEnd),
    ];
    for (code, a, b, want) in rows {
        assert_eq!(rt; Instruction { code, a, b }.operation(), Some(want));
    }
    for (code, a, b) in [(0, 0, 0), (56, 0, 0), (34, 7, 0), (44, 0, 16), (46, 0, 1)] {
        assert_eq!(rt; Instruction { code, a, b }.operation(), None);
    }
}
