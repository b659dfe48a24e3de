use crate::programs::Worked;
use crate::rows::{PLAIN, Row};

/// Objects of class type: how they are made and copied, and when each ends.
pub const ROWS: &[Row] = &[
    // `b` is object 1, `a` 2, the parameter 3, `c` 4
    Row {
        of: Worked::CountingCopies,
        told: "destroyed T 2 0\n\
               destroyed T 4 0\n\
               destroyed T 1 0\n\
               returned 3\n",
        ..PLAIN
    },
    Row {
        of: Worked::ZeroedTemporary,
        told: "destroyed S 1 0\n\
               returned 0\n",
        ..PLAIN
    },
    Row {
        of: Worked::UnsetField,
        told: "undefined: unset\n",
        ..PLAIN
    },
    // a discarded value that is no lvalue is read
    Row {
        of: Worked::DiscardingAValue,
        told: "undefined: unset\n",
        ..PLAIN
    },
    Row {
        of: Worked::DiscardingAnLvalue,
        told: "destroyed S 1 0\n\
               returned 0\n",
        ..PLAIN
    },
    Row {
        of: Worked::InlineMember,
        told: "destroyed S 1 0\n\
               returned 4\n",
        ..PLAIN
    },
    Row {
        of: Worked::ConstPair,
        told: "begin main#assert1 definer enforce\n\
               verdict holds\n\
               destroyed S 1 0\n\
               returned 1\n",
        ..PLAIN
    },
    // `p` is object 1, `x` 2, the parameter of `f` 3, `u` 4
    Row {
        of: Worked::Speaking,
        told: "out 84\n\
               out 117\n\
               destroyed U 4 0\n\
               begin f#post1 definer enforce\n\
               out 33\n\
               verdict holds\n\
               out 112\n\
               destroyed P 3 0\n\
               out 116\n\
               destroyed T 2 0\n\
               out 112\n\
               destroyed P 1 0\n\
               returned 1\n",
        ..PLAIN
    },
    // the same, where the postcondition's handler throws
    Row {
        of: Worked::GivingUpTheResult,
        told: "out 84\n\
               begin f#post1 definer enforce\n\
               verdict false\n\
               handler post predicate_false enforce a.cpp:5:10 f#post1: false\n\
               throw int\n\
               out 116\n\
               destroyed T 2 0\n\
               out 112\n\
               destroyed P 3 0\n\
               catch int\n\
               out 112\n\
               destroyed P 1 0\n\
               returned 5\n",
        ..PLAIN
    },
    Row {
        of: Worked::CopyingWhatIsUnset,
        told: "destroyed S 2 0\n\
               destroyed S 1 0\n\
               returned 4\n",
        ..PLAIN
    },
    Row {
        of: Worked::CopyingNestedObjects,
        told: "destroyed A 2 0\n\
               destroyed B 2 0\n\
               destroyed A 1 0\n\
               destroyed B 1 0\n\
               returned 0\n",
        ..PLAIN
    },
    Row {
        of: Worked::MemberOfTheDead,
        told: "destroyed S 1 0\n\
               undefined: dead\n",
        ..PLAIN
    },
    // the field ends between the body and the postcondition
    Row {
        of: Worked::CheckedDestruction,
        told: "begin W::W#post1 definer enforce\n\
               out 33\n\
               verdict holds\n\
               begin W::~W#pre1 definer enforce\n\
               out 33\n\
               verdict holds\n\
               out 87\n\
               out 112\n\
               destroyed P 1 0\n\
               begin W::~W#post1 definer enforce\n\
               out 33\n\
               verdict holds\n\
               destroyed W 1 0\n\
               returned 0\n",
        ..PLAIN
    },
    // the parameters are objects 1 and 4, the temporary 2
    Row {
        of: Worked::ParametersBeforeTemporaries,
        told: "out 112\n\
               destroyed P 4 0\n\
               out 116\n\
               destroyed T 2 0\n\
               returned 0\n",
        ..PLAIN
    },
];
