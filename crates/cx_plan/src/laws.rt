ghost use Rattle.std.specs.Prelude.{◌≡◌, ℕ, List};
ghost use Rattle.cx_plan.specs.declared.plan.Directive.{Directive};
ghost use Rattle.cx_plan.specs.declared.line.Line.TheVariants as lines;
ghost use Rattle.cx_plan.specs.Line.{line_of};
ghost use Rattle.cx_plan.specs.Spelled.{spelled, IsSayable};

/// A line says a directive exactly where it spells it. Takes no memory. (This project's own.)
pub fn lines_spell_what_they_say()
    ensures read { (directive : Directive) → IsSayable directive → line_of (spelled directive) ≡ lines.Says directive }
    ensures spelled { (line : List ℕ) (directive : Directive) → line_of line ≡ lines.Says directive → IsSayable directive × (line ≡ spelled directive) }
{}
