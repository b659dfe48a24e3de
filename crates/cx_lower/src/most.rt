//! The most variables that are visible at one place.
ghost use Rattle.std.specs.Prelude.{◌≡◌, ◌^◌, ◌≤◌};
ghost use Rattle.cx_core.specs.View.{stmt_of, stmts_of};
ghost use Rattle.cx_lower.specs.Code.{stmt_most, stmts_most};

use crate::emitter::Emitter;
use crate::statement::live_behind;
use cx_core::Statement;

#[tactic(auto, unfolding(crate::specs::Code::stmt_most, crate::specs::Code::stmts_most))]
impl<'u> Emitter<'u> {
    /// The most variables that are visible at one place in a statement, where so many are before it.
    #[cycle(most)]
    pub fn most_in_statement(&self, live: u32, s: &Statement) -> u32
        requires { stmt_most live (stmt_of s.now) ≤ 2 ^ 24 }
        ensures { result ≡ stmt_most live (stmt_of s.now) }
    {
        match s {
            Statement::Variable(..) => live + 1,
            Statement::Block(b) => self.most_in_block(live, b),
            Statement::If(_, a, b) => {
                let first = self.most_in_statement(live, a);
                first.max(self.most_in_statement(live, b))
            }
            Statement::While(_, body) => self.most_in_statement(live, body),
            _ => live,
        }
    }

    /// The same of the statements of a block.
    #[cycle(most)]
    pub fn most_in_block(&self, live: u32, b: &[Statement]) -> u32
        requires { stmts_most live (stmts_of b.now) ≤ 2 ^ 24 }
        ensures { result ≡ stmts_most live (stmts_of b.now) }
    {
        let mut most = 0;
        let mut visible = live;
        for s in b {
            most = most.max(self.most_in_statement(visible, s));
            visible = live_behind(visible, s);
        }
        most.max(visible)
    }
}
