// Strings with commas between (C706, sections 4.2.5 and 4.2.6).
ghost use Rattle.std.specs.Prelude.{◌≡◌, ◌≤◌, ◌<◌, length, IfOk};
ghost use Rattle.idl_grammar.specs.ReadPhrases.{behind_read};
ghost use Rattle.idl_grammar.specs.Gives.{Gives};
ghost use Rattle.idl_grammar.specs.Symbols as symbols;
ghost use Rattle.idl_grammar.specs.ReadExpressions.{spelled_read};
ghost use Rattle.idl_grammar.specs.Reading.{commas_read};

use crate::parser::Parser;
use crate::symbol;
use idl_grammar::{Refusal, Spelling};

impl Parser<'_> {
    /// A string after a comma.
    fn next_string(&self, at: usize) -> Result<(Spelling, usize), Refusal>
        requires within { at ≤ length self.now }
        ensures gives { Gives (λ x. x) result (behind_read symbols.Comma self.now (spelled_read symbols.Quoted self.now) at) }
        ensures within { IfOk result (λ x. (at < x.1) × (x.1 ≤ length self.now)) }
    {
        let next = self.mark(symbol::COMMA, at)?;
        let (item, next) = self.spelled(symbol::QUOTED, next)?;
        Ok((item, next))
    }

    /// Strings with commas between. Takes memory for them.
    pub fn strings(&self, at: usize) -> Result<(Vec<Spelling>, usize), Refusal>
        requires within { at ≤ length self.now }
        ensures gives { Gives (λ v. v.items) result (commas_read self.now (spelled_read symbols.Quoted self.now) at) }
        ensures within { IfOk result (λ x. (at < x.1) × (x.1 ≤ length self.now)) }
    {
        let (first, mut here) = self.spelled(symbol::QUOTED, at)?;
        let mut list = Vec::new(self.alloc());
        list.push(first)?;
        while self.stands(symbol::COMMA, here) {
            let (next, past) = self.next_string(here)?;
            list.push(next)?;
            here = past;
        }
        Ok((list, here))
    }
}
