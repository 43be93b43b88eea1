// The fault of a refusal.
ghost use Rattle.std.specs.Prelude.{◌≡◌, ◌<◌, length};
ghost use Rattle.idl_grammar.specs.Answers.{is_banned};
ghost use Rattle.idl_tokens.specs.Refused.{IsWithin, IsNamed};

use crate::parser::Parser;
use crate::symbol;
use idl_grammar::{Refusal, SyntaxFault};

/// Whether a word is at a place that is banned anywhere.
#[tactic(auto, unfolding(idl_grammar::specs::Answers::is_banned))]
fn stands_banned(parser: &Parser<'_>, at: usize) -> bool
    ensures { result ≡ is_banned parser.now at }
{
    parser.stands(symbol::BANNED, at)
}

/// The fault of a refusal: a word that is banned anywhere is named as such. Takes no memory.
pub fn fault_of(parser: &Parser<'_>, refusal: Refusal) -> SyntaxFault
    requires few { length parser.now < 4294967296 }
    requires within { IsWithin refusal (length parser.now) }
    ensures { IsNamed parser.now refusal result }
{
    match refusal {
        Refusal::Memory => SyntaxFault::Memory,
        Refusal::Syntax(at) => {
            let token = at as u32;
            if stands_banned(parser, at) {
                SyntaxFault::Banned { token }
            } else {
                SyntaxFault::Syntax { token }
            }
        }
        Refusal::Deep(at) => SyntaxFault::Deep { token: at as u32 },
        Refusal::Banned(at) => SyntaxFault::Banned { token: at as u32 },
    }
}
