//! Laws over the definitions.

ghost use Rattle.std.specs.Prelude.{◌≡◌, ℕ, Option, None, Ok, Err};
ghost use Rattle.nd_base.specs.declared.octets.Place.{Place};
ghost use Rattle.nd_types.specs.declared.interface.Interface.{Interface};
ghost use Rattle.acf_reader.specs.Grammar.{Acf};
ghost use Rattle.idl_rule_definitions.specs.Nodes.{World};
ghost use Rattle.idl_rule_definitions.specs.declared.fault.RuleFault.TheVariants as fault;
ghost use Rattle.nd_types.specs.Meant.{meant_by};
ghost use Rattle.idl_rule_definitions.specs.Rules.{first_of, first_broken, IsLeast, breach};
ghost use Rattle.idl_check.specs.AcfRules.{acf_breaches, all_breaches, first_of_all, or_else, AnswersBeside};

/// The rule on attribute configuration files is reported where no other is: all rules together have as their first one that of the others, and where
/// these have none its own. No lesser one is broken, and none at an earlier place. Without such a file the others stand alone.
pub fn attribute_files_come_last()
    ensures behind { (w : World) (f : Option Acf) → first_of_all w f ≡ or_else (first_broken w) (first_of w (acf_breaches w f)) }
    ensures least { (w : World) (f : Option Acf) → IsLeast w (all_breaches w f) (first_of_all w f) }
    ensures alone { (w : World) → first_of_all w None ≡ first_broken w }
{}

/// No two answers are right of the same files and one attribute configuration file, except when out of memory. Where two such files are accepted
/// beside them, or one and none, they mean the same interface.
pub fn one_answer_is_right()
    ensures told { (w : World) (f : Option Acf) (rule other : ℕ) (place elsewhere : Place)
        → AnswersBeside w f (Err (fault.Broken rule place)) → AnswersBeside w f (Err (fault.Broken other elsewhere))
        → breach rule place ≡ breach other elsewhere }
    ensures not_both { (w : World) (f : Option Acf) (i : Interface) (rule : ℕ) (place : Place)
        → AnswersBeside w f (Ok i) → AnswersBeside w f (Err (fault.Broken rule place)) → ⊥ }
    ensures meant { (w : World) (f g : Option Acf) (i j : Interface) → AnswersBeside w f (Ok i) → AnswersBeside w g (Ok j) → meant_by i ≡ meant_by j }
{}
