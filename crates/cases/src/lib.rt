//! Worked cases, as facts about the definitions: what packages cost, what steps and chains come to, which sheet a sale has,
//! and which offers are held or refused.

#![tactic(auto)]

ghost use Rattle.cases.specs.Table.{CasesHold};

/// Every case of the table holds: a theorem, whose proof is this function's.
pub fn cases_hold()
    ensures { CasesHold }
{}
