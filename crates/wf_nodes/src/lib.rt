//! The rules of single nodes make no node that stands wrong, and lose no value. Where the parts of an expression name
//! what is there, so does the expression; where they leave values exactly where their types aren't void, so does the
//! expression, and each value that it uses is left. This is what the law on the whole walk is made of.
#![tactic(auto)]

ghost use Rattle.wf_nodes.specs.Scopes.{RulesStand};
ghost use Rattle.wf_nodes.specs.Values.{RulesUse};

/// That each rule of single nodes keeps where nodes stand.
pub fn rules_stand()
    ensures { RulesStand }
{}

/// That each rule of single nodes keeps that the values which are used are left.
pub fn values_are_used()
    ensures { RulesUse }
{}
