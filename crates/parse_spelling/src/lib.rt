//! What the syntax tree of a text is, by its tokens (`specs/Items`: what the grammar reads of a token; `specs/Trees`:
//! the tree, or the first fault), and what a tree spells (`specs/Words`, `specs/Spelling`): definitions that the parser
//! and the commands on texts cite, and the law that the tree that the grammar reads spells the tokens it read.
#![tactic(auto)]
