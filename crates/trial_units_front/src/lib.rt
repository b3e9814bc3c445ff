//! Public calls of the lexer, the parser, the checker's tables and the typed tree on their happy path.
#![tactic(auto)]

#[cfg(test)]
mod c_types_calls;
#[cfg(test)]
mod check_declarators_calls;
#[cfg(test)]
mod check_forms_calls;
#[cfg(test)]
mod check_rules_calls;
#[cfg(test)]
mod check_scopes_calls;
#[cfg(test)]
mod check_types_calls;
#[cfg(test)]
mod lex_literals_calls;
#[cfg(test)]
mod lex_words_calls;
#[cfg(test)]
mod meaning_operators_calls;
#[cfg(test)]
mod name_numbers_calls;
#[cfg(test)]
mod nodes;
#[cfg(test)]
mod shared_bytes_calls;
#[cfg(test)]
mod tick_tree_calls;
#[cfg(test)]
mod typed_tree_calls;
