//! Tests of what a project is read as: tokens, the grammar, the signatures of built-in functions, roots, and the project of a directory.
#![tactic(auto)]

#[cfg(test)]
mod grammar_tests;
#[cfg(test)]
mod lexer_tests;
#[cfg(test)]
mod project_tests;
#[cfg(test)]
mod roots_tests;
#[cfg(test)]
mod signature_tests;
