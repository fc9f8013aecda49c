//! What SQL statements do to one table, in any schema that declares it.
//!
//! This crate has no code: it defines words for tables, their rows and what a connection shows of
//! them, and proves lemmas over the statements of `sqlite`. Each lemma is about a text of some form
//! (a SELECT of a whole table in order, an INSERT, an upsert, an UPDATE by the key, a CREATE TABLE)
//! and any table; which tables there are, and what is written to them, is left to the crate above.
#![tactic(auto)]
