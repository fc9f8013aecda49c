//! What the head line of a query asks.
ghost use Rattle.desk_line.specs.ReadingSteps.{query_by, query_in};
ghost use Rattle.std.specs.Prelude.{◌≡◌};

use super::fields::Fields;
use super::request::Query;

/// The query that the fields of a line ask.
#[tactic(auto, unfolding(crate::specs::ReadingSteps::query_in))]
pub(crate) fn read_query(fields: Fields<'_>) -> Option<Query>
    ensures { result ≡ query_in fields.entry }
{
    let (word, others) = fields.split()?;
    read_query_by(word, others)
}

/// The query that a word and the fields after it ask.
fn read_query_by(word: &str, fields: Fields<'_>) -> Option<Query>
    ensures { result ≡ query_by word.now fields.entry }
{
    if word == "print" {
        let (paragraph, fields) = fields.number()?;
        fields.end(Query::Print { paragraph })
    } else if word == "braille" {
        let (paragraph, fields) = fields.number()?;
        fields.end(Query::Braille { paragraph })
    } else if word == "history" {
        let (paragraph, fields) = fields.number()?;
        fields.end(Query::History { paragraph })
    } else if word == "marks" {
        let (paragraph, fields) = fields.number()?;
        fields.end(Query::Marks { paragraph })
    } else if word == "where" {
        let (paragraph, fields) = fields.number()?;
        let (place, fields) = fields.number()?;
        let place = place as usize;
        fields.end(Query::WhereIs { paragraph, place })
    } else if word == "whence" {
        let (paragraph, fields) = fields.number()?;
        let (cell, fields) = fields.number()?;
        let cell = cell as usize;
        fields.end(Query::Whence { paragraph, cell })
    } else if word == "list" {
        fields.end(Query::List)
    } else if word == "version" {
        fields.end(Query::Version)
    } else {
        None
    }
}
