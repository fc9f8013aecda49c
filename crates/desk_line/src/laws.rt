//! Laws of requests and replies.
ghost use Rattle.desk_model.specs.Book.{Book};
ghost use Rattle.desk_model.specs.Sound.{IsSound};
ghost use Rattle.desk_line.specs.ReplyLines.{EndsAfterBars, RepliesToQuery};
ghost use Rattle.desk_line.specs.Limits.{most_digits, most_number};
ghost use Rattle.desk_line.specs.declared.limits.TheConstants.{MOST_DIGITS, MOST_NUMBER};
ghost use Rattle.desk_line.specs.declared.request.Query.{Query};
ghost use Rattle.desk_line.specs.Request.{Reads, Requests, WholeRequests};
ghost use Rattle.desk_line.specs.RequestText.{CanBeWritten, request_text};
ghost use Rattle.desk_line.specs.declared.request.Request.{Request};
ghost use Rattle.std.specs.Prelude.{◌≡◌, ◌++◌, ℕ, List};

/// Bytes are at most one request.
pub fn one_request()
    ensures { (bytes : List ℕ) (this that : Request) → Reads bytes this → Reads bytes that → this ≡ that }
{}

/// Each request within the bounds of the language has a text that reads as it: its numbers are at
/// most 2^53, its names have a character and no blank or line feed, its texts no line feed, and its
/// lines are few and short enough.
pub fn requests_are_written()
    ensures { (request : Request) → CanBeWritten request → Reads (request_text request) request }
{}

/// An input is cut into requests in exactly one way.
pub fn one_cut()
    ensures some { (input : List ℕ) → (requests : List (List ℕ)) × Requests input requests }
    ensures one { (text : List ℕ) (this that : List (List ℕ)) → Requests text this → Requests text that → this ≡ that }
{}

/// Bytes after which a read failed have one list of whole requests: the first requests of each
/// input that begins with them.
pub fn one_cut_before_a_fault()
    ensures some { (bytes : List ℕ) → (requests : List (List ℕ)) × WholeRequests bytes requests }
    ensures one { (bytes : List ℕ) (this that : List (List ℕ)) → WholeRequests bytes this → WholeRequests bytes that
        → this ≡ that }
    ensures first { (bytes later : List ℕ) (requests all : List (List ℕ)) → WholeRequests bytes requests
        → Requests (bytes ++ later) all
        → (others : List (List ℕ)) × (all ≡ requests ++ others) }
{}

/// Each line of a reply to a query but the last begins with a bar, so that none of them can be
/// taken for an answer. Of a sound book this holds because none of its texts has a line feed.
pub fn lines_after_bars()
    ensures { (book : Book) (query : Query) (text : List ℕ)
        → IsSound book → RepliesToQuery book query text → EndsAfterBars text }
{}

/// The limits that the code compares with are those in the definitions.
pub fn limits()
    ensures digits { MOST_DIGITS ≡ most_digits }
    ensures number { MOST_NUMBER ≡ most_number }
{}
