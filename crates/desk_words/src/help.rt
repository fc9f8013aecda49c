//! What `--help` says. The program has `ABOUT` at its front and `WHOLE` at its end; an action has
//! such a pair too, as `new` has `NEW_ABOUT` and `NEW`.

pub const ABOUT: &str = "braildesk, the desk program of a braille transcribing office";

pub const NEW_ABOUT: &str = "Makes an empty book in a file";

pub const SESSION_ABOUT: &str = "Answers the requests of standard input from the book in a file";

pub const EXPORT_ABOUT: &str = "Writes a volume of the book in a file as pages for an embosser";

pub const TRANSLATE_ABOUT: &str = "Writes the braille of each line of standard input by a table";

pub const CHECK_ABOUT: &str = "Checks a book's file and says how many changes were made to it";

/// What the operand of `translate` is.
pub const TABLE: &str = "A table file, or @en for the supplied table of uncontracted English";

pub const WHOLE: &str = "\
Example:
  braildesk new book.braildesk
  printf 'supply en\\ntype end en Hello\\nbraille 1\\n' | braildesk session book.braildesk
  braildesk export book.braildesk 1 > book.brf

Exit status:
  0  done, and what was asked for is written
  1  the words were refused
  2  a file, a table, a book or a volume was refused, or there was no memory
  3  the file of a book, standard input or standard output failed

What is refused with status 2 is reported in one line on standard error, as 'braildesk: no 98'.
'braildesk COMMAND --help' says which codes a command has.";

pub const NEW: &str = "\
The answer is 'ok 0'. A file that isn't there is made; a book that is there stays as it is.

Example:
  braildesk new book.braildesk

Exit status:
  0  done
  1  the words were refused
  2  one line on standard error, 'braildesk: ' and
     no 90           there was no memory
     no 92           the file is a database that can't be made a book
     no 93 TABLE ID  the book in the file is damaged
     no 94           the book is of a newer format
     no 98           the file can't be opened or written, is in use, or is no database
     no 99 VERSION   the file holds a book already
  3  the file could not be written, or standard output failed";

pub const SESSION: &str = "\
Each request is answered in turn: a command by 'ok' when the file keeps it, or by 'no' and a code when it
is refused. docs/FORMATS.md has the requests, the replies and what each code means.

Example:
  printf 'supply en\\ntype end en Hello\\nbraille 1\\n' | braildesk session book.braildesk

Exit status:
  0  the input is at its end
  1  the words were refused
  2  one line on standard error, 'braildesk: ' and
     no 90           there was no memory
     no 92           the file is a database but no book
     no 93 TABLE ID  the book in the file is damaged
     no 94           the book is of a newer format
     no 98           the file is not there, can't be opened or written, is in use, or is no database
  3  the file could not be read, the book could not be kept, or standard input or standard output failed";

pub const EXPORT: &str = "\
The pages are in Braille Ready Format.

Example:
  braildesk export book.braildesk 1 --width 30 --lines 27 > volume1.brf

Exit status:
  0  done
  1  the words were refused
  2  one line on standard error, 'braildesk: ' and
     no 90            there was no memory
     no 92            the file is a database but no book
     no 93 TABLE ID   the book in the file is damaged
     no 94            the book is of a newer format
     no 95 PARA CELL  a cell of the volume has dot 7 or 8
     no 96            the book has no such volume
     no 98            the file is not there, can't be opened or written, is in use, or is no database
  3  the file could not be read, or standard output failed";

pub const TRANSLATE: &str = "\
Each line of input is answered by one line: its cells as characters of Braille Patterns, or
  no 1        the line has over 65536 bytes, or is not UTF-8
  no 7 PLACE  the table doesn't define the character at PLACE, counted from 0
  no 14       the line has over 4000 characters

Example:
  echo 'Hello' | braildesk translate @en

Exit status:
  0  all lines are answered
  1  the words were refused
  2  one line on standard error, 'braildesk: ' and
     no 8 LINE CAUSE  the table is refused at LINE, for a CAUSE of docs/FORMATS.md
     no 90            there was no memory
     no 98            the table file is not there, can't be read, or is too large
  3  standard input or standard output failed";

pub const CHECK: &str = "\
The answer is 'ok VERSION': as many changes as were made to the book.

Example:
  braildesk check book.braildesk

Exit status:
  0  done
  1  the words were refused
  2  one line on standard error, 'braildesk: ' and
     no 90           there was no memory
     no 92           the file is a database but no book
     no 93 TABLE ID  the book in the file is damaged
     no 94           the book is of a newer format
     no 98           the file is not there, can't be opened or written, is in use, or is no database
  3  the file could not be read, or standard output failed";
