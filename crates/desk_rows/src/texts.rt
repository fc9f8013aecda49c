//! The texts of the statements.

pub(crate) const CREATE_BOOK: &str =
    "CREATE TABLE book (id INTEGER NOT NULL PRIMARY KEY, format INTEGER NOT NULL, \
     version INTEGER NOT NULL) STRICT";

pub(crate) const CREATE_TAB: &str =
    "CREATE TABLE tab (name TEXT NOT NULL PRIMARY KEY, body BLOB NOT NULL) STRICT";

pub(crate) const CREATE_PARA: &str =
    "CREATE TABLE para (id INTEGER NOT NULL PRIMARY KEY, place INTEGER NOT NULL, \
     tab TEXT NOT NULL, original TEXT NOT NULL, print TEXT NOT NULL, style INTEGER NOT NULL, \
     volume INTEGER NOT NULL, struck INTEGER NOT NULL) STRICT";

pub(crate) const CREATE_MARK: &str =
    "CREATE TABLE mark (id INTEGER NOT NULL PRIMARY KEY, para INTEGER NOT NULL, \
     start INTEGER NOT NULL, stop INTEGER NOT NULL, note TEXT NOT NULL, touched INTEGER NOT NULL, \
     resolved INTEGER NOT NULL) STRICT";

pub(crate) const CREATE_CACHE: &str =
    "CREATE TABLE cache (para INTEGER NOT NULL PRIMARY KEY, cells BLOB NOT NULL) STRICT";

pub(crate) const CREATE_NAMED_CORR: &str =
    "CREATE TABLE corr2 (para INTEGER NOT NULL, seq INTEGER NOT NULL, kind INTEGER NOT NULL, \
     start INTEGER NOT NULL, len INTEGER NOT NULL, body TEXT NOT NULL, who TEXT NOT NULL, \
     PRIMARY KEY (para, seq)) STRICT";

pub(crate) const READ_BOOKS: &str = "SELECT id, format, version FROM book ORDER BY id";

pub(crate) const READ_TABS: &str = "SELECT rowid, name, body FROM tab ORDER BY name";

pub(crate) const READ_PARAS: &str =
    "SELECT id, place, tab, original, print, style, volume, struck FROM para ORDER BY id";

pub(crate) const READ_CORRS: &str =
    "SELECT para, seq, kind, start, len, body FROM corr ORDER BY para, seq";

pub(crate) const READ_MARKS: &str =
    "SELECT id, para, start, stop, note, touched, resolved FROM mark ORDER BY id";

pub(crate) const READ_CACHES: &str = "SELECT para, cells FROM cache ORDER BY para";

pub(crate) const READ_NAMED_CORRS: &str =
    "SELECT para, seq, kind, start, len, body, who FROM corr2 ORDER BY para, seq";

pub(crate) const PUT_BOOK: &str =
    "INSERT INTO book VALUES (?1, ?2, ?3) ON CONFLICT (id) DO UPDATE SET format = ?2, version = ?3";

pub(crate) const PUT_TAB: &str =
    "INSERT INTO tab VALUES (?1, ?2) ON CONFLICT (name) DO UPDATE SET body = ?2";

pub(crate) const PUT_PARA: &str =
    "INSERT INTO para VALUES (?1, ?2, ?3, ?4, ?5, ?6, ?7, ?8) ON CONFLICT (id) DO UPDATE SET \
     place = ?2, tab = ?3, original = ?4, print = ?5, style = ?6, volume = ?7, struck = ?8";

pub(crate) const PUT_MARK: &str =
    "INSERT INTO mark VALUES (?1, ?2, ?3, ?4, ?5, ?6, ?7) ON CONFLICT (id) DO UPDATE SET \
     para = ?2, start = ?3, stop = ?4, note = ?5, touched = ?6, resolved = ?7";

pub(crate) const PUT_CACHE: &str =
    "INSERT INTO cache VALUES (?1, ?2) ON CONFLICT (para) DO UPDATE SET cells = ?2";

pub(crate) const PUT_NAMED_CORR: &str = "INSERT INTO corr2 VALUES (?1, ?2, ?3, ?4, ?5, ?6, ?7)";

pub(crate) const SET_PLACE: &str = "UPDATE para SET place = ?2 WHERE id = ?1";

pub(crate) const SET_FLAGS: &str =
    "UPDATE para SET style = ?2, volume = ?3, struck = ?4 WHERE id = ?1";

pub(crate) const SET_TABLE: &str = "UPDATE para SET tab = ?2 WHERE id = ?1";

pub(crate) const SET_PRINT: &str = "UPDATE para SET print = ?2 WHERE id = ?1";

pub(crate) const SET_SPAN: &str =
    "UPDATE mark SET start = ?2, stop = ?3, touched = ?4 WHERE id = ?1";

pub(crate) const SET_RESOLVED: &str = "UPDATE mark SET resolved = ?2 WHERE id = ?1";

pub(crate) const SET_VERSION: &str = "UPDATE book SET version = ?2 WHERE id = ?1";
