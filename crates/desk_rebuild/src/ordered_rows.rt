//! Rows that have ids, judged one after another in the order of these.
ghost use Rattle.desk_rebuild.specs.OrderedRows.{IsNext};
ghost use Rattle.std.specs.Prelude.{◌↔◌, ◌^◌, ◌<◌, IsTrue};

/// Whether a row with this id may be the next one after so many, of at most so many.
pub(crate) fn is_next(id: i64, count: usize, most: usize) -> bool
    requires { most < 2 ^ 63 }
    ensures { IsTrue result ↔ IsNext most count id }
{
    count < most && id == count as i64 + 1
}
