ghost use Rattle.cells.specs.Tables.{TablesStand};

// A table that a function makes has that function's cells, and its cells tell a table.
pub fn tables_stand()
    ensures { TablesStand }
{}
