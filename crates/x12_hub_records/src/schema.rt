//! Whether a database's schema is that of a hub's records.

ghost use Rattle.std.specs.Prelude.{◌≡◌, IsTrue};
ghost use Rattle.x12_hub_records.specs.HubSchema.{hub_schema};

use sqlite_schema::schema::{Kind, Schema};
use x12_tables::{Foreign, IndexLayout, Name, PlainColumn, TableLayout, Unique, is_schema};

const HUB_TABLES: [TableLayout; 4] = [
    TableLayout {
        name: "directory",
        tree: 0,
        columns: &[
            PlainColumn("at", Kind::Integer, false),
            PlainColumn("party", Kind::Blob, true),
            PlainColumn("node", Kind::Integer, true),
        ],
        uniques: &[Unique(&[2])],
        foreign: &[],
    },
    TableLayout {
        name: "decision",
        tree: 2,
        columns: &[
            PlainColumn("item", Kind::Integer, false),
            PlainColumn("node", Kind::Integer, false),
            PlainColumn("refusal", Kind::Blob, false),
            PlainColumn("bytes", Kind::Blob, true),
        ],
        uniques: &[Unique(&[4])],
        foreign: &[],
    },
    TableLayout {
        name: "mailbox",
        tree: 4,
        columns: &[
            PlainColumn("item", Kind::Integer, false),
            PlainColumn("node", Kind::Integer, true),
        ],
        uniques: &[],
        foreign: &[Foreign(&[0], "decision", &[Name("item")])],
    },
    TableLayout {
        name: "hubnumber",
        tree: 5,
        columns: &[
            PlainColumn("one", Kind::Integer, false),
            PlainColumn("version", Kind::Integer, true),
            PlainColumn("party", Kind::Blob, true),
            PlainColumn("icn", Kind::Integer, true),
            PlainColumn("item", Kind::Integer, true),
        ],
        uniques: &[],
        foreign: &[],
    },
];

// SQLite makes an index for each table with columns that are UNIQUE.
const HUB_INDEXES: [IndexLayout; 2] = [
    IndexLayout("sqlite_autoindex_directory_1", 1, 0, &[2], true),
    IndexLayout("sqlite_autoindex_decision_1", 3, 2, &[4], true),
];

/// Whether the schema is that of a hub's records, as this crate makes them.
pub(crate) fn is_hub_schema(schema: &Schema) -> bool
    ensures is { IsTrue result → schema.now ≡ hub_schema }
    ensures taken { schema.now ≡ hub_schema → IsTrue result }
{
    is_schema(schema, &HUB_TABLES, &HUB_INDEXES)
}
