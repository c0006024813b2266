//! Whether a database's schema is that of a station's records.

ghost use Rattle.std.specs.Prelude.{◌≡◌, IsTrue};
ghost use Rattle.x12_station_records.specs.StationSchema.{station_schema};

use sqlite_schema::schema::{Kind, Schema};
use x12_tables::{Foreign, IndexLayout, Name, PlainColumn, TableLayout, Unique, is_schema};

const STATION_TABLES: [TableLayout; 6] = [
    TableLayout {
        name: "numbers",
        tree: 0,
        columns: &[
            PlainColumn("one", Kind::Integer, false),
            PlainColumn("version", Kind::Integer, true),
            PlainColumn("party", Kind::Blob, true),
            PlainColumn("hub", Kind::Blob, true),
            PlainColumn("other", Kind::Blob, false),
            PlainColumn("icn", Kind::Integer, true),
            PlainColumn("gcn", Kind::Integer, true),
            PlainColumn("seq", Kind::Integer, true),
            PlainColumn("handed", Kind::Integer, true),
            PlainColumn("noted", Kind::Integer, true),
            PlainColumn("era", Kind::Integer, true),
        ],
        uniques: &[],
        foreign: &[],
    },
    TableLayout {
        name: "agreement",
        tree: 1,
        columns: &[
            PlainColumn("at", Kind::Integer, false),
            PlainColumn("partner", Kind::Blob, true),
            PlainColumn("functional", Kind::Blob, true),
            PlainColumn("lenient", Kind::Integer, true),
            PlainColumn("setid", Kind::Blob, true),
        ],
        uniques: &[Unique(&[2, 3, 5])],
        foreign: &[],
    },
    TableLayout {
        name: "outbound",
        tree: 3,
        columns: &[
            PlainColumn("icn", Kind::Integer, false),
            PlainColumn("seq", Kind::Integer, true),
            PlainColumn("partner", Kind::Blob, true),
            PlainColumn("bytes", Kind::Blob, true),
        ],
        uniques: &[],
        foreign: &[],
    },
    TableLayout {
        name: "outset",
        tree: 4,
        columns: &[
            PlainColumn("at", Kind::Integer, false),
            PlainColumn("icn", Kind::Integer, true),
            PlainColumn("grp", Kind::Integer, true),
            PlainColumn("place", Kind::Integer, true),
            PlainColumn("gcn", Kind::Integer, true),
            PlainColumn("functional", Kind::Blob, true),
            PlainColumn("number", Kind::Blob, true),
            PlainColumn("fate", Kind::Integer, true),
        ],
        uniques: &[Unique(&[2, 3, 4])],
        foreign: &[Foreign(&[2], "outbound", &[Name("icn")])],
    },
    TableLayout {
        name: "inbound",
        tree: 6,
        columns: &[
            PlainColumn("seq", Kind::Integer, false),
            PlainColumn("partner", Kind::Blob, true),
            PlainColumn("icn", Kind::Integer, true),
            PlainColumn("reply", Kind::Blob, false),
            PlainColumn("bytes", Kind::Blob, true),
        ],
        uniques: &[Unique(&[2, 3])],
        foreign: &[],
    },
    TableLayout {
        name: "posting",
        tree: 8,
        columns: &[
            PlainColumn("at", Kind::Integer, false),
            PlainColumn("partner", Kind::Blob, true),
            PlainColumn("icn", Kind::Integer, true),
            PlainColumn("grp", Kind::Integer, true),
            PlainColumn("place", Kind::Integer, true),
            PlainColumn("functional", Kind::Blob, true),
            PlainColumn("setid", Kind::Blob, true),
            PlainColumn("number", Kind::Blob, true),
            PlainColumn("bytes", Kind::Blob, true),
        ],
        uniques: &[Unique(&[2, 3, 4, 5])],
        foreign: &[Foreign(&[2, 3], "inbound", &[Name("partner"), Name("icn")])],
    },
];

// SQLite makes an index for each table with columns that are UNIQUE together.
const STATION_INDEXES: [IndexLayout; 7] = [
    IndexLayout("sqlite_autoindex_agreement_1", 2, 1, &[2, 3, 5], true),
    IndexLayout("sqlite_autoindex_outset_1", 5, 4, &[2, 3, 4], true),
    IndexLayout("sqlite_autoindex_inbound_1", 7, 6, &[2, 3], true),
    IndexLayout("sqlite_autoindex_posting_1", 9, 8, &[2, 3, 4, 5], true),
    IndexLayout("outset_group", 10, 4, &[5], false),
    IndexLayout("outset_fate", 11, 4, &[8], false),
    IndexLayout("outbound_seq", 12, 3, &[2], false),
];

/// Whether the schema is that of a station's records, as this crate makes them.
pub(crate) fn is_station_schema(schema: &Schema) -> bool
    ensures is { IsTrue result → schema.now ≡ station_schema }
    ensures taken { schema.now ≡ station_schema → IsTrue result }
{
    is_schema(schema, &STATION_TABLES, &STATION_INDEXES)
}
