//! Tables and indexes as rows of data, and whether a database's schema is the one that they describe.

ghost use Rattle.std.specs.Prelude.{◌≡◌, ◌↔◌, false, IsTrue, map};
ghost use Rattle.x12_tables.specs.Layout.{column_by, name_by, places_by, order_by, foreign_by};
ghost use Rattle.x12_tables.specs.Layout.{table_by, index_by, schema_by};
ghost use Rattle.x12_tables.specs.Schema.{no_schema, keyed_table};

use sqlite::types::Value;
use sqlite_items::Items;
use sqlite_schema::schema::{Action, Column, Index, Kind, Reference, Schema, Table};
use sqlite_value::keys::{Collation, Order};
use sqlite_value::value::Bytes;

/// A column, as a CREATE statement defines it: its name, its kind, and whether it is NOT NULL.
#[derive(Clone, Copy)]
pub struct PlainColumn(pub &'static str, pub Kind, pub bool);

/// The name of a column.
#[derive(Clone, Copy)]
pub struct Name(pub &'static str);

/// The places of columns that are UNIQUE together.
#[derive(Clone, Copy)]
pub struct Unique(pub &'static [usize]);

/// A foreign key, which acts on nothing: the places of its columns, its parent, and the parent's
/// columns.
#[derive(Clone, Copy)]
pub struct Foreign(pub &'static [usize], pub &'static str, pub &'static [Name]);

/// A table, as a CREATE statement defines it: its name, its tree, its columns, of which the first is
/// its integer key, and its keys.
#[derive(Clone, Copy)]
pub struct TableLayout {
    pub name: &'static str,
    pub tree: u32,
    pub columns: &'static [PlainColumn],
    pub uniques: &'static [Unique],
    pub foreign: &'static [Foreign],
}

/// An index, with the lower values first: its name, its tree, that of its table, the places of its
/// columns, and whether it is UNIQUE.
#[derive(Clone, Copy)]
pub struct IndexLayout(
    pub &'static str,
    pub u32,
    pub u32,
    pub &'static [usize],
    pub bool,
);

/// A row of data that describes a part of a schema.
trait Describes<P> {
    ghost described: { Self → P };

    /// Whether a part is the one that the row describes.
    fn is_met_by(&self, part: &P) -> bool
        ensures is { IsTrue result → part.now ≡ described self.now }
        ensures met { part.now ≡ described self.now → IsTrue result };
}

/// Whether the parts are those that the rows describe, in their order.
fn are_met<P, D: Describes<P>>(rows: &[D], parts: &[P]) -> bool
    ensures is { IsTrue result → parts.now ≡ map D.Describes.described rows.now }
    ensures met { parts.now ≡ map D.Describes.described rows.now → IsTrue result }
{
    if parts.len() != rows.len() {
        return false;
    }
    for at in 0..parts.len() {
        if !rows[at].is_met_by(&parts[at]) {
            return false;
        }
    }
    true
}

impl Describes<Column> for PlainColumn {
    ghost described = { column_by };

    fn is_met_by(&self, column: &Column) -> bool {
        column.name.as_slice() == self.0.as_bytes()
            && column.kind == self.1
            && column.is_strict
            && column.not_null == self.2
            && matches!(column.default, Value::Null)
            && column.collation == Collation::Binary
    }
}

impl Describes<Bytes> for Name {
    ghost described = { name_by };

    fn is_met_by(&self, name: &Bytes) -> bool {
        name.as_slice() == self.0.as_bytes()
    }
}

impl Describes<Items<usize>> for Unique {
    ghost described = { places_by };

    fn is_met_by(&self, places: &Items<usize>) -> bool {
        places.as_slice() == self.0
    }
}

impl Describes<Order> for Unique {
    ghost described = { order_by };

    fn is_met_by(&self, order: &Order) -> bool {
        order.digits == 0
    }
}

impl Describes<Reference> for Foreign {
    ghost described = { foreign_by };

    fn is_met_by(&self, reference: &Reference) -> bool {
        reference.columns.as_slice() == self.0
            && reference.parent.as_slice() == self.1.as_bytes()
            && are_met(self.2, reference.parent_columns.as_slice())
            && reference.on_delete == Action::NoAction
            && reference.on_update == Action::NoAction
            && !reference.is_deferred
    }
}

/// Whether a table has an integer key, and no rule but UNIQUE and REFERENCES.
fn is_keyed(table: &Table) -> bool
    ensures is { IsTrue result → table.now ≡ record (keyed_table table.now.name table.now.tree
        table.now.columns table.now.uniques table.now.references) { orders = table.now.orders } }
    ensures met { table.now ≡ record (keyed_table table.now.name table.now.tree
        table.now.columns table.now.uniques table.now.references) { orders = table.now.orders } →
        IsTrue result }
{
    table.key == Some(0)
        && table.primary.as_slice() == [0usize].as_slice()
        && table.checks.roots.is_empty()
        && table.computed.is_empty()
        && table.stamps.places.is_empty()
        && table.stamps.terms.roots.is_empty()
        && table.stamps.formats.is_empty()
        && !table.is_counted
}

/// Whether these columns are UNIQUE, and no others, each with the lower values first.
fn are_unique(rows: &[Unique], table: &Table) -> bool
    ensures uniques { IsTrue result → table.now.uniques ≡ map places_by rows.now }
    ensures orders { IsTrue result → table.now.orders ≡ map order_by rows.now }
    ensures met { table.now.uniques ≡ map places_by rows.now →
        table.now.orders ≡ map order_by rows.now → IsTrue result }
{
    are_met(rows, table.uniques.as_slice()) && are_met(rows, table.orders.as_slice())
}

impl Describes<Table> for TableLayout {
    ghost described = { table_by };

    fn is_met_by(&self, table: &Table) -> bool {
        is_keyed(table)
            && table.name.as_slice() == self.name.as_bytes()
            && table.tree == self.tree
            && are_met(self.columns, table.columns.as_slice())
            && are_unique(self.uniques, table)
            && are_met(self.foreign, table.references.as_slice())
    }
}

impl Describes<Index> for IndexLayout {
    ghost described = { index_by };

    fn is_met_by(&self, index: &Index) -> bool {
        index.name.as_slice() == self.0.as_bytes()
            && index.tree == self.1
            && index.table == self.2
            && index.columns.as_slice() == self.3
            && index.order.digits == 0
            && index.is_unique == self.4
    }
}

/// Whether a schema has these tables and indexes, in their order, and no view.
pub fn is_schema(schema: &Schema, tables: &[TableLayout], indexes: &[IndexLayout]) -> bool
    ensures is { IsTrue result → schema.now ≡ schema_by tables.now indexes.now }
    ensures met { schema.now ≡ schema_by tables.now indexes.now → IsTrue result }
{
    are_met(tables, schema.tables.as_slice())
        && are_met(indexes, schema.indexes.as_slice())
        && schema.views.is_empty()
}

/// Whether there is no table, no index and no view.
pub fn is_no_schema(schema: &Schema) -> bool
    ensures { IsTrue result ↔ (schema.now ≡ no_schema) }
{
    schema.tables.is_empty() && schema.indexes.is_empty() && schema.views.is_empty()
}
