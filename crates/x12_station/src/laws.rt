//! Laws of a station, as functions that do nothing.

ghost use Rattle.x12_station.specs.TableLaw.{PreparedTable, OrdersTable, ArrivalTable};

use x12_profile::orders_are_submitted;

/// The tables of S1 to S12 name the row by which the definition of a station refuses a step, and none
/// where it takes the step, as long as a number of a submission or first arrival is left where the
/// step takes one: so a call either takes the step, or says the first row that holds, or memory or
/// the records are wanting.
pub fn tables_name_the_definitions_rows()
    ensures prepared { PreparedTable }
    ensures orders { OrdersTable }
    ensures arrivals { ArrivalTable }
{
    orders_are_submitted();
}
