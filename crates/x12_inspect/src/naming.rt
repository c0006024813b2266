//! The names of data elements (X12.3, the data element dictionary).

/// A data element: its number in the dictionary, and its name.
struct Named(u16, &'static str);

/// The data elements that notes and trailers speak of, by number.
static ELEMENTS: [Named; 18] = [
    Named(28, "group control number"),
    Named(92, "purchase order type code"),
    Named(96, "number of included segments"),
    Named(97, "number of transaction sets included"),
    Named(143, "transaction set identifier code"),
    Named(212, "unit price"),
    Named(235, "product/service id qualifier"),
    Named(234, "product/service id"),
    Named(323, "purchase order date"),
    Named(324, "purchase order number"),
    Named(328, "release number"),
    Named(329, "transaction set control number"),
    Named(330, "quantity ordered"),
    Named(350, "assigned identification"),
    Named(353, "transaction set purpose code"),
    Named(354, "number of line items"),
    Named(355, "unit or basis for measurement code"),
    Named(373, "date"),
];

/// The name of a data element, where it is one of these.
pub(crate) fn name_of(reference: u32) -> Option<&'static str> {
    for row in &ELEMENTS {
        if u32::from(row.0) == reference {
            return Some(row.1);
        }
    }
    None
}
