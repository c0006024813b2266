//! The table that is built in: the segments that orders, their acknowledgments, ship notices and invoices
//! of version 004010 mostly have (850, 855, 856, 810). The rows were written from knowledge, not from the
//! printed standard. Those that files mostly have stand first, where a search finds them first.

use crate::adding::RowFault;
use crate::elements::{LINES, PARTIES, SUMS, TERMS};
use crate::table::Table;

/// Which segments the sets have, and what they count.
const SETS: &str = "\
850 must BEG PO1
850 may PID N1 N3 N4 REF DTM CTT PER N2 N9 MSG TD5 ITD FOB SAC AMT CUR TAX CTP PAM CSH DIS INC LIN SI MEA PWK
850 may PKG TD1 TD3 TD4 MAN PCT CTB TXI LDT QTY FA1 FA2 NX2 LM LQ SPI CB1 ADV MTX CN1 PO3 PO4 IT8 SDQ IT3
850 may TC2 SCH LS LE SLN
850 counts CTT PO1
855 must BAK
855 may PO1 ACK PID N1 N3 N4 REF DTM CTT PER N2 N9 MSG TD5 ITD FOB SAC AMT CUR TAX CTP PAM CSH DIS INC LIN SI
855 may MEA PWK PKG TD1 TD3 TD4 MAN PCT CTB TXI LDT QTY NX2 LM LQ ADV MTX CN1 PO3 PO4 IT8 SDQ IT3 TC2 SCH
855 may LS LE SLN
855 counts CTT PO1
856 must BSN HL
856 may LIN SN1 MAN PO4 PID REF PRF DTM N1 N3 N4 TD1 TD5 TD3 CTT SLN MEA PWK PKG TD4 TSD PER LH1 LH2 LH3 LFH
856 may LEP LH4 LHT LHR CLD DTP FOB PAL N2 SDQ ETD CUR SAC GF YNQ LM LQ V1 R4 ITD
856 counts CTT HL
810 must BIG TDS
810 may IT1 PID N1 N3 N4 REF DTM CTT SAC TXI ITD PER N2 CAD AMT ISS NTE CUR YNQ DMG FOB MEA PWK PKG L7 BAL INC
810 may PAM CRC LM LQ N9 MSG V1 R4 FA1 FA2 QTY IT3 CTP SDQ SLN PO4 TC2 SR
810 counts CTT IT1
";

/// The elements at the head of the sets.
const HEADS: &str = "\
BEG 1 353 must ID 2 2 transaction set purpose code: 00 01 02 03 04 05 06 07 08 10 11 12 13 14 15 16 17 18 19 20 21 22 24 25 26 27 28 30 31 32 33 34 35 36 37 38 39 40 41 42 43 44 45 46 47 48 49 50 51 52 53 54 55 56 57 77 CN CO EX GR PR RH RV SU ZZ
BEG 2 92 must ID 2 2 purchase order type code: AB BE BK BL BQ CA CF CN CP CR DR DS EO FB IN JO KA KB KC KD KG KI KJ KN KO KP KR KS KT LB LS NE NO NP NS OS PR RA RC RE RL RN RO RR SA SD SO SP SS ST TR UD UE US WH WO
BEG 3 324 must AN 1 22 purchase order number
BEG 4 328 may AN 1 30 release number
BEG 5 373 must DT 8 8 date
BEG 6 367 may AN 1 30 contract number
BEG 7 587 may ID 2 2 acknowledgment type
BEG 8 1019 may ID 3 3 invoice type code
BEG 9 1166 may ID 2 2 contract type code
BEG 10 1232 may ID 2 2 purchase category
BEG 11 786 may ID 2 2 security level code
BEG 12 640 may ID 2 2 transaction type code
BAK 1 353 must ID 2 2 transaction set purpose code: 00 01 02 03 04 05 06 07 08 10 11 12 13 14 15 16 17 18 19 20 21 22 24 25 26 27 28 30 31 32 33 34 35 36 37 38 39 40 41 42 43 44 45 46 47 48 49 50 51 52 53 54 55 56 57 77 CN CO EX GR PR RH RV SU ZZ
BAK 2 587 must ID 2 2 acknowledgment type: AC AD AE AH AK AP AT NA RD RF RJ RO ZZ
BAK 3 324 must AN 1 22 purchase order number
BAK 4 373 must DT 8 8 date
BAK 5 328 may AN 1 30 release number
BAK 6 326 may AN 1 45 request reference number
BAK 7 367 may AN 1 30 contract number
BAK 8 127 may AN 1 30 reference identification
BAK 9 373 may DT 8 8 date
BAK 10 640 may ID 2 2 transaction type code
BSN 1 353 must ID 2 2 transaction set purpose code: 00 01 02 03 04 05 06 07 08 10 11 12 13 14 15 16 17 18 19 20 21 22 24 25 26 27 28 30 31 32 33 34 35 36 37 38 39 40 41 42 43 44 45 46 47 48 49 50 51 52 53 54 55 56 57 77 CN CO EX GR PR RH RV SU ZZ
BSN 2 396 must AN 2 30 shipment identification
BSN 3 373 must DT 8 8 date
BSN 4 337 must TM 4 8 time
BSN 5 1005 may ID 4 4 hierarchical structure code
BSN 6 640 may ID 2 2 transaction type code
BSN 7 641 may ID 3 3 status reason code
BIG 1 373 must DT 8 8 date
BIG 2 76 must AN 1 22 invoice number
BIG 3 373 may DT 8 8 date
BIG 4 324 may AN 1 22 purchase order number
BIG 5 328 may AN 1 30 release number
BIG 6 327 may AN 1 8 change order sequence number
BIG 7 640 may ID 2 2 transaction type code
BIG 8 353 may ID 2 2 transaction set purpose code: 00 01 02 03 04 05 06 07 08 10 11 12 13 14 15 16 17 18 19 20 21 22 24 25 26 27 28 30 31 32 33 34 35 36 37 38 39 40 41 42 43 44 45 46 47 48 49 50 51 52 53 54 55 56 57 77 CN CO EX GR PR RH RV SU ZZ
BIG 9 306 may ID 1 2 action code
BIG 10 76 may AN 1 22 invoice number
";

/// Adds the rows that are built in to a table.
pub fn add_builtin(table: &mut Table) -> Result<(), RowFault> {
    table.add(SETS.as_bytes())?;
    table.add(LINES.as_bytes())?;
    table.add(PARTIES.as_bytes())?;
    table.add(SUMS.as_bytes())?;
    table.add(TERMS.as_bytes())?;
    table.add(HEADS.as_bytes())
}
